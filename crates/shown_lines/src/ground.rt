//! Texts from the ground, shown.
ghost use Rattle.std.specs.Prelude.{◌≡◌, ◌≤◌, [], IfErr};
ghost use Rattle.afn_logon.specs.Contents.{answer_data};
ghost use Rattle.shown_lines.specs.Meanings.Meaning.{answer, uplink};
ghost use Rattle.shown_lines.specs.Meanings.{GroundTextMeans, answer_meaning, uplink_meaning};
ghost use Rattle.shown_lines.specs.Shown.{IsShownAs, way_shown};
ghost use Rattle.shown_lines.specs.Texts.{line_text};

use crate::direction::Direction;
use crate::head::{append_ads_head, append_afn_head};
use crate::logon::append_answer;
use crate::refusal::TextRefusal;
use crate::room::Room;
use crate::show::{LineShown, show_mismatch, show_refusal};
use crate::uplink::append_messages;
use acars_envelope::{Address, Registration};
use adsc_requests::Uplink;
use afn_logon::Answer;
use ground_texts::{AdsUplink, AfnUplink, GroundText, read_ground_text};

/// Shows what a text from the ground says.
pub(crate) fn show_ground_text(out: &mut Room, number: u32, text: &[u8]) -> LineShown
    requires { out.old ≡ [] }
    ensures { IsShownAs number (GroundTextMeans text.now) out.new result }
{
    match read_ground_text(text) {
        GroundText::Refused(fault) => show_refusal(out, number, &TextRefusal::Envelope(fault)),
        GroundText::Ads(found) => show_uplink(out, number, &found),
        GroundText::Afn(found) => show_answer(out, number, &found),
    }
}

/// Shows what an uplink asks, or the first fault of its payload.
fn show_uplink(out: &mut Room, number: u32, found: &AdsUplink) -> LineShown
    requires { out.old ≡ [] }
    ensures text { out.new ≡ line_text number
        (uplink_meaning found.now.address found.now.registration found.now.asked) }
    ensures way { result ≡ way_shown
        (uplink_meaning found.now.address found.now.registration found.now.asked) }
{
    match &found.asked {
        Ok(asked) => {
            append_uplink_text(out, number, &found.address, &found.registration, asked);
            LineShown::Right
        }
        Err(fault) => show_refusal(out, number, &TextRefusal::Request(*fault)),
    }
}

/// Shows the answer that an AFN text is, or its first mismatch.
fn show_answer(out: &mut Room, number: u32, found: &AfnUplink) -> LineShown
    requires empty { out.old ≡ [] }
    requires within { IfErr found.now.answer (λ mismatch. mismatch.place ≤ 255) }
    ensures text { out.new ≡ line_text number
        (answer_meaning found.now.address found.now.answer) }
    ensures way { result ≡ way_shown (answer_meaning found.now.address found.now.answer) }
{
    match &found.answer {
        Ok(said) => {
            append_answer_text(out, number, &found.address, said);
            LineShown::Right
        }
        Err(mismatch) => show_mismatch(out, number, mismatch.place),
    }
}

/// Appends what is shown for an uplink.
#[tactic(auto, unfolding(crate::specs::Texts::line_text))]
fn append_uplink_text(
    out: &mut Room,
    number: u32,
    address: &Address,
    registration: &Registration,
    asked: &Uplink,
)
    requires { out.old ≡ [] }
    ensures { out.new ≡ line_text number (uplink address.now registration.now asked.now) }
{
    append_ads_head(out, number, Direction::Up, address, registration);
    append_messages(out, asked.messages.as_slice());
}

/// Appends what is shown for an answer.
#[tactic(auto, unfolding(crate::specs::Texts::line_text))]
fn append_answer_text(out: &mut Room, number: u32, address: &Address, said: &Answer)
    requires { out.old ≡ [] }
    ensures { out.new ≡ line_text number (answer address.now (answer_data said.now)) }
{
    append_afn_head(out, number, Direction::Up, address);
    append_answer(out, said);
}
