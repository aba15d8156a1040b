//! Reading a contact text and an answer text.
ghost use Rattle.std.specs.Prelude.{◌≡◌, ◌+◌, ◌-◌, ◌^◌, ◌<◌, ◌≤◌, length, IfOk, IfErr};
ghost use Rattle.afn_logon.specs.Contents.{answer_data, contact_data, position_data};
ghost use Rattle.afn_logon.specs.Forms.{IsAnswerText, IsContactText, IsSomeAnswer, IsSomeContact};
ghost use Rattle.afn_logon.specs.Mismatch.{IsFirstMismatch};
ghost use Rattle.afn_logon.specs.Reading.{Gives, GivesWhole, answer_reading, contact_reading, position_reading};
ghost use Rattle.afn_logon.specs.declared.answer.Answer.{Answer as AnswerValue};
ghost use Rattle.afn_logon.specs.declared.contact.Contact.{Contact as ContactValue};
ghost use Rattle.afn_logon.specs.declared.refusal.AfnRefusal.{AfnRefusal as AfnRefusalValue};

use crate::answer::Answer;
use crate::applications::read_applications;
use crate::contact::Contact;
use crate::kind::Kind;
use crate::names::{read_airframe, read_flight, read_registration};
use crate::numbers::{CLOCK, LATITUDE, LONGITUDE, ONE_DIGIT, read_number};
use crate::position::Position;
use crate::refusal::AfnRefusal;
use crate::unread::{Mismatch, Unread};

/// Reads a contact text, FN_CON: the one contact whose text it is, or its first mismatch, which is
/// the length of its longest beginning with which some contact text begins.
pub fn read_contact(text: &[u8]) -> Result<Contact, AfnRefusal>
    ensures found { IfOk result (λ c. IsContactText (contact_data c) text.now) }
    ensures right { (c : ContactValue) → IsContactText (contact_data c) text.now → result ≡ Ok c }
    ensures fault { IfErr result (λ r. IsFirstMismatch IsSomeContact text.now r.place) }
    ensures first { (r : AfnRefusalValue) →
        IsFirstMismatch IsSomeContact text.now r.place → result ≡ Err r }
{
    match contact(&mut Unread::new(text)) {
        Ok(contact) => Ok(contact),
        Err(mismatch) => Err(refusal(text, mismatch)),
    }
}

/// Reads an answer text, FN_AK: the one answer whose text it is, or its first mismatch, which is
/// the length of its longest beginning with which some answer text begins.
pub fn read_answer(text: &[u8]) -> Result<Answer, AfnRefusal>
    ensures found { IfOk result (λ a. IsAnswerText (answer_data a) text.now) }
    ensures right { (a : AnswerValue) → IsAnswerText (answer_data a) text.now → result ≡ Ok a }
    ensures fault { IfErr result (λ r. IsFirstMismatch IsSomeAnswer text.now r.place) }
    ensures first { (r : AfnRefusalValue) →
        IsFirstMismatch IsSomeAnswer text.now r.place → result ≡ Err r }
{
    match answer(&mut Unread::new(text)) {
        Ok(answer) => Ok(answer),
        Err(mismatch) => Err(refusal(text, mismatch)),
    }
}

/// The refusal of a text that has this mismatch.
fn refusal(text: &[u8], mismatch: Mismatch) -> AfnRefusal
    requires within { mismatch.left ≤ length text.now }
    requires near { length text.now < mismatch.left + 2 ^ 32 }
    ensures { result.place ≡ length text.now - mismatch.left }
{
    AfnRefusal {
        place: (text.len() - mismatch.left) as u32,
    }
}

/// Reads a contact, to the end.
#[tactic(auto, unfolding(crate::specs::Reading::contact_reading))]
fn contact(unread: &mut Unread) -> Result<Contact, Mismatch>
    ensures { GivesWhole contact_data result (contact_reading unread.old) }
{
    unread.pass(b"/FMH")?;
    let flight = read_flight(unread)?;
    let registration = read_registration(unread)?;
    unread.pass(b",")?;
    let airframe = read_airframe(unread)?;
    let clock = read_number(unread, &CLOCK, 86_399)?;
    unread.pass(b"/FPO")?;
    let position = read_position(unread)?;
    unread.pass(b",")?;
    let active = unread.choice(b'0', b'1')?;
    let applications = read_applications(unread, Kind::Offered)?;
    Ok(Contact {
        flight,
        registration,
        airframe,
        clock,
        position,
        active,
        applications,
    })
}

/// Reads a position.
#[tactic(auto, unfolding(crate::specs::Reading::position_reading))]
fn read_position(unread: &mut Unread) -> Result<Position, Mismatch>
    ensures { Gives position_data result unread.new (position_reading unread.old) }
{
    let south = unread.choice(b'N', b'S')?;
    let lat = read_number(unread, &LATITUDE, 54_000)?;
    let west = unread.choice(b'E', b'W')?;
    let lon = read_number(unread, &LONGITUDE, 108_000)?;
    Ok(Position {
        south,
        lat,
        west,
        lon,
    })
}

/// Reads an answer, to the end.
#[tactic(auto, unfolding(crate::specs::Reading::answer_reading))]
fn answer(unread: &mut Unread) -> Result<Answer, Mismatch>
    ensures { GivesWhole answer_data result (answer_reading unread.old) }
{
    unread.pass(b"/FMH")?;
    let flight = read_flight(unread)?;
    let registration = read_registration(unread)?;
    unread.pass(b"/FAK")?;
    let code = read_number(unread, &ONE_DIGIT, 9)?;
    let applications = read_applications(unread, Kind::Answered)?;
    Ok(Answer {
        flight,
        registration,
        code: code as u8,
        applications,
    })
}
