//! What a line says, shown.
ghost use Rattle.std.specs.Prelude.{◌≡◌, ℕ, ◌+◌, ◌<◌, ◌≤◌, List, [], length, map, IfOk, IfSome, IfNone};
ghost use Rattle.shown_lines.specs.declared.direction.Direction.{Direction as DirectionValue};
ghost use Rattle.adsc_downlink.specs.ItemView.{item_data};
ghost use Rattle.afn_logon.specs.Contents.{contact_data};
ghost use Rattle.shown_lines.specs.Meanings.Meaning.{contact, downlink, refused};
ghost use Rattle.shown_lines.specs.Meanings.{letter_of, characters_place, IsLineOf, BeginsWith, DownlinkMeans, ContactMeans, BodyMeans, AircraftTextMeans, TextMeans};
ghost use Rattle.shown_lines.specs.Shown.{IsShown, IsShownAs};
ghost use Rattle.shown_lines.specs.Texts.{end_text, line_text};

use crate::direction::Direction;
use crate::downlink::append_items;
use crate::ground::show_ground_text;
use crate::head::{append_ads_head, append_afn_head};
use crate::logon::append_contact;
use crate::refusal::{TextRefusal, append_refusal};
use crate::room::Room;
use acars_envelope::{Address, Body, Registration, unseal};
use adsc_downlink::{Item, decode_items};
use adsc_io::{MAX_LINE_BYTES, NoMemory};
use afn_logon::{Contact, read_contact};
use arrayvec::ArrayVec;
use std::alloc::Global;
use std::marker::Model;

/// How a line is shown. This project's profile.
#[derive(Clone, Copy, Debug, PartialEq, Eq)]
pub enum LineShown {
    /// As what it says.
    Right,
    /// As what is wrong with it.
    Refused,
}

/// Where the characters of an AFN text begin, counted in the whole text (ARINC 622).
const CHARACTERS_PLACE: u32 = 12;

/// The text that shows a line, in room that is taken once. This project's profile.
///
/// It has room for each line's text, so showing a line takes no memory.
#[derive(Drop)]
pub struct ShownText {
    room: Room,
    /// The items of the downlink that was read last.
    items: ArrayVec<Item, 8>,
}

impl Model for ShownText {
    ghost use Rattle.std.specs.Prelude.{ℕ, List};

    ghost Value = { List ℕ };

    ghost view = { λ text. text.room };
}

impl ShownText {
    /// No text, with room for that of any line. `NoMemory` is the only refusal.
    pub fn new(alloc: Global) -> Result<ShownText, NoMemory>
        ensures { IfOk result (λ text. text ≡ []) }
    {
        Ok(ShownText {
            room: Room::new(alloc)?,
            items: ArrayVec::new(),
        })
    }

    /// The text.
    pub fn bytes(&self) -> &[u8]
        ensures { result.now ≡ self.now }
    {
        self.room.bytes()
    }

    /// Shows the line of this number, and answers how. This project's profile; texts follow ARINC 622, payloads RTCA
    /// DO-258A / EUROCAE ED-100A.
    ///
    /// The first line of a right text has the number, the ground facility, and for an ADS text the aircraft; the lines of
    /// its messages or items follow, or those of the answer or the contact that it is. For a refused line it has its number,
    /// and the code and the place of the refusal. A line that begins neither with `U,` nor with `D,` is refused as `Form`.
    /// The text behind is refused at the first bad place of its envelope, or at the first fault of what it carries: behind
    /// `U,` stands an uplink or an answer to a logon, behind `D,` a downlink or a contact.
    pub fn show_line(&mut self, number: u32, line: &[u8]) -> LineShown
        requires { length line.now ≤ MAX_LINE_BYTES }
        ensures { IsShown number line.now self.new result }
    {
        self.room.clear();
        match text_behind(line) {
            Some((direction, text)) => self.show_text(number, direction, text),
            None => show_refusal(&mut self.room, number, &TextRefusal::Form),
        }
    }

    /// Shows that the line of this number is too long: it is refused as `Long`, whatever it begins with.
    pub fn show_long(&mut self, number: u32) -> LineShown
        ensures { (line : List ℕ) → MAX_LINE_BYTES < length line
            → IsShown number line self.new result }
    {
        self.room.clear();
        show_refusal(&mut self.room, number, &TextRefusal::Long)
    }

    /// Shows the end of an input: how many lines it had, and how many of them are refused. This project's profile.
    #[tactic(auto, unfolding(crate::specs::Texts::end_text))]
    pub fn show_end(&mut self, lines: u32, refused: u32)
        ensures { self.new ≡ end_text lines refused }
    {
        self.room.clear();
        self.room.append(b"end");
        self.room.append_number(lines);
        self.room.append_number(refused);
        self.room.append(b"\n");
    }

    /// Shows what a text says that goes this way.
    fn show_text(&mut self, number: u32, direction: Direction, text: &[u8]) -> LineShown
        requires { self.old ≡ [] }
        ensures { IsShownAs number (TextMeans direction text.now) self.new result }
    {
        match direction {
            Direction::Up => show_ground_text(&mut self.room, number, text),
            Direction::Down => self.show_aircraft_text(number, text),
        }
    }

    /// Shows what a text from the aircraft says.
    fn show_aircraft_text(&mut self, number: u32, text: &[u8]) -> LineShown
        requires { self.old ≡ [] }
        ensures { IsShownAs number (AircraftTextMeans text.now) self.new result }
    {
        match unseal(text) {
            Ok(envelope) => self.show_body(number, &envelope.address, &envelope.body),
            Err(fault) => show_refusal(&mut self.room, number, &TextRefusal::Envelope(fault)),
        }
    }

    /// Shows what the body of an envelope to this address says.
    fn show_body(&mut self, number: u32, address: &Address, body: &Body) -> LineShown
        requires { self.old ≡ [] }
        ensures { IsShownAs number (BodyMeans address.now body.now) self.new result }
    {
        match body {
            Body::Ads {
                registration,
                payload,
            } => self.show_downlink(number, address, registration, payload.as_slice()),
            Body::Afn { text } => show_contact(&mut self.room, number, address, text.as_slice()),
        }
    }

    /// Shows what a downlink says that carries this payload.
    fn show_downlink(
        &mut self,
        number: u32,
        address: &Address,
        registration: &Registration,
        payload: &[u8],
    ) -> LineShown
        requires empty { self.old ≡ [] }
        requires size { length payload.now ≤ 255 }
        ensures { IsShownAs number (DownlinkMeans address.now registration.now payload.now)
            self.new result }
    {
        match decode_items(payload, &mut self.items) {
            Ok(()) => {
                let items = self.items.as_slice();
                append_downlink(&mut self.room, number, address, registration, items);
                LineShown::Right
            }
            Err(fault) => show_refusal(&mut self.room, number, &TextRefusal::Payload(fault)),
        }
    }
}

/// Which way the text of a line goes, and the text behind the letter and the comma, or None where the line doesn't begin
/// with such a letter and a comma.
fn text_behind(line: &[u8]) -> Option<(Direction, &[u8])>
    ensures some { IfSome result (λ found. IsLineOf (letter_of found.0) line.now found.1.now) }
    ensures none { IfNone result
        ((direction : DirectionValue) → BeginsWith (letter_of direction) line.now → ⊥) }
{
    match line {
        [b'U', b',', text @ ..] => Some((Direction::Up, text)),
        [b'D', b',', text @ ..] => Some((Direction::Down, text)),
        _ => None,
    }
}

/// Shows what an AFN text from the aircraft says that has these characters.
fn show_contact(out: &mut Room, number: u32, address: &Address, characters: &[u8]) -> LineShown
    requires empty { out.old ≡ [] }
    requires size { length characters.now ≤ 255 }
    ensures { IsShownAs number (ContactMeans address.now characters.now) out.new result }
{
    match read_contact(characters) {
        Ok(contact) => {
            append_contact_text(out, number, address, &contact);
            LineShown::Right
        }
        Err(mismatch) => show_mismatch(out, number, mismatch.place),
    }
}

/// Shows that the characters of an AFN text have their first mismatch at this place of them.
pub(crate) fn show_mismatch(out: &mut Room, number: u32, place: u32) -> LineShown
    requires empty { out.old ≡ [] }
    requires within { place ≤ 255 }
    ensures text { out.new
        ≡ line_text number (refused (TextRefusal.Characters (characters_place + place))) }
    ensures way { result ≡ LineShown.Refused }
{
    show_refusal(
        out,
        number,
        &TextRefusal::Characters {
            place: CHARACTERS_PLACE + place,
        },
    )
}

/// Shows what is wrong with a line.
#[tactic(auto, unfolding(crate::specs::Texts::line_text))]
pub(crate) fn show_refusal(out: &mut Room, number: u32, refusal: &TextRefusal) -> LineShown
    requires { out.old ≡ [] }
    ensures text { out.new ≡ line_text number (refused refusal.now) }
    ensures way { result ≡ LineShown.Refused }
{
    append_refusal(out, number, refusal);
    LineShown::Refused
}

/// Appends what is shown for a downlink.
#[tactic(auto, unfolding(crate::specs::Texts::line_text))]
fn append_downlink(
    out: &mut Room,
    number: u32,
    address: &Address,
    registration: &Registration,
    items: &[Item],
)
    requires empty { out.old ≡ [] }
    requires few { length items.now ≤ 8 }
    ensures { out.new ≡ line_text number
        (downlink address.now registration.now (map item_data items.now)) }
{
    append_ads_head(out, number, Direction::Down, address, registration);
    append_items(out, items);
}

/// Appends what is shown for a contact.
#[tactic(auto, unfolding(crate::specs::Texts::line_text))]
fn append_contact_text(out: &mut Room, number: u32, address: &Address, said: &Contact)
    requires { out.old ≡ [] }
    ensures { out.new ≡ line_text number (contact address.now (contact_data said.now)) }
{
    append_afn_head(out, number, Direction::Down, address);
    append_contact(out, said);
}
