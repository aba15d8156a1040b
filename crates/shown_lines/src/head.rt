//! The first line that is shown for a right text.
ghost use Rattle.std.specs.Prelude.{◌≡◌, ◌+◌, ◌≤◌, ◌++◌, length};
ghost use Rattle.shown_lines.specs.Meanings.{letter_of};
ghost use Rattle.shown_lines.specs.Texts.{ads_head_text, afn_head_text, text_fields};
ghost use Rattle.shown_lines.specs.declared.room.TheConstants.{LINE_ROOM};

use crate::direction::Direction;
use crate::room::{HEAD_ROOM, Room};
use acars_envelope::{Address, Registration};

/// Appends the line of an ADS text: which way it goes, the ground facility and the aircraft.
pub(crate) fn append_ads_head(
    out: &mut Room,
    number: u32,
    direction: Direction,
    address: &Address,
    registration: &Registration,
)
    requires { length out.old + HEAD_ROOM ≤ LINE_ROOM }
    ensures text { out.new ≡
        out.old ++ ads_head_text number direction address.now registration.now }
    ensures size { length out.new ≤ length out.old + HEAD_ROOM }
{
    append_text_fields(out, number, direction, address);
    out.append(b",ADS,");
    out.append(registration.seven().as_slice());
    out.append(b"\n");
}

/// Appends the line of an AFN text: which way it goes and the ground facility.
pub(crate) fn append_afn_head(out: &mut Room, number: u32, direction: Direction, address: &Address)
    requires { length out.old + HEAD_ROOM ≤ LINE_ROOM }
    ensures text { out.new ≡ out.old ++ afn_head_text number direction address.now }
    ensures size { length out.new ≤ length out.old + HEAD_ROOM }
{
    append_text_fields(out, number, direction, address);
    out.append(b",AFN\n");
}

/// Appends what the line of a text begins with: which way it goes and the ground facility.
fn append_text_fields(out: &mut Room, number: u32, direction: Direction, address: &Address)
    requires { length out.old + 25 ≤ LINE_ROOM }
    ensures text { out.new ≡ out.old ++ text_fields number direction address.now }
    ensures size { length out.new ≤ length out.old + 25 }
{
    out.append(b"line");
    out.append_number(number);
    out.append(b",");
    append_letter(out, direction);
    out.append(b",");
    out.append(address.seven().as_slice());
}

/// Appends the letter that says which way a text goes.
fn append_letter(out: &mut Room, direction: Direction)
    requires { length out.old + 1 ≤ LINE_ROOM }
    ensures text { out.new ≡ out.old ++ letter_of direction }
    ensures size { length out.new ≡ length out.old + 1 }
{
    match direction {
        Direction::Up => out.append(b"U"),
        Direction::Down => out.append(b"D"),
    }
}
