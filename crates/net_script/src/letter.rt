//! The letter that begins a line.

ghost use Rattle.std.specs.Prelude.{◌≡◌, ◌≢◌, IsTrue, ◌↔◌, IfSome, IfNone};
ghost use Rattle.net_script.specs.Letters.{HasLetter, letter_code};
ghost use Rattle.net_script.specs.declared.letter.Letter.{Letter as LetterValue};

use crate::fields::field_at;

/// What a line is about, as its first field, a letter, says. The letters are this project's profile.
#[derive(Clone, Copy, Debug, PartialEq, Eq)]
pub enum Letter {
    /// `A`: who the aircraft is.
    Aircraft,
    /// `G`: the ground addresses of its links.
    Ground,
    /// `S`: a flight sample.
    Sample,
    /// `T`: the time.
    Time,
    /// `E`: the crew's emergency act.
    Emergency,
    /// `L`: the crew logs on.
    Logon,
    /// `U`: a text from the ground.
    Uplink,
    /// `C`: a centre asks for a contract.
    Request,
    /// `K`: a centre cancels.
    Cancel,
    /// `B`: a centre's message is brought to the aircraft.
    Bring,
    /// `R`: a centre receives a downlink.
    Receive,
}

/// Whether the line has this letter: whether its field 0, which is what stands before the first comma or else all of the line, is
/// the letter alone. What else stands in the line isn't judged. This project's profile.
pub fn has_letter(line: &[u8], letter: Letter) -> bool
    ensures { IsTrue result ↔ HasLetter line.now letter }
{
    match found_letter(line) {
        Some(found) => found == letter,
        None => false,
    }
}

/// The letter that is the line's field 0, or None where that field is none.
pub(crate) fn found_letter(line: &[u8]) -> Option<Letter>
    ensures some { IfSome result (HasLetter line.now) }
    ensures none { IfNone result ((letter : LetterValue) → ¬ HasLetter line.now letter) }
{
    let [byte] = field_at(line, 0) else {
        return None;
    };
    letter_from(*byte)
}

/// The letter that the byte is.
fn letter_from(byte: u8) -> Option<Letter>
    ensures some { IfSome result (λ letter. byte ≡ letter_code letter) }
    ensures none { IfNone result ((letter : LetterValue) → byte ≢ letter_code letter) }
{
    match byte {
        b'A' => Some(Letter::Aircraft),
        b'G' => Some(Letter::Ground),
        b'S' => Some(Letter::Sample),
        b'T' => Some(Letter::Time),
        b'E' => Some(Letter::Emergency),
        b'L' => Some(Letter::Logon),
        b'U' => Some(Letter::Uplink),
        b'C' => Some(Letter::Request),
        b'K' => Some(Letter::Cancel),
        b'B' => Some(Letter::Bring),
        b'R' => Some(Letter::Receive),
        _ => None,
    }
}
