//! What a centre sent, as it is brought to the aircraft.
ghost use Rattle.std.specs.Prelude.{◌≡◌, ◌<◌, [], ◌∷◌, length};
ghost use Rattle.aircraft_core.specs.Entries.{IsTakenBy};
ghost use Rattle.aircraft_core.specs.Setting.{Setting};
ghost use Rattle.run_rules.specs.Happenings.{Carried};
ghost use Rattle.run_rules.specs.Lines.{entry_with};
ghost use Rattle.adsc_run.specs.Stations.{text_of};

use adsc_requests::{Message, Uplink, encode_uplink};
use aircraft_core::Entry;
use arrayvec::ArrayVec;

/// What a centre sent: a message, or the answer that accepts a contact.
#[derive(Clone, Copy, Debug)]
pub(crate) enum SentText {
    /// This message, with its number.
    Message(Message),
    /// The answer that accepts a contact.
    Answer,
}

/// The entry that it makes when it is brought to the aircraft on this link, at the line of this number.
pub(crate) fn entry_of(line: u32, link: u8, sent: SentText) -> Entry
    ensures entry { (carried : Carried) → sent ≡ text_of carried → result ≡ entry_with line link carried }
    ensures taken { (setting : Setting) → link < length setting.addresses → IsTakenBy setting result }
{
    match sent {
        SentText::Message(message) => Entry::Uplink {
            line,
            link,
            bytes: encode_uplink(&only(message)),
        },
        SentText::Answer => Entry::Answer {
            line,
            link,
            code: 0,
        },
    }
}

/// The uplink of one message.
fn only(message: Message) -> Uplink
    ensures { result.messages.items ≡ message ∷ [] }
{
    let mut messages = ArrayVec::new();
    messages.push(message);
    Uplink { messages }
}
