//! The number of a message.

ghost use Rattle.std.specs.Prelude.{◌≡◌};
ghost use Rattle.adsc_requests.specs.Contents.{number_of as number_in};
ghost use Rattle.centre_core.specs.Steps.{number_after as next_after};
ghost use Rattle.centre_core.specs.Tables.{with_number as numbered};

use adsc_requests::Message;

/// The number of a message, and 0 for a cancel of all, which has none.
pub(crate) fn number_of(message: &Message) -> u8
    ensures { result ≡ number_in message.now }
{
    match message {
        Message::CancelAll => 0,
        Message::Cancel { n }
        | Message::CancelEmergency { n }
        | Message::Periodic { n, .. }
        | Message::Event { n, .. }
        | Message::Emergency { n, .. } => *n,
    }
}

/// The message with this contract number, 0 to 255 (RTCA DO-258A / EUROCAE ED-100A); a cancel of all, which has none, is as it was.
pub fn with_number(n: u8, message: &Message) -> Message
    ensures { result ≡ numbered n message.now }
{
    match *message {
        Message::CancelAll => Message::CancelAll,
        Message::Cancel { .. } => Message::Cancel { n },
        Message::CancelEmergency { .. } => Message::CancelEmergency { n },
        Message::Periodic {
            interval,
            groups,
            intent,
            ..
        } => Message::Periodic {
            n,
            interval,
            groups,
            intent,
        },
        Message::Event { limits, .. } => Message::Event { n, limits },
        Message::Emergency {
            interval,
            groups,
            intent,
            ..
        } => Message::Emergency {
            n,
            interval,
            groups,
            intent,
        },
    }
}

/// The number of the request after the one with this number: 1 to 255, and then 1 again.
pub(crate) fn number_after(n: u8) -> u8
    ensures { result ≡ next_after n }
{
    n % 255 + 1
}
