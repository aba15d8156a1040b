//! The request that a centre asks, as a payload in hexadecimal.

ghost use Rattle.std.specs.Prelude.{◌≡◌, ◌≢◌, IsTrue, ◌↔◌, [], ◌∷◌, IfSome, IfNone};
ghost use Rattle.net_script.specs.Forms.{AsksWithoutNumber, HasForm, IsRequestText, a_request};
ghost use Rattle.adsc_requests.specs.declared.message.Message.{Message as MessageValue};

use acars_envelope::octets_of_digits;
use adsc_requests::{Message, Uplink, decode_uplink};

/// The one message whose payload the field spells, where it asks for a contract and has number 0.
pub(crate) fn request_of(field: &[u8]) -> Option<Message>
    ensures some { IfSome result (λ asked. IsRequestText asked field.now) }
    ensures none { IfNone result (¬ HasForm a_request field.now) }
{
    let octets = octets_of_digits(field)?;
    let Ok(uplink) = decode_uplink(octets.as_slice()) else {
        return None;
    };
    let message = sole_message(&uplink)?;
    if !asks_without_number(&message) {
        return None;
    }
    Some(message)
}

/// The message of an uplink that has one.
fn sole_message(uplink: &Uplink) -> Option<Message>
    ensures some { IfSome result (λ message. uplink.now.messages.items ≡ message ∷ []) }
    ensures none { IfNone result ((message : MessageValue)
        → uplink.now.messages.items ≢ message ∷ []) }
{
    match uplink.messages.as_slice() {
        [message] => Some(*message),
        _ => None,
    }
}

/// Whether the message asks for a contract and has number 0.
fn asks_without_number(message: &Message) -> bool
    ensures { IsTrue result ↔ AsksWithoutNumber message.now }
{
    match message {
        Message::CancelAll | Message::Cancel { .. } | Message::CancelEmergency { .. } => false,
        Message::Periodic { n, .. } | Message::Event { n, .. } | Message::Emergency { n, .. } => {
            *n == 0
        }
    }
}
