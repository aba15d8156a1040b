//! The texts of messages.

ghost use Rattle.std.specs.Prelude.{◌≡◌, [], ◌∷◌};
ghost use Rattle.acars_envelope.specs.Texts.{sealed_text};
ghost use Rattle.acars_envelope.specs.declared.texts.Body.TheVariants as body;
ghost use Rattle.centre_core.specs.Sending.{message_payload};

use acars_envelope::{Address, Body, Envelope, Registration, Text, seal};
use adsc_requests::{Message, Uplink, encode_uplink};
use arrayvec::ArrayVec;

/// The text that carries one message from this address to the aircraft of this registration (ARINC
/// 622).
pub(crate) fn text_of(address: Address, registration: Registration, message: Message) -> Text
    ensures { result.items
        ≡ sealed_text address (body.Ads registration (record { items = message_payload message })) }
{
    let uplink = only(message);
    let envelope = Envelope {
        address,
        body: Body::Ads {
            registration,
            payload: encode_uplink(&uplink),
        },
    };
    seal(&envelope)
}

/// The uplink of one message.
fn only(message: Message) -> Uplink
    ensures { result.messages.items ≡ message ∷ [] }
{
    let mut messages = ArrayVec::new();
    messages.push(message);
    Uplink { messages }
}
