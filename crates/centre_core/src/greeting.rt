//! The text that answers a contact.

ghost use Rattle.std.specs.Prelude.{◌≡◌};
ghost use Rattle.acars_envelope.specs.Texts.{sealed_text};
ghost use Rattle.acars_envelope.specs.declared.texts.Body.TheVariants as body;
ghost use Rattle.afn_logon.specs.Contents.{contact_data};
ghost use Rattle.afn_logon.specs.Makings.{answer_to};
ghost use Rattle.afn_logon.specs.Texts.{answer_text};

use acars_envelope::{Address, Body, Envelope, Text, seal};
use afn_logon::{Contact, write_answer};

/// The text from this address that answers a contact: it accepts it with code 0, and each
/// application that it names with 0.
pub(crate) fn greeting_of(address: Address, contact: &Contact) -> Text
    ensures { result.items ≡ sealed_text address
        (body.Afn (record { items = answer_text (answer_to (contact_data contact.now)) })) }
{
    let envelope = Envelope {
        address,
        body: Body::Afn {
            text: write_answer(&contact.accepted()),
        },
    };
    seal(&envelope)
}
