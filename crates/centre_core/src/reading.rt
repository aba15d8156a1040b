//! Reading a text.

ghost use Rattle.std.specs.Prelude.{◌≡◌, ◌≤◌, length};
ghost use Rattle.afn_logon.specs.Contents.{contact_data};
ghost use Rattle.centre_core.specs.Hearing.{Says, SaysInBody, SaysInCharacters, SaysInContact, SaysInEnvelope, SaysInPayload, contact_registration_place};
ghost use Rattle.centre_core.specs.Heard.{hearing_of};

use crate::heard::Ignored;
use acars_envelope::{Address, Body, Envelope, Flight, Registration, unseal};
use adsc_downlink::{Items, decode_downlink};
use afn_logon::{Contact, read_contact};

/// The place in an ADS text where the registration begins, counted from 0.
const REGISTRATION_PLACE: u32 = 12;

/// The place in the text of a contact where the flight begins, counted from 0.
const FLIGHT_PLACE: u32 = 16;

/// What a text says to a centre.
#[derive(Drop)]
pub enum Reading {
    /// Nothing, for this reason.
    Ignored(Ignored),
    /// A contact.
    Contact(Contact),
    /// A downlink's items.
    Downlink(Items),
}

/// What a text says to the centre at this address, whose aircraft has this registration.
pub(crate) fn read_text(address: Address, registration: Registration, text: &[u8]) -> Reading
    ensures { Says address registration text.now (hearing_of result) }
{
    match unseal(text) {
        Ok(envelope) => read_envelope(address, registration, envelope),
        Err(refusal) => Reading::Ignored(Ignored::Envelope(refusal)),
    }
}

/// What an envelope says to a centre.
fn read_envelope(address: Address, registration: Registration, envelope: Envelope) -> Reading
    ensures { SaysInEnvelope address registration envelope (hearing_of result) }
{
    let Envelope {
        address: other,
        body,
    } = envelope;
    if other != address {
        return Reading::Ignored(Ignored::OtherAddress);
    }
    read_body(registration, body)
}

/// What the body of an envelope to a centre says.
fn read_body(registration: Registration, body: Body) -> Reading
    ensures { SaysInBody registration body (hearing_of result) }
{
    match body {
        Body::Ads {
            registration: other,
            payload,
        } => {
            if other != registration {
                return Reading::Ignored(Ignored::OtherRegistration {
                    place: REGISTRATION_PLACE,
                });
            }
            read_payload(payload.as_slice())
        }
        Body::Afn { text } => read_characters(registration, text.as_slice()),
    }
}

/// What the payload of a downlink says.
fn read_payload(payload: &[u8]) -> Reading
    requires { length payload.now ≤ 255 }
    ensures { SaysInPayload payload.now (hearing_of result) }
{
    match decode_downlink(payload) {
        Ok(items) => Reading::Downlink(items),
        Err(refusal) => Reading::Ignored(Ignored::Bits(refusal)),
    }
}

/// What the characters of an AFN text say.
fn read_characters(registration: Registration, characters: &[u8]) -> Reading
    ensures { SaysInCharacters registration characters.now (hearing_of result) }
{
    match read_contact(characters) {
        Ok(contact) => read_registration(registration, contact),
        Err(refusal) => Reading::Ignored(Ignored::Afn(refusal)),
    }
}

/// What a contact says to the centre of the aircraft with this registration.
fn read_registration(registration: Registration, contact: Contact) -> Reading
    ensures { SaysInContact registration (contact_data contact) (hearing_of result) }
{
    if contact.registration != registration {
        return Reading::Ignored(Ignored::OtherRegistration {
            place: registration_place(&contact.flight),
        });
    }
    Reading::Contact(contact)
}

/// The place in the text of a contact where the registration begins, counted from 0.
fn registration_place(flight: &Flight) -> u32
    ensures { result ≡ contact_registration_place flight.now }
{
    FLIGHT_PLACE + flight.text().len() as u32 + 1
}
