//! An envelope and its text as values.
ghost use Rattle.std.specs.Prelude.{IsTrue};
ghost use Rattle.acars_envelope.specs.Bodies.{is_well_formed};

use crate::names::{Address, Registration};
use arrayvec::ArrayVec;

/// What an envelope carries, by the application that it is for (RTCA DO-258A / EUROCAE ED-100A).
#[derive(Debug, Drop, PartialEq, Eq)]
pub enum Body {
    /// Automatic dependent surveillance: the aircraft's registration and a payload of 1 to 255 octets.
    Ads {
        registration: Registration,
        payload: ArrayVec<u8, 255>,
    },
    /// Facilities notification: 1 to 255 characters from 20 to 7E hexadecimal.
    Afn {
        text: ArrayVec<u8, 255>,
    },
}

/// An envelope: the ground facility that it goes to or comes from, and what it carries. Its body has
/// from 1 to 255 octets or characters, and an AFN text only characters from 20 to 7E hexadecimal.
#[derive(Debug, Drop)]
pub struct Envelope {
    pub address: Address,
    pub body: Body,
    ghost well_formed: { IsTrue (is_well_formed body) },
}

/// The text of an envelope: at most 533 characters.
pub type Text = ArrayVec<u8, 533>;
