//! What a line of a script says.

use crate::addresses::Addresses;
use acars_envelope::Address;
use adsc_requests::{Kind, Message};
use aircraft_core::Who;
use flight_samples::Sample;

/// What a centre cancels (RTCA DO-258A / EUROCAE ED-100A).
#[derive(Clone, Copy, Debug, PartialEq, Eq)]
pub enum Cancel {
    /// The contract of this kind: periodic, event or emergency. No line cancels a demand.
    Of(Kind),
    /// The emergency mode.
    EmergencyMode,
    /// All contracts.
    All,
}

/// The value of a line of a script. The script language is this project's profile.
#[derive(Debug, Drop, PartialEq, Eq)]
pub enum ScriptLine {
    /// Who the aircraft is.
    A(Who),
    /// The ground addresses of its links.
    G {
        /// The addresses, 1 to 64, all different.
        addresses: Addresses,
        /// The place in them, counted from 0, of the one for which a connection is kept: it has the line's star.
        reserved: Option<u8>,
    },
    /// A flight sample.
    S(Sample),
    /// The time, from 0 to 999999999.
    T(u32),
    /// The crew's emergency act: on or off.
    E(bool),
    /// The crew logs on to the address.
    L(Address),
    /// A text from the ground.
    U {
        /// The place of the text's first byte in the line.
        from: usize,
    },
    /// The centre at the address asks for a contract: a periodic, event or emergency request with number 0.
    C(Address, Message),
    /// The centre at the address cancels.
    K(Address, Cancel),
    /// The message of the centre at the address with this place, counted from 1, is brought to the aircraft.
    B(Address, u32),
    /// The downlink of the address's link with this place, counted from 1, is brought to its centre.
    R(Address, u32),
}
