//! What a line of a ground log says.

use acars_envelope::Address;
use adsc_requests::Message;
use aircraft_core::Who;
use net_script::{Addresses, Cancel};

/// The value of a line of a ground log. Ground logs are this project's profile.
#[derive(Debug, Drop, PartialEq, Eq)]
pub enum GroundLine {
    /// Who the aircraft is.
    A(Who),
    /// The ground addresses, 1 to 64, all different. Each has a centre.
    G(Addresses),
    /// The time in seconds, from 0 to 999999999.
    T(u32),
    /// The centre at the address asks for a contract: a periodic, event or emergency request with number 0.
    C(Address, Message),
    /// The centre at the address cancels.
    K(Address, Cancel),
    /// The centre at the address hears a text.
    H {
        /// The address.
        address: Address,
        /// The place of the text's first byte in the line.
        from: usize,
    },
    /// The centres start again.
    Z,
}
