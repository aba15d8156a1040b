//! The proved codecs of ADS-C for programs in other languages: a static library of calls on plain structs and byte
//! slices, after RTCA DO-258A / EUROCAE ED-100A and ARINC 622 in this project's profile.
//!
//! Each call wraps one call of a lower crate, and has its exact contract in flat structs: a flat struct has only
//! integers, arrays of them and further flat structs, as C has them. A call takes no memory, keeps no state and may be
//! made from any thread. It answers a status: 0 where it is done, 1 where what was given is refused, 2 where a struct
//! that was given spells no value. What the C side must keep stands in `include/adsc.h`.
//!
//! No crate stands above this one. Begin with `structs`, then specs/Uplinks.antt, which says what a flat struct spells,
//! one relation for both directions; `uplink` has the calls on uplinks, `flat` makes flat structs of values, and
//! `value` values of flat structs.
#![tactic(auto)]

mod envelope;
mod flat;
mod same;
mod status;
mod structs;
mod uplink;
mod value;

pub use envelope::adsc_unseal;
pub use structs::{
    FlatEnvelope, FlatEnvelopeRefusal, FlatIntent, FlatLimits, FlatMessage, FlatModuli, FlatOctet,
    FlatPayload, FlatRange, FlatRate, FlatReporting, FlatUplink, FlatUplinkRefusal,
};
pub use uplink::{
    adsc_check_code, adsc_decode_uplink, adsc_encode_uplink, adsc_interval_seconds, adsc_kind_of,
    adsc_same_message,
};

#[cfg(test)]
mod tests;
