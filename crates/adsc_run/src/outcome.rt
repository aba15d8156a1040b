//! The outcome of a run.

use acars_envelope::Address;
use aircraft_core::Craft;
use centre_core::Centre;
use run_rules::{End, RefusedLine};

/// A centre of a run, and its address.
#[derive(Debug, Drop)]
pub struct CentreRow {
    /// The address, one of the aircraft's links.
    pub address: Address,
    /// The centre, with its rows.
    pub centre: Centre,
}

/// What the run of a script leaves. This project's profile.
#[derive(Drop)]
pub struct Outcome {
    /// The aircraft, with its journal and its downlinks; None where the run ended within the first three lines.
    pub craft: Option<Craft>,
    /// The refused texts, by rising line number.
    pub refused: Vec<RefusedLine>,
    /// The centres, in the order of the aircraft's links: each address that asked, cancelled, sent or heard.
    pub centres: Vec<CentreRow>,
    /// How the run ended.
    pub end: End,
}
