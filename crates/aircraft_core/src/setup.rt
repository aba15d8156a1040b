//! What an aircraft is made with.
ghost use Rattle.std.specs.Prelude.{◌≡◌, ◌^◌, ◌<◌, ◌≤◌, length};
ghost use Rattle.acars_envelope.specs.Names.{IsFlight};
ghost use Rattle.afn_logon.specs.Contents.{contact_data, position_data};
ghost use Rattle.afn_logon.specs.Makings.{aircraft_contact};
ghost use Rattle.aircraft_core.specs.Setting.{address_of};

use crate::who::Who;
use acars_envelope::{Address, Registration};
use afn_logon::{Contact, Position};
use flight_samples::Sample;
use std::marker::Model;

/// What an aircraft is made with and keeps for good: who it is, the ground address of each of its
/// links, the link for which a connection is kept, if any, and its first sample.
///
/// Contracts see the record of these.
#[derive(Drop)]
pub(crate) struct Setup {
    pub(crate) who: Who,
    pub(crate) addresses: Vec<Address>,
    pub(crate) reserved: Option<u8>,
    pub(crate) first: Sample,
}

impl Model for Setup {
    ghost use Rattle.aircraft_core.specs.Setting.{Setting};
    ghost use Rattle.due_event.specs.RuleTerms.{rules_profile};

    ghost Value = { Setting };

    ghost view = { λ s. record {
      registration = s.who.registration;
      flight = s.who.flight;
      airframe = s.who.airframe;
      profile = rules_profile s.who.profile;
      addresses = s.addresses.items;
      kept = s.reserved;
      first = s.first;
    } };
}

impl Setup {
    /// The registration.
    pub(crate) fn registration(&self) -> Registration
        ensures { result ≡ self.now.registration }
    {
        self.who.registration
    }

    /// The flight's identification.
    pub(crate) fn flight(&self) -> &[u8]
        ensures value { result.now ≡ self.now.flight }
        ensures form { IsFlight self.now.flight }
    {
        self.who.flight.text()
    }

    /// The aircraft's address of 24 bits.
    pub(crate) fn airframe(&self) -> u32
        ensures value { result ≡ self.now.airframe }
        ensures size { result < 2 ^ 24 }
    {
        self.who.airframe
    }

    /// The contact by which the aircraft logs on (AFN), at a time in seconds and at a position.
    pub(crate) fn contact(&self, time: u32, position: Position, active: bool) -> Contact
        ensures { contact_data result ≡ aircraft_contact self.now.flight self.now.registration
            self.now.airframe time (position_data position) active }
    {
        Contact::of_aircraft(
            &self.who.flight,
            &self.who.registration,
            self.who.airframe,
            time,
            position,
            active,
        )
    }

    /// How many links there are.
    pub(crate) fn links(&self) -> usize
        ensures { result ≡ length self.now.addresses }
    {
        self.addresses.len()
    }

    /// The ground address of a link.
    pub(crate) fn address(&self, link: usize) -> Address
        requires { link < length self.now.addresses }
        ensures { result ≡ address_of self.now link }
    {
        self.addresses[link]
    }
}
