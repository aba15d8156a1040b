//! The contact that an aircraft sends, and the answer that a centre gives.
ghost use Rattle.std.specs.Prelude.{◌≡◌, ◌^◌, ◌<◌, ◌≤◌, IsTrue, length, map, neg_ℤ, pos, unsigned_abs, ◌≤ℤ◌};
ghost use Rattle.arrayvec.specs.ArrayVec.{array_vec_len};
ghost use Rattle.afn_logon.specs.Applications.{are_up_to};
ghost use Rattle.afn_logon.specs.Contents.{answer_data, application_data, contact_data, position_data};
ghost use Rattle.afn_logon.specs.Makings.{accepted_application, aircraft_contact, answer_to, position_at, tenths_of_angle};

use crate::answer::Answer;
use crate::application::Application;
use crate::contact::Contact;
use crate::position::Position;
use acars_envelope::{Flight, Registration};
use arrayvec::ArrayVec;

impl Position {
    /// The position at a latitude and a longitude in 180/2^20 degree, south and west below 0: at
    /// most 90 degrees and at most 180. The tenths of a minute are rounded down, the sign left
    /// aside.
    pub fn at(lat: i32, lon: i32) -> Position
        requires lat { (neg_ℤ (pos 524288) ≤ℤ lat) × (lat ≤ℤ pos 524288) }
        requires lon { (neg_ℤ (pos 1048576) ≤ℤ lon) × (lon ≤ℤ pos 1048576) }
        ensures { position_data result ≡ position_at lat lon }
    {
        Position {
            south: lat < 0,
            lat: tenths_of_angle(lat),
            west: lon < 0,
            lon: tenths_of_angle(lon),
        }
    }
}

/// An angle in 180/2^20 degree as whole tenths of a minute, its sign left aside.
fn tenths_of_angle(angle: i32) -> u32
    requires { unsigned_abs angle ≤ 1048576 }
    ensures { result ≡ tenths_of_angle angle }
{
    (angle.unsigned_abs() as u64 * 108_000 / 1_048_576) as u32
}

impl Contact {
    /// The contact of an aircraft at a time in seconds, of which it tells the time of day. It
    /// offers the one application ADS with number 1.
    pub fn of_aircraft(
        flight: &Flight,
        registration: &Registration,
        airframe: u32,
        time: u32,
        position: Position,
        active: bool,
    ) -> Contact
        requires { airframe < 2 ^ 24 }
        ensures { contact_data result ≡ aircraft_contact flight.now registration.now airframe time
            (position_data position) active }
    {
        let mut applications = ArrayVec::new();
        applications.push(Application {
            name: *b"ADS",
            number: 1,
        });
        Contact {
            flight: copy_of(flight),
            registration: *registration,
            airframe: Some(airframe),
            clock: time % 86_400,
            position,
            active,
            applications,
        }
    }

    /// The answer that accepts the contact: its flight and registration, code 0, and each of its
    /// applications with number 0.
    pub fn accepted(&self) -> Answer
        ensures { answer_data result ≡ answer_to (contact_data self.now) }
    {
        Answer {
            flight: copy_of(&self.flight),
            registration: self.registration,
            code: 0,
            applications: accepted(self.applications.as_slice()),
        }
    }
}

/// The same applications with number 0.
fn accepted(offered: &[Application]) -> ArrayVec<Application, 4>
    requires { length offered.now ≤ 4 }
    ensures applications { map application_data result.items
        ≡ map accepted_application (map application_data offered.now) }
    ensures len { array_vec_len result ≡ length offered.now }
    ensures numbers { IsTrue (are_up_to 9 result.items) }
{
    let mut applications = ArrayVec::new();
    for application in offered {
        applications.push(Application {
            name: application.name,
            number: 0,
        });
    }
    applications
}

/// The same flight identifier.
fn copy_of(flight: &Flight) -> Flight
    ensures { result ≡ flight.now }
{
    Flight::new(flight.text()).unwrap()
}
