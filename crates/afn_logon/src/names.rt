//! The names in a text, and the airframe's address.
ghost use Rattle.std.specs.Prelude.{◌≡◌, ◌^◌, ◌<◌, IfOk};
ghost use Rattle.std.specs.Option.{ForSome};
ghost use Rattle.afn_logon.specs.Reading.{Gives, airframe_reading, flight_reading, registration_reading};

use crate::characters::Class;
use crate::numbers::{AIRFRAME, read_number};
use crate::unread::{Mismatch, Unread};
use acars_envelope::{Flight, Registration};

/// Reads a flight identifier and the comma behind it.
#[tactic(auto, unfolding(crate::specs::Reading::flight_reading))]
pub(crate) fn read_flight(unread: &mut Unread) -> Result<Flight, Mismatch>
    ensures { Gives (λ flight. flight) result unread.new (flight_reading unread.old) }
{
    let count = unread.leading(8, Class::Name);
    if count == 0 {
        return Err(unread.mismatch());
    }
    let name = unread.taken(count);
    unread.pass(b",")?;
    Ok(Flight::new(name).unwrap())
}

/// Reads a registration.
#[tactic(auto, unfolding(crate::specs::Reading::registration_reading))]
pub(crate) fn read_registration(unread: &mut Unread) -> Result<Registration, Mismatch>
    ensures { Gives (λ registration. registration) result unread.new
        (registration_reading unread.old) }
{
    let dots = unread.leading(6, Class::Dot);
    unread.taken(dots);
    let mark = unread.several(7 - dots, Class::Mark)?;
    Ok(Registration::new(mark).unwrap())
}

/// Reads an airframe's address or nothing, and the comma behind it.
#[tactic(auto, unfolding(crate::specs::Reading::airframe_reading))]
pub(crate) fn read_airframe(unread: &mut Unread) -> Result<Option<u32>, Mismatch>
    ensures gives { Gives (λ airframe. airframe) result unread.new (airframe_reading unread.old) }
    ensures fits { IfOk result (λ airframe. ForSome airframe (λ address. address < 2 ^ 24)) }
{
    if unread.begins_with(b',') {
        unread.pass(b",")?;
        return Ok(None);
    }
    let address = read_number(unread, &AIRFRAME, 0xff_ffff)?;
    unread.pass(b",")?;
    Ok(Some(address))
}
