//! What the fields behind a letter say, or which is the first wrong one.

ghost use Rattle.std.specs.Prelude.{◌≡◌, ◌+◌, ◌<◌, length, codes, if◌then◌else◌, IfOk, IfErr, IfSome, IfNone};
ghost use Rattle.net_script.specs.Counts.{HasCount};
ghost use Rattle.net_script.specs.Faults.{IsWrongField};
ghost use Rattle.net_script.specs.Fields.{field_at, fields_of};
ghost use Rattle.net_script.specs.Forms.{IsCancelText, IsNumberOf, IsRequestText, IsRight};
ghost use Rattle.net_script.specs.Lines.{IsAddressed, SaysProfile, SaysWho};

use crate::fields::field_at;
use crate::letter::Letter;
use crate::limits::{AIRCRAFT_FIELDS, MAX_PLACE, MAX_TIME};
use crate::line::Cancel;
use crate::names::{address_of, airframe_of, flight_of, registration_of};
use crate::refusal::{LineRefusal, wrong_field};
use crate::request::request_of;
use crate::values::{cancel_of, place_of, profile_of, switch_of, time_of};
use acars_envelope::Address;
use adsc_requests::Message;
use aircraft_core::Who;
use due_event::Profile;

/// Who the aircraft of an `A` line with so many commas is.
pub(crate) fn read_aircraft(line: &[u8], commas: usize) -> Result<Who, LineRefusal>
    requires counted { length (fields_of line.now) ≡ commas + 1 }
    requires count { HasCount Letter.Aircraft (commas + 1) }
    ensures ok { IfOk result (SaysWho (fields_of line.now)) }
    ensures refused { IfErr result (IsWrongField (IsRight Letter.Aircraft) (fields_of line.now)) }
{
    let Some(registration) = registration_of(field_at(line, 1)) else {
        return Err(wrong_field(1));
    };
    let Some(flight) = flight_of(field_at(line, 2)) else {
        return Err(wrong_field(2));
    };
    let Some(airframe) = airframe_of(field_at(line, 3)) else {
        return Err(wrong_field(3));
    };
    let Some(profile) = profile_said(line, commas) else {
        return Err(wrong_field(4));
    };
    Ok(Who {
        registration,
        flight,
        airframe,
        profile,
    })
}

/// The profile that an `A` line with so many commas says, which is profile 1 where the line has no field for it.
fn profile_said(line: &[u8], commas: usize) -> Option<Profile>
    requires counted { length (fields_of line.now) ≡ commas + 1 }
    requires count { HasCount Letter.Aircraft (commas + 1) }
    ensures some { IfSome result (SaysProfile (fields_of line.now)) }
    ensures wrong { IfNone result (¬ IsRight Letter.Aircraft (fields_of line.now) 4) }
    ensures inside { IfNone result (4 < length (fields_of line.now)) }
{
    if commas + 1 == AIRCRAFT_FIELDS {
        Some(Profile::One)
    } else {
        profile_of(field_at(line, 4))
    }
}

/// The time of a `T` line.
pub(crate) fn read_time(line: &[u8]) -> Result<u32, LineRefusal>
    requires { length (fields_of line.now) ≡ 2 }
    ensures ok { IfOk result (λ time.
        IsNumberOf 0 MAX_TIME time (field_at (fields_of line.now) 1)) }
    ensures refused { IfErr result (IsWrongField (IsRight Letter.Time) (fields_of line.now)) }
{
    let Some(time) = time_of(field_at(line, 1)) else {
        return Err(wrong_field(1));
    };
    Ok(time)
}

/// Whether an `E` line switches on.
pub(crate) fn read_emergency(line: &[u8]) -> Result<bool, LineRefusal>
    requires { length (fields_of line.now) ≡ 2 }
    ensures ok { IfOk result (λ on.
        field_at (fields_of line.now) 1 ≡ (if on then codes "1" else codes "0")) }
    ensures refused { IfErr result (IsWrongField (IsRight Letter.Emergency) (fields_of line.now)) }
{
    let Some(on) = switch_of(field_at(line, 1)) else {
        return Err(wrong_field(1));
    };
    Ok(on)
}

/// The address of an `L` line.
pub(crate) fn read_logon(line: &[u8]) -> Result<Address, LineRefusal>
    requires { length (fields_of line.now) ≡ 2 }
    ensures ok { IfOk result (IsAddressed (fields_of line.now)) }
    ensures refused { IfErr result (IsWrongField (IsRight Letter.Logon) (fields_of line.now)) }
{
    let Some(address) = address_of(field_at(line, 1)) else {
        return Err(wrong_field(1));
    };
    Ok(address)
}

/// The address and the request of a `C` line.
pub(crate) fn read_request(line: &[u8]) -> Result<(Address, Message), LineRefusal>
    requires { length (fields_of line.now) ≡ 3 }
    ensures address { IfOk result (λ said. IsAddressed (fields_of line.now) said.0) }
    ensures asked { IfOk result (λ said. IsRequestText said.1 (field_at (fields_of line.now) 2)) }
    ensures refused { IfErr result (IsWrongField (IsRight Letter.Request) (fields_of line.now)) }
{
    let Some(address) = address_of(field_at(line, 1)) else {
        return Err(wrong_field(1));
    };
    let Some(asked) = request_of(field_at(line, 2)) else {
        return Err(wrong_field(2));
    };
    Ok((address, asked))
}

/// The address and the cancel of a `K` line.
pub(crate) fn read_cancel(line: &[u8]) -> Result<(Address, Cancel), LineRefusal>
    requires { length (fields_of line.now) ≡ 3 }
    ensures address { IfOk result (λ said. IsAddressed (fields_of line.now) said.0) }
    ensures cancel { IfOk result (λ said. IsCancelText said.1 (field_at (fields_of line.now) 2)) }
    ensures refused { IfErr result (IsWrongField (IsRight Letter.Cancel) (fields_of line.now)) }
{
    let Some(address) = address_of(field_at(line, 1)) else {
        return Err(wrong_field(1));
    };
    let Some(cancel) = cancel_of(field_at(line, 2)) else {
        return Err(wrong_field(2));
    };
    Ok((address, cancel))
}

/// The address and the place of a `B` or an `R` line.
pub(crate) fn read_place(line: &[u8]) -> Result<(Address, u32), LineRefusal>
    requires { length (fields_of line.now) ≡ 3 }
    ensures address { IfOk result (λ said. IsAddressed (fields_of line.now) said.0) }
    ensures place { IfOk result (λ said.
        IsNumberOf 1 MAX_PLACE said.1 (field_at (fields_of line.now) 2)) }
    ensures refused { IfErr result (IsWrongField (IsRight Letter.Bring) (fields_of line.now)) }
{
    let Some(address) = address_of(field_at(line, 1)) else {
        return Err(wrong_field(1));
    };
    let Some(place) = place_of(field_at(line, 2)) else {
        return Err(wrong_field(2));
    };
    Ok((address, place))
}
