//! The lines of a contact and of an answer.
ghost use Rattle.std.specs.Prelude.{◌≡◌, ◌+◌, ◌*◌, ◌<◌, ◌≤◌, ◌++◌, IsTrue, length, map, codes, flat_map};
ghost use Rattle.afn_logon.specs.Applications.{are_up_to};
ghost use Rattle.afn_logon.specs.Contents.{answer_data, application_data, contact_data, position_data};
ghost use Rattle.afn_logon.specs.Texts.{airframe_text, clock_text, either_text, minutes_text, one_digit, position_text, three_digits, two_digits};
ghost use Rattle.shown_lines.specs.LogonTexts.{answer_line, answer_lines, answered_line, contact_line, contact_lines, name_fields, offered_line, place_fields, time_fields};
ghost use Rattle.shown_lines.specs.declared.room.TheConstants.{LINE_ROOM};

use crate::room::Room;
use acars_envelope::{Flight, Registration, write_digits};
use afn_logon::{Answer, Application, Contact, Position};

/// Appends the lines of a contact.
pub(crate) fn append_contact(out: &mut Room, contact: &Contact)
    requires { length out.old + 200 ≤ LINE_ROOM }
    ensures { out.new ≡ out.old ++ contact_lines (contact_data contact.now) }
{
    append_contact_line(out, contact);
    append_offered(out, contact.applications.as_slice());
}

/// Appends the lines of an answer.
pub(crate) fn append_answer(out: &mut Room, answer: &Answer)
    requires { length out.old + 200 ≤ LINE_ROOM }
    ensures { out.new ≡ out.old ++ answer_lines (answer_data answer.now) }
{
    append_answer_line(out, answer);
    append_answered(out, answer.applications.as_slice());
}

/// Appends the line of a contact itself.
#[tactic(auto, unfolding(crate::specs::LogonTexts::contact_line))]
fn append_contact_line(out: &mut Room, contact: &Contact)
    requires { length out.old + 80 ≤ LINE_ROOM }
    ensures text { out.new ≡ out.old ++ contact_line (contact_data contact.now) }
    ensures size { length out.new ≤ length out.old + 80 }
{
    out.append(b"contact");
    append_names(out, &contact.flight, &contact.registration);
    append_time_fields(out, contact.airframe, contact.clock);
    append_place_fields(out, &contact.position, contact.active);
    out.append(b"\n");
}

/// Appends an airframe's address and a time of day, a comma before each.
#[tactic(auto, unfolding(crate::specs::LogonTexts::time_fields))]
fn append_time_fields(out: &mut Room, airframe: Option<u32>, clock: u32)
    requires room { length out.old + 14 ≤ LINE_ROOM }
    requires within { clock < 86400 }
    ensures text { out.new ≡ out.old ++ time_fields airframe clock }
    ensures size { length out.new ≤ length out.old + 14 }
{
    out.append(b",");
    append_airframe(out, airframe);
    out.append(b",");
    append_clock(out, clock);
}

/// Appends a position, and whether contracts are active, a comma before each.
#[tactic(auto, unfolding(crate::specs::LogonTexts::place_fields))]
fn append_place_fields(out: &mut Room, position: &Position, active: bool)
    requires { length out.old + 16 ≤ LINE_ROOM }
    ensures text { out.new ≡ out.old ++ place_fields (position_data position.now) active }
    ensures size { length out.new ≤ length out.old + 16 }
{
    out.append(b",");
    append_position(out, position);
    out.append(b",");
    append_either(out, b'0', b'1', active);
}

/// Appends the line of an answer itself.
#[tactic(auto, unfolding(crate::specs::LogonTexts::answer_line))]
fn append_answer_line(out: &mut Room, answer: &Answer)
    requires { length out.old + 80 ≤ LINE_ROOM }
    ensures text { out.new ≡ out.old ++ answer_line (answer_data answer.now) }
    ensures size { length out.new ≤ length out.old + 80 }
{
    out.append(b"answer");
    append_names(out, &answer.flight, &answer.registration);
    out.append(b",");
    append_digit(out, answer.code);
    out.append(b"\n");
}

/// Appends a flight identifier and a registration, a comma before each.
fn append_names(out: &mut Room, flight: &Flight, registration: &Registration)
    requires { length out.old + 17 ≤ LINE_ROOM }
    ensures text { out.new ≡ out.old ++ name_fields flight.now registration.now }
    ensures size { length out.new ≤ length out.old + 17 }
{
    out.append(b",");
    out.append(flight.text());
    out.append(b",");
    out.append(registration.seven().as_slice());
}

/// Appends an airframe's address, and nothing where there is none.
fn append_airframe(out: &mut Room, airframe: Option<u32>)
    requires { length out.old + 6 ≤ LINE_ROOM }
    ensures text { out.new ≡ out.old ++ airframe_text airframe }
    ensures size { length out.new ≤ length out.old + 6 }
{
    if let Some(address) = airframe {
        let mut digits = [0u8; 6];
        write_digits(&address.to_be_bytes()[1..], &mut digits);
        out.append(&digits);
    }
}

/// Appends a time of day.
fn append_clock(out: &mut Room, seconds: u32)
    requires room { length out.old + 6 ≤ LINE_ROOM }
    requires within { seconds < 86400 }
    ensures text { out.new ≡ out.old ++ clock_text seconds }
    ensures size { length out.new ≡ length out.old + 6 }
{
    append_two(out, seconds / 3600);
    append_two(out, seconds / 60 % 60);
    append_two(out, seconds % 60);
}

/// Appends a position.
fn append_position(out: &mut Room, position: &Position)
    requires { length out.old + 13 ≤ LINE_ROOM }
    ensures text { out.new ≡ out.old ++ position_text (position_data position.now) }
    ensures size { length out.new ≡ length out.old + 13 }
{
    append_either(out, b'N', b'S', position.south);
    append_two(out, position.lat / 600);
    append_minutes(out, position.lat);
    append_either(out, b'E', b'W', position.west);
    append_three(out, position.lon / 600);
    append_minutes(out, position.lon);
}

/// Appends the minutes beyond the whole degrees of an angle in tenths of a minute, and the tenth.
fn append_minutes(out: &mut Room, tenths: u32)
    requires { length out.old + 3 ≤ LINE_ROOM }
    ensures text { out.new ≡ out.old ++ minutes_text tenths }
    ensures size { length out.new ≡ length out.old + 3 }
{
    append_two(out, tenths / 10 % 60);
    append_digit(out, (tenths % 10) as u8);
}

/// Appends one of two characters: the first for false, the second for true.
fn append_either(out: &mut Room, first: u8, second: u8, test: bool)
    requires { length out.old + 1 ≤ LINE_ROOM }
    ensures text { out.new ≡ out.old ++ either_text first second test }
    ensures size { length out.new ≡ length out.old + 1 }
{
    out.append(&[if test { second } else { first }]);
}

/// Appends the lines of a contact's applications.
fn append_offered(out: &mut Room, applications: &[Application])
    requires room { length out.old + 19 * length applications.now ≤ LINE_ROOM }
    requires fit { IsTrue (are_up_to 99 applications.now) }
    ensures { out.new ≡
        out.old ++ flat_map offered_line (map application_data applications.now) }
{
    for application in applications {
        append_offered_line(out, application);
    }
}

/// Appends the line of an application of a contact.
#[tactic(auto, unfolding(crate::specs::LogonTexts::offered_line))]
fn append_offered_line(out: &mut Room, application: &Application)
    requires room { length out.old + 19 ≤ LINE_ROOM }
    requires fits { application.now.number ≤ 99 }
    ensures text { out.new ≡ out.old ++ offered_line (application_data application.now) }
    ensures size { length out.new ≤ length out.old + 19 }
{
    append_name(out, application);
    append_two(out, application.number as u32);
    out.append(b"\n");
}

/// Appends the lines of an answer's applications.
fn append_answered(out: &mut Room, applications: &[Application])
    requires room { length out.old + 19 * length applications.now ≤ LINE_ROOM }
    requires fit { IsTrue (are_up_to 9 applications.now) }
    ensures { out.new ≡
        out.old ++ flat_map answered_line (map application_data applications.now) }
{
    for application in applications {
        append_answered_line(out, application);
    }
}

/// Appends the line of an application of an answer.
#[tactic(auto, unfolding(crate::specs::LogonTexts::answered_line))]
fn append_answered_line(out: &mut Room, application: &Application)
    requires room { length out.old + 19 ≤ LINE_ROOM }
    requires fits { application.now.number ≤ 9 }
    ensures text { out.new ≡ out.old ++ answered_line (application_data application.now) }
    ensures size { length out.new ≤ length out.old + 19 }
{
    append_name(out, application);
    append_digit(out, application.number);
    out.append(b"\n");
}

/// Appends what the line of an application begins with: its name, and a comma behind it.
fn append_name(out: &mut Room, application: &Application)
    requires { length out.old + 16 ≤ LINE_ROOM }
    ensures text { out.new ≡
        out.old ++ codes "application," ++ application.now.name ++ codes "," }
    ensures size { length out.new ≡ length out.old + 16 }
{
    out.append(b"application,");
    out.append(&application.name);
    out.append(b",");
}

/// Appends a number below 1,000 as three decimal digits.
fn append_three(out: &mut Room, number: u32)
    requires room { length out.old + 3 ≤ LINE_ROOM }
    requires fits { number < 1000 }
    ensures text { out.new ≡ out.old ++ three_digits number }
    ensures size { length out.new ≡ length out.old + 3 }
{
    append_digit(out, (number / 100) as u8);
    append_two(out, number % 100);
}

/// Appends a number below 100 as two decimal digits.
fn append_two(out: &mut Room, number: u32)
    requires room { length out.old + 2 ≤ LINE_ROOM }
    requires fits { number < 100 }
    ensures text { out.new ≡ out.old ++ two_digits number }
    ensures size { length out.new ≡ length out.old + 2 }
{
    append_digit(out, (number / 10) as u8);
    append_digit(out, (number % 10) as u8);
}

/// Appends a number below 10 as a decimal digit.
fn append_digit(out: &mut Room, number: u8)
    requires room { length out.old + 1 ≤ LINE_ROOM }
    requires fits { number < 10 }
    ensures text { out.new ≡ out.old ++ one_digit number }
    ensures size { length out.new ≡ length out.old + 1 }
{
    out.append(&[b'0' + number]);
}
