//! Writing a contact text and an answer text.
ghost use Rattle.std.specs.Prelude.{◌≡◌, ◌+◌, ◌*◌, ◌≤◌, ◌<◌, ◌^◌, ◌++◌, IsTrue, length, map, codes, flat_map};
ghost use Rattle.arrayvec.specs.ArrayVec.{array_vec_len};
ghost use Rattle.acars_envelope.specs.Bodies.{is_well_formed};
ghost use Rattle.acars_envelope.specs.Names.{IsFlight, IsRegistration};
ghost use Rattle.acars_envelope.specs.declared.texts.Body.TheVariants.{Afn};
ghost use Rattle.afn_logon.specs.Applications.{are_up_to};
ghost use Rattle.afn_logon.specs.Contents.{answer_data, application_data, contact_data, position_data};
ghost use Rattle.afn_logon.specs.Forms.{IsAnswerText, IsContactText};
ghost use Rattle.afn_logon.specs.Kinds.{application_text, greatest_number};
ghost use Rattle.afn_logon.specs.Texts.{airframe_text, answer_text, answered_text, clock_text, contact_text, either_text, minutes_text, offered_text, one_digit, position_text, three_digits, two_digits};

use crate::answer::Answer;
use crate::application::Application;
use crate::contact::Contact;
use crate::kind::Kind;
use crate::position::Position;
use acars_envelope::{Flight, Registration, write_digits};
use arrayvec::ArrayVec;

/// A text that is being written.
type Text = ArrayVec<u8, 255>;

/// The text of a contact, FN_CON, which an envelope carries. It can't be refused.
#[tactic(auto, unfolding(crate::specs::Texts::contact_text))]
pub fn write_contact(contact: &Contact) -> ArrayVec<u8, 255>
    ensures text { result.items ≡ contact_text (contact_data contact.now) }
    ensures right { IsContactText (contact_data contact.now) result.items }
    ensures carried { IsTrue (is_well_formed (Afn result)) }
{
    let mut text = Text::new();
    append_names(&mut text, &contact.flight, &contact.registration);
    append(&mut text, b",");
    append_airframe(&mut text, contact.airframe);
    append(&mut text, b",");
    append_clock(&mut text, contact.clock);
    append(&mut text, b"/FPO");
    append_position(&mut text, &contact.position);
    append(&mut text, b",");
    append_either(&mut text, b'0', b'1', contact.active);
    append_applications(&mut text, contact.applications.as_slice(), Kind::Offered);
    text
}

/// The text of an answer, FN_AK, which an envelope carries. It can't be refused.
#[tactic(auto, unfolding(crate::specs::Texts::answer_text))]
pub fn write_answer(answer: &Answer) -> ArrayVec<u8, 255>
    ensures text { result.items ≡ answer_text (answer_data answer.now) }
    ensures right { IsAnswerText (answer_data answer.now) result.items }
    ensures carried { IsTrue (is_well_formed (Afn result)) }
{
    let mut text = Text::new();
    append_names(&mut text, &answer.flight, &answer.registration);
    append(&mut text, b"/FAK");
    append_digit(&mut text, answer.code);
    append_applications(&mut text, answer.applications.as_slice(), Kind::Answered);
    text
}

/// Appends what both texts begin with: the letters, the flight identifier and the registration.
fn append_names(text: &mut Text, flight: &Flight, registration: &Registration)
    requires { array_vec_len text.old ≤ 0 }
    ensures items { text.new.items ≡
        text.old.items ++ codes "/FMH" ++ flight.now ++ codes "," ++ registration.now }
    ensures len { array_vec_len text.new ≤ 20 }
    ensures flight { IsFlight flight.now }
    ensures registration { IsRegistration registration.now }
{
    append(text, b"/FMH");
    append(text, flight.text());
    append(text, b",");
    append(text, &registration.seven());
}

/// Appends a piece to a text that has room for it.
fn append(text: &mut Text, piece: &[u8])
    requires { array_vec_len text.old + length piece.now ≤ 255 }
    ensures items { text.new.items ≡ text.old.items ++ piece.now }
    ensures len { array_vec_len text.new ≡ array_vec_len text.old + length piece.now }
{
    text.try_extend_from_slice(piece).unwrap();
}

/// Appends an airframe's address, and nothing where there is none.
fn append_airframe(text: &mut Text, airframe: Option<u32>)
    requires { array_vec_len text.old ≤ 249 }
    ensures items { text.new.items ≡ text.old.items ++ airframe_text airframe }
    ensures len { array_vec_len text.new ≤ array_vec_len text.old + 6 }
{
    if let Some(address) = airframe {
        let mut digits = [0u8; 6];
        write_digits(&address.to_be_bytes()[1..], &mut digits);
        append(text, &digits);
    }
}

/// Appends a time of day.
fn append_clock(text: &mut Text, seconds: u32)
    requires room { array_vec_len text.old ≤ 249 }
    requires within { seconds < 86400 }
    ensures items { text.new.items ≡ text.old.items ++ clock_text seconds }
    ensures len { array_vec_len text.new ≡ array_vec_len text.old + 6 }
{
    append_two(text, seconds / 3600);
    append_two(text, seconds / 60 % 60);
    append_two(text, seconds % 60);
}

/// Appends a position.
fn append_position(text: &mut Text, position: &Position)
    requires { array_vec_len text.old ≤ 242 }
    ensures items { text.new.items ≡
        text.old.items ++ position_text (position_data position.now) }
    ensures len { array_vec_len text.new ≡ array_vec_len text.old + 13 }
{
    append_either(text, b'N', b'S', position.south);
    append_two(text, position.lat / 600);
    append_minutes(text, position.lat);
    append_either(text, b'E', b'W', position.west);
    append_three(text, position.lon / 600);
    append_minutes(text, position.lon);
}

/// Appends the minutes beyond the whole degrees of an angle in tenths of a minute, and the tenth.
fn append_minutes(text: &mut Text, tenths: u32)
    requires { array_vec_len text.old ≤ 252 }
    ensures items { text.new.items ≡ text.old.items ++ minutes_text tenths }
    ensures len { array_vec_len text.new ≡ array_vec_len text.old + 3 }
{
    append_two(text, tenths / 10 % 60);
    append_digit(text, (tenths % 10) as u8);
}

/// Appends one of two characters: the first for false, the second for true.
fn append_either(text: &mut Text, first: u8, second: u8, test: bool)
    requires { array_vec_len text.old < 255 }
    ensures items { text.new.items ≡ text.old.items ++ either_text first second test }
    ensures len { array_vec_len text.new ≡ array_vec_len text.old + 1 }
{
    text.push(if test { second } else { first });
}

/// Appends applications, one behind the other.
fn append_applications(text: &mut Text, applications: &[Application], kind: Kind)
    requires room { array_vec_len text.old + 10 * length applications.now ≤ 255 }
    requires fit { IsTrue (are_up_to (greatest_number kind) applications.now) }
    ensures items { text.new.items ≡ text.old.items
        ++ flat_map (application_text kind) (map application_data applications.now) }
{
    for application in applications {
        append_application(text, application, kind);
    }
}

/// Appends an application.
fn append_application(text: &mut Text, application: &Application, kind: Kind)
    requires room { array_vec_len text.old + 10 ≤ 255 }
    requires fits { application.now.number ≤ greatest_number kind }
    ensures items { text.new.items ≡
        text.old.items ++ application_text kind (application_data application.now) }
    ensures len { array_vec_len text.new ≤ array_vec_len text.old + 10 }
{
    match kind {
        Kind::Offered => append_offered(text, application),
        Kind::Answered => append_answered(text, application),
    }
}

/// Appends an application of a contact.
fn append_offered(text: &mut Text, application: &Application)
    requires room { array_vec_len text.old ≤ 245 }
    requires two { application.now.number ≤ 99 }
    ensures items { text.new.items ≡
        text.old.items ++ offered_text (application_data application.now) }
    ensures len { array_vec_len text.new ≡ array_vec_len text.old + 10 }
{
    append(text, b"/FCO");
    append(text, &application.name);
    append(text, b",");
    append_two(text, application.number as u32);
}

/// Appends an application of an answer.
fn append_answered(text: &mut Text, application: &Application)
    requires room { array_vec_len text.old ≤ 246 }
    requires one { application.now.number ≤ 9 }
    ensures items { text.new.items ≡
        text.old.items ++ answered_text (application_data application.now) }
    ensures len { array_vec_len text.new ≡ array_vec_len text.old + 9 }
{
    append(text, b"/FAR");
    append(text, &application.name);
    append(text, b",");
    append_digit(text, application.number);
}

/// Appends a number below 1,000 as three decimal digits.
fn append_three(text: &mut Text, number: u32)
    requires room { array_vec_len text.old ≤ 252 }
    requires fits { number < 1000 }
    ensures items { text.new.items ≡ text.old.items ++ three_digits number }
    ensures len { array_vec_len text.new ≡ array_vec_len text.old + 3 }
{
    append_digit(text, (number / 100) as u8);
    append_two(text, number % 100);
}

/// Appends a number below 100 as two decimal digits.
fn append_two(text: &mut Text, number: u32)
    requires room { array_vec_len text.old ≤ 253 }
    requires fits { number < 100 }
    ensures items { text.new.items ≡ text.old.items ++ two_digits number }
    ensures len { array_vec_len text.new ≡ array_vec_len text.old + 2 }
{
    append_digit(text, (number / 10) as u8);
    append_digit(text, (number % 10) as u8);
}

/// Appends a number below 10 as a decimal digit.
fn append_digit(text: &mut Text, number: u8)
    requires room { array_vec_len text.old < 255 }
    requires fits { number < 10 }
    ensures items { text.new.items ≡ text.old.items ++ one_digit number }
    ensures len { array_vec_len text.new ≡ array_vec_len text.old + 1 }
{
    text.push(b'0' + number);
}
