//! The applications of a text.
ghost use Rattle.std.specs.Prelude.{◌≡◌, ◌≤◌, IfOk, IsTrue, length, map};
ghost use Rattle.std.specs.List.{list_all};
ghost use Rattle.acars_envelope.specs.Names.{is_letter};
ghost use Rattle.afn_logon.specs.Applications.{are_up_to};
ghost use Rattle.afn_logon.specs.Contents.{application_data};
ghost use Rattle.afn_logon.specs.Kinds.{greatest_number};
ghost use Rattle.afn_logon.specs.Reading.{Gives, GivesWhole, application_reading, applications_reading, several};

use crate::application::Application;
use crate::characters::Class;
use crate::kind::Kind;
use crate::numbers::{ONE_DIGIT, TWO_DIGITS, read_number};
use crate::unread::{Mismatch, Unread};
use arrayvec::ArrayVec;

/// Reads one to four applications, to the end.
pub(crate) fn read_applications(
    unread: &mut Unread,
    kind: Kind,
) -> Result<ArrayVec<Application, 4>, Mismatch>
    ensures gives { GivesWhole (λ a. map application_data a.items) result
        (applications_reading kind unread.old) }
    ensures some { IfOk result (λ a. 1 ≤ length a.items) }
    ensures few { IfOk result (λ a. length a.items ≤ 4) }
    ensures numbers { IfOk result (λ a. IsTrue (are_up_to (greatest_number kind) a.items)) }
{
    let mut applications = ArrayVec::new();
    applications.push(read_application(unread, kind)?);
    while !unread.is_empty() {
        if applications.is_full() {
            return Err(unread.mismatch());
        }
        applications.push(read_application(unread, kind)?);
    }
    Ok(applications)
}

/// Reads an application.
fn read_application(unread: &mut Unread, kind: Kind) -> Result<Application, Mismatch>
    ensures gives { Gives application_data result unread.new
        (application_reading kind unread.old) }
    ensures number { IfOk result (λ a. a.number ≤ greatest_number kind) }
{
    match kind {
        Kind::Offered => read_offered(unread),
        Kind::Answered => read_answered(unread),
    }
}

/// Reads an application of a contact.
#[tactic(auto, unfolding(crate::specs::Reading::application_reading))]
fn read_offered(unread: &mut Unread) -> Result<Application, Mismatch>
    ensures gives { Gives application_data result unread.new
        (application_reading Kind.Offered unread.old) }
    ensures number { IfOk result (λ a. a.number ≤ 99) }
{
    unread.pass(b"/FCO")?;
    let name = read_name(unread)?;
    unread.pass(b",")?;
    let number = read_number(unread, &TWO_DIGITS, 99)?;
    Ok(Application {
        name,
        number: number as u8,
    })
}

/// Reads an application of an answer.
#[tactic(auto, unfolding(crate::specs::Reading::application_reading))]
fn read_answered(unread: &mut Unread) -> Result<Application, Mismatch>
    ensures gives { Gives application_data result unread.new
        (application_reading Kind.Answered unread.old) }
    ensures number { IfOk result (λ a. a.number ≤ 9) }
{
    unread.pass(b"/FAR")?;
    let name = read_name(unread)?;
    unread.pass(b",")?;
    let number = read_number(unread, &ONE_DIGIT, 9)?;
    Ok(Application {
        name,
        number: number as u8,
    })
}

/// Reads an application's name.
fn read_name(unread: &mut Unread) -> Result<[u8; 3], Mismatch>
    ensures gives { Gives (λ name. name) result unread.new (several 3 Class.Letter unread.old) }
    ensures letters { IfOk result (λ name. IsTrue (list_all is_letter name)) }
{
    let letters = unread.several(3, Class::Letter)?;
    Ok(*letters.as_array::<3>().unwrap())
}
