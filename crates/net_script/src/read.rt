//! A line of a script, read.

ghost use Rattle.std.specs.Prelude.{◌≡◌, ◌≢◌, ℕ, ◌+◌, ◌≤◌, ◌⊎◌, length, Ok, Err, IfOk, IfErr};
ghost use Rattle.adsc_io.specs.Limits.{max_line_bytes};
ghost use Rattle.adsc_io.specs.Lines.{IsUnbroken};
ghost use Rattle.net_script.specs.Counts.{HasCount};
ghost use Rattle.net_script.specs.Faults.{IsFieldsRefusal, IsFirstLineFault, IsLineRefusal, MayHold};
ghost use Rattle.net_script.specs.Fields.{fields_of};
ghost use Rattle.net_script.specs.Letters.{HasLetter};
ghost use Rattle.net_script.specs.Lines.{IsScriptLine, Says, TextBegins, letter_of};
ghost use Rattle.net_script.specs.declared.line.ScriptLine.{ScriptLine as ScriptLineValue};
ghost use Rattle.net_script.specs.declared.refusal.Code.{Code as CodeValue};

use crate::bytes::first_barred;
use crate::content::{
    read_aircraft, read_cancel, read_emergency, read_logon, read_place, read_request, read_time,
};
use crate::counts::has_count;
use crate::fields::comma_count;
use crate::ground::read_ground;
use crate::letter::{Letter, found_letter};
use crate::line::ScriptLine;
use crate::refusal::{Code, LineRefusal, bad};
use crate::sample::read_sample;
use flight_samples::SampleReader;
use std::alloc::Global;

/// What the fields of a line say whose letter, bytes and number of fields are right, or their first fault.
fn read_fields(
    samples: &mut SampleReader,
    alloc: Global,
    letter: Letter,
    line: &[u8],
    commas: usize,
) -> Result<ScriptLine, LineRefusal>
    requires size { length line.now ≤ max_line_bytes }
    requires unbroken { IsUnbroken line.now }
    requires letter { HasLetter line.now letter }
    requires clean { MayHold letter line.now }
    requires counted { length (fields_of line.now) ≡ commas + 1 }
    requires count { HasCount letter (length (fields_of line.now)) }
    ensures letter { IfOk result (λ value. letter_of value ≡ letter) }
    ensures says { IfOk result (λ value. Says value (fields_of line.now)) }
    ensures refused { IfErr result (IsFieldsRefusal letter (fields_of line.now)) }
    ensures memory { result ≡ Err LineRefusal.NoMemory
        → (letter ≡ Letter.Ground) ⊎ (letter ≡ Letter.Sample) }
{
    match letter {
        Letter::Aircraft => Ok(ScriptLine::A(read_aircraft(line, commas)?)),
        Letter::Ground => {
            let (addresses, reserved) = read_ground(alloc, line, commas)?;
            Ok(ScriptLine::G {
                addresses,
                reserved,
            })
        }
        Letter::Sample => Ok(ScriptLine::S(read_sample(samples, line)?)),
        Letter::Time => Ok(ScriptLine::T(read_time(line)?)),
        Letter::Emergency => Ok(ScriptLine::E(read_emergency(line)?)),
        Letter::Logon => Ok(ScriptLine::L(read_logon(line)?)),
        Letter::Uplink => Ok(ScriptLine::U { from: 2 }),
        Letter::Request => {
            let (address, asked) = read_request(line)?;
            Ok(ScriptLine::C(address, asked))
        }
        Letter::Cancel => {
            let (address, cancel) = read_cancel(line)?;
            Ok(ScriptLine::K(address, cancel))
        }
        Letter::Bring => {
            let (address, place) = read_place(line)?;
            Ok(ScriptLine::B(address, place))
        }
        Letter::Receive => {
            let (address, place) = read_place(line)?;
            Ok(ScriptLine::R(address, place))
        }
    }
}

/// Tests that a line of this letter holds only bytes that it may.
fn check_bytes(letter: Letter, line: &[u8]) -> Result<(), LineRefusal>
    requires size { length line.now ≤ max_line_bytes }
    requires letter { HasLetter line.now letter }
    ensures ok { IfOk result (λ _. MayHold letter line.now) }
    ensures memory { result ≢ Err LineRefusal.NoMemory }
    ensures refused { IfErr result (IsLineRefusal line.now) }
{
    if letter == Letter::Uplink {
        return Ok(());
    }
    match first_barred(line) {
        Some(place) => Err(bad(Code::Byte, place as u32)),
        None => Ok(()),
    }
}

/// Tests that a line of this letter with so many commas has neither too few nor too many fields.
fn check_count(letter: Letter, line: &[u8], commas: usize) -> Result<(), LineRefusal>
    requires few { commas ≤ max_line_bytes }
    requires letter { HasLetter line.now letter }
    requires clean { MayHold letter line.now }
    requires counted { length (fields_of line.now) ≡ commas + 1 }
    ensures ok { IfOk result (λ _. HasCount letter (length (fields_of line.now))) }
    ensures memory { result ≢ Err LineRefusal.NoMemory }
    ensures refused { IfErr result (IsLineRefusal line.now) }
{
    if has_count(letter, commas + 1) {
        Ok(())
    } else {
        Err(bad(Code::Count, commas as u32))
    }
}

/// What the line says, or its first fault.
fn read_line(
    samples: &mut SampleReader,
    alloc: Global,
    line: &[u8],
) -> Result<ScriptLine, LineRefusal>
    requires size { length line.now ≤ max_line_bytes }
    requires unbroken { IsUnbroken line.now }
    ensures ok { IfOk result (λ value. IsScriptLine value line.now) }
    ensures refused { IfErr result (IsLineRefusal line.now) }
    ensures memory { result ≡ Err LineRefusal.NoMemory
        → HasLetter line.now Letter.Ground ⊎ HasLetter line.now Letter.Sample }
{
    let Some(letter) = found_letter(line) else {
        return Err(bad(Code::Kind, 0));
    };
    check_bytes(letter, line)?;
    let commas = comma_count(line);
    check_count(letter, line, commas)?;
    read_fields(samples, alloc, letter, line, commas)
}

/// Reads a line of a script: what it says, or its first fault.
///
/// The line is judged by its form alone, by its bytes and its fields, which are the pieces between its commas. It has no newline,
/// as the lines that `adsc_io::next_line` finds, and at most 4096 bytes. `A` and `G` lines are read wherever they stand. The rules
/// are tried in this order:
///
/// 1. `Kind`: field 0 is one of the letters `A`, `G`, `S`, `T`, `E`, `L`, `U`, `C`, `K`, `B`, `R`.
/// 2. `Byte`: a line other than `U` holds no quote, no carriage return and no byte above 7E hexadecimal.
/// 3. `Count`: the line has as many fields as its letter asks for.
/// 4. `Field`: each field has its form and is in its range, and no second address of a `G` line has a star.
/// 5. `Twice`: no address stands twice in a `G` line, stars left aside.
///
/// `samples` reads the columns of `S` lines; one serves all lines of a run, and what it read before doesn't matter. Memory is
/// taken for `G` and `S` lines alone, so no other line is answered with `NoMemory`.
pub fn read_script_line(
    samples: &mut SampleReader,
    alloc: Global,
    line: &[u8],
) -> Result<ScriptLine, LineRefusal>
    requires size { length line.now ≤ max_line_bytes }
    requires unbroken { IsUnbroken line.now }

    // What is read the line says, and what a line says is read.
    ensures ok { IfOk result (λ value. IsScriptLine value line.now) }
    ensures read { (value : ScriptLineValue) → IsScriptLine value line.now
        → (result ≡ Ok value) ⊎ (result ≡ Err LineRefusal.NoMemory) }

    // The text of a `U` line stands behind the letter and its comma.
    ensures text { IfOk result (λ value. TextBegins value line.now) }

    // What is refused is the line's first fault, and each first fault is told.
    ensures refused { IfErr result (IsLineRefusal line.now) }
    ensures told { (code : CodeValue) (value : ℕ) → IsFirstLineFault line.now code value
        → (result ≡ Err (LineRefusal.Bad code value)) ⊎ (result ≡ Err LineRefusal.NoMemory) }

    ensures memory { result ≡ Err LineRefusal.NoMemory
        → HasLetter line.now Letter.Ground ⊎ HasLetter line.now Letter.Sample }
{
    read_line(samples, alloc, line)
}
