//! A line of a ground log, read.

ghost use Rattle.std.specs.Prelude.{◌≡◌, ◌≢◌, ◌≤◌, ◌↔◌, ℕ, List, IsTrue, IfOk, IfErr, IfSome, IfNone, length, Err};
ghost use Rattle.adsc_io.specs.Limits.{max_line_bytes};
ghost use Rattle.adsc_io.specs.Lines.{IsUnbroken};
ghost use Rattle.ground_rules.specs.GroundLines.{HasHearing, HasShared, IsGroundLine, IsGroundRefusal, IsRestart, IsShared};
ghost use Rattle.net_script.specs.Letters.{HasLetter};
ghost use Rattle.net_script.specs.Lines.{IsScriptLine, letter_of};

use acars_envelope::Address;
use flight_samples::SampleReader;
use ground_rules::GroundLine;
use net_script::{
    Code, Letter, LineRefusal, ScriptLine, behind_comma, field_at, has_letter, read_script_line,
};
use std::alloc::Global;

/// Reads a line of a ground log: what it says, or its first fault.
///
/// The line is judged by its form alone. It has no newline, as the lines that `adsc_io::next_line` finds, and at most 4,096 bytes.
/// `A` and `G` lines are read wherever they stand. A line of the letters `A`, `G`, `T`, `C`, `K` is read as in a script, by
/// [`read_script_line`], with its faults. The line `Z` is the one letter. An `H` line is the letter, an address, and a text, which is all
/// behind the second comma, whatever bytes it has: with fewer than two commas it is bad with `Count` and the number of its commas, else
/// with a field that is no address with `Field` and 1. Any other line is bad with `Kind` and 0. Want of memory is free; it comes with a
/// `G` line alone. This project's profile.
pub fn read_ground_line(alloc: Global, line: &[u8]) -> Result<GroundLine, LineRefusal>
    requires size { length line.now ≤ max_line_bytes }
    requires unbroken { IsUnbroken line.now }
    ensures ok { IfOk result (λ value. IsGroundLine value line.now) }
    ensures refused { IfErr result (IsGroundRefusal line.now) }
{
    // No line of a ground log has a sample, so the reader takes no memory.
    read_with(&mut SampleReader::new(alloc), alloc, line)
}

/// Reads a line of a ground log, as [`read_ground_line`] does, with a reader that serves many lines.
pub(crate) fn read_with(
    samples: &mut SampleReader,
    alloc: Global,
    line: &[u8],
) -> Result<GroundLine, LineRefusal>
    requires size { length line.now ≤ max_line_bytes }
    requires unbroken { IsUnbroken line.now }
    ensures ok { IfOk result (λ value. IsGroundLine value line.now) }
    ensures refused { IfErr result (IsGroundRefusal line.now) }
{
    if has_hearing(line) {
        return read_hearing(line);
    }
    if is_restart(line) {
        return Ok(GroundLine::Z);
    }
    if shared_letter(line).is_none() {
        return Err(bad(Code::Kind, 0));
    }
    read_shared(samples, alloc, line)
}

/// The line's letter, if a line of this letter stands in a ground log as it stands in a script.
fn shared_letter(line: &[u8]) -> Option<Letter>
    ensures some { IfSome result (λ letter. HasLetter line.now letter × IsShared letter) }
    ensures none { IfNone result (¬ HasShared line.now) }
{
    if has_letter(line, Letter::Time) {
        return Some(Letter::Time);
    }
    if has_letter(line, Letter::Request) {
        return Some(Letter::Request);
    }
    if has_letter(line, Letter::Cancel) {
        return Some(Letter::Cancel);
    }
    if has_letter(line, Letter::Aircraft) {
        return Some(Letter::Aircraft);
    }
    if has_letter(line, Letter::Ground) {
        return Some(Letter::Ground);
    }
    None
}

/// Whether the line's field 0 is the letter `H`.
fn has_hearing(line: &[u8]) -> bool
    ensures { IsTrue result ↔ HasHearing line.now }
{
    matches!(field_at(line, 0), [b'H'])
}

/// Whether the line is the letter `Z` alone.
fn is_restart(line: &[u8]) -> bool
    ensures { IsTrue result ↔ IsRestart line.now }
{
    matches!(line, [b'Z'])
}

/// Reads a line that a script has too.
fn read_shared(
    samples: &mut SampleReader,
    alloc: Global,
    line: &[u8],
) -> Result<GroundLine, LineRefusal>
    requires size { length line.now ≤ max_line_bytes }
    requires unbroken { IsUnbroken line.now }
    requires shared { HasShared line.now }
    ensures ok { IfOk result (λ value. IsGroundLine value line.now) }
    ensures refused { IfErr result (IsGroundRefusal line.now) }
{
    match read_script_line(samples, alloc, line) {
        Ok(value) => Ok(shared_value(value)),
        Err(refusal) => Err(refusal),
    }
}

/// What a line says that a script has too.
fn shared_value(value: ScriptLine) -> GroundLine
    requires { IsShared (letter_of value) }
    ensures { (bytes : List ℕ) → IsScriptLine value bytes → IsGroundLine result bytes }
{
    match value {
        ScriptLine::A(who) => GroundLine::A(who),
        ScriptLine::G { addresses, .. } => GroundLine::G(addresses),
        ScriptLine::T(t) => GroundLine::T(t),
        ScriptLine::C(address, request) => GroundLine::C(address, request),
        ScriptLine::K(address, cancel) => GroundLine::K(address, cancel),
        _ => unreachable!(),
    }
}

/// Reads a line whose field 0 is the letter `H`.
fn read_hearing(line: &[u8]) -> Result<GroundLine, LineRefusal>
    requires { HasHearing line.now }
    ensures ok { IfOk result (λ value. IsGroundLine value line.now) }
    ensures refused { IfErr result (IsGroundRefusal line.now) }
    ensures memory { result ≢ Err LineRefusal.NoMemory }
{
    let Some(rest) = behind_comma(line) else {
        return Err(bad(Code::Count, 0));
    };
    let Some(_) = behind_comma(rest) else {
        return Err(bad(Code::Count, 1));
    };
    match Address::new(field_at(rest, 0)) {
        Some(address) => Ok(GroundLine::H { address, from: 10 }),
        None => Err(bad(Code::Field, 1)),
    }
}

/// The refusal of a line that is bad in this way.
fn bad(code: Code, value: u32) -> LineRefusal
    ensures { result ≡ LineRefusal.Bad code value }
{
    LineRefusal::Bad { code, value }
}
