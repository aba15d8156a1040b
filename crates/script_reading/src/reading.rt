//! What a line of a script says.

ghost use Rattle.std.specs.Prelude.{◌≡◌, ℕ, ◌≤◌, length, drop, OnOk};
ghost use Rattle.adsc_io.specs.Limits.{max_line_bytes};
ghost use Rattle.adsc_io.specs.Lines.{IsUnbroken};
ghost use Rattle.run_rules.specs.Places.{IsInPlace};
ghost use Rattle.run_rules.specs.Readings.{ReadsLine};
ghost use Rattle.run_rules.specs.declared.reading.Reading.TheVariants as readings;
ghost use Rattle.ground_texts.specs.Readings.{ReadsText};
ghost use Rattle.script_reading.specs.Readable.{IsReadable};
ghost use Rattle.ground_texts.specs.declared.ground_text.GroundText.{GroundText as GroundTextValue};

use crate::placed::misplaced;
use adsc_io::{MAX_LINE_BYTES, NoMemory};
use flight_samples::SampleReader;
use ground_texts::read_ground_text;
use net_script::{Code, LineRefusal, ScriptLine, read_script_line};
use run_rules::Reading;
use std::alloc::Global;

/// Reads the line of this number, counted from 1: what it says, or why it is bad.
///
/// The line has no newline, as the lines that `adsc_io::next_line` finds, and may have any length. The rules are tried in this
/// order, and a line is bad by the first that it breaks:
///
/// 1. `Long`: the line has at most 4096 bytes. The value is 4096.
/// 2. `Head`: lines 1, 2 and 3 have the letters `A`, `G` and `S`. The value is 0.
/// 3. `Kind`: no line behind them has the letter `A` or `G`, whatever else it holds. The value is 0.
/// 4. The form of the line, by the rules of [`read_script_line`] in their order: `Kind`, `Byte`, `Count`, `Field`, `Twice`.
///
/// The text of a right `U` line is then read, as [`read_ground_text`] does: the first bad place of its envelope, an uplink of the
/// application ADS with what its payload asks or its first fault, or a text of the application AFN. A text or a payload that is
/// refused leaves its line right. The script language is this project's profile; texts follow ARINC 622, payloads RTCA DO-258A /
/// EUROCAE ED-100A.
///
/// `samples` reads the columns of sample lines; one serves all lines of a run. The reading is written where the caller keeps it, since
/// it is large; for want of memory it says nothing.
pub fn read_line(
    samples: &mut SampleReader,
    alloc: Global,
    number: u32,
    line: &[u8],
    reading: &mut Reading,
) -> Result<(), NoMemory>
    requires unbroken { IsUnbroken line.now }
    ensures reads { OnOk result (ReadsLine number line.now reading.new) }
    ensures readable { OnOk result (IsReadable reading.new) }
{
    if line.len() > MAX_LINE_BYTES {
        say_bad(reading, Code::Long, MAX_LINE_BYTES as u32);
        return Ok(());
    }
    if let Some(code) = misplaced(number, line) {
        say_bad(reading, code, 0);
        return Ok(());
    }
    read_placed(samples, alloc, line, reading)
}

/// Reads a line that isn't too long and stands where it may: what it says, or the first fault of its form.
fn read_placed(
    samples: &mut SampleReader,
    alloc: Global,
    line: &[u8],
    reading: &mut Reading,
) -> Result<(), NoMemory>
    requires size { length line.now ≤ max_line_bytes }
    requires unbroken { IsUnbroken line.now }
    ensures reads { (number : ℕ) → IsInPlace number line.now → OnOk result (ReadsLine number line.now reading.new) }
{
    match read_script_line(samples, alloc, line) {
        Ok(ScriptLine::U { from }) => say_text(reading, bytes_from(line, from)),
        Ok(value) => say_value(reading, value),
        Err(LineRefusal::Bad { code, value }) => say_bad(reading, code, value),
        Err(LineRefusal::NoMemory) => return Err(NoMemory),
    }
    Ok(())
}

// Each of these stands apart since it holds a reading, and a function pays for the size of what it holds each time that it is called.

/// Says that the line is bad.
#[inline(never)]
pub fn say_bad(reading: &mut Reading, code: Code, value: u32)
    ensures { reading.new ≡ readings.Bad code value }
{
    *reading = Reading::Bad { code, value };
}

/// Says what the line says, which brings no text.
#[inline(never)]
fn say_value(reading: &mut Reading, value: ScriptLine)
    ensures { reading.new ≡ readings.Says value }
{
    *reading = Reading::Says(value);
}

/// Says what the text says that the line brings.
#[inline(never)]
fn say_text(reading: &mut Reading, text: &[u8])
    ensures { (said : GroundTextValue) × (reading.new ≡ readings.Brings said) × ReadsText text.now said }
{
    *reading = Reading::Brings(read_ground_text(text));
}

/// The bytes of the line from this place on.
fn bytes_from(line: &[u8], from: usize) -> &[u8]
    requires { from ≤ length line.now }
    ensures { result.now ≡ drop from line.now }
{
    line.split_at(from).1
}
