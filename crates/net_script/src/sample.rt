//! The sample of an `S` line.

ghost use Rattle.std.specs.Prelude.{◌≡◌, ◌≤◌, length, drop, All, IfOk, IfErr};
ghost use Rattle.adsc_io.specs.Limits.{max_line_bytes};
ghost use Rattle.adsc_io.specs.Lines.{IsUnbroken};
ghost use Rattle.flight_samples.specs.SampleText.{AreSampleValues, IsPlain};
ghost use Rattle.flight_samples.specs.Samples.{values_of};
ghost use Rattle.net_script.specs.Bytes.{AreClean};
ghost use Rattle.net_script.specs.Faults.{IsFieldsRefusal};
ghost use Rattle.net_script.specs.Fields.{fields_of};
ghost use Rattle.net_script.specs.declared.limits.TheConstants.{SAMPLE_FIELDS};

use crate::fields::behind_comma;
use crate::letter::Letter;
use crate::refusal::{LineRefusal, wrong_field};
use flight_samples::{Sample, SampleReader, SampleRefusal};

/// The sample of an `S` line, or its first wrong field.
pub(crate) fn read_sample(samples: &mut SampleReader, line: &[u8]) -> Result<Sample, LineRefusal>
    requires size { length line.now ≤ max_line_bytes }
    requires unbroken { IsUnbroken line.now }
    requires clean { AreClean line.now }
    requires count { length (fields_of line.now) ≡ SAMPLE_FIELDS }
    ensures ok { IfOk result (λ sample.
        AreSampleValues (drop 1 (fields_of line.now)) (values_of sample)) }
    ensures refused { IfErr result (IsFieldsRefusal Letter.Sample (fields_of line.now)) }
{
    match samples.read(behind_letter(line)) {
        Ok(sample) => Ok(sample),
        Err(SampleRefusal::Column { index, .. }) => Err(wrong_field(index)),
        Err(SampleRefusal::Count { .. }) => unreachable!(),
        Err(SampleRefusal::NoMemory) => Err(LineRefusal::NoMemory),
    }
}

/// The columns of an `S` line: the text behind its first comma.
fn behind_letter(line: &[u8]) -> &[u8]
    requires size { length line.now ≤ max_line_bytes }
    requires unbroken { IsUnbroken line.now }
    requires clean { AreClean line.now }
    requires count { length (fields_of line.now) ≡ SAMPLE_FIELDS }
    ensures fields { drop 1 (fields_of line.now) ≡ fields_of result.now }
    ensures size { length result.now ≤ max_line_bytes }
    ensures plain { All IsPlain result.now }
{
    match behind_comma(line) {
        Some(columns) => columns,
        None => unreachable!(),
    }
}
