//! A row of fields, read as a sample.

ghost use Rattle.std.specs.Prelude.{◌≡◌, ◌<◌, ◌≤◌, ℕ, ℤ, pos, [], IfErr, IfOk, length, slice_index_or};
ghost use Rattle.csv.specs.Records.{fields_of};
ghost use Rattle.flight_samples.specs.Columns.{IsIn};
ghost use Rattle.flight_samples.specs.SampleText.{AreSampleValues, IsColumnFault, IsSampleFault, IsValueAt, column_count, range_at};
ghost use Rattle.flight_samples.specs.Samples.{values_of};

use crate::columns::{COLUMN_COUNT, limits_at};
use crate::decimal::{NumberFault, read_integer};
use crate::read::SampleRefusal;
use crate::sample::Sample;
use csv::ByteRecord;

/// The field at a place of a row, empty where the row has none there.
pub(crate) fn field_at(row: &ByteRecord, place: usize) -> &[u8]
    ensures { result.now ≡ slice_index_or (fields_of row.now) place [] }
{
    row.get(place).unwrap_or(&[])
}

/// The value of the column at a place of a row, or why it has none.
fn read_column(row: &ByteRecord, place: usize) -> Result<i32, NumberFault>
    requires { place < column_count }
    ensures ok { IfOk result (IsValueAt (fields_of row.now) place) }
    ensures fault { IfErr result (IsColumnFault (fields_of row.now) place) }
    ensures read { (z : ℤ) → IsValueAt (fields_of row.now) place z → result ≡ Ok z }
    ensures refused { (e : NumberFault)
        → IsColumnFault (fields_of row.now) place e → result ≡ Err e }
{
    let limits = limits_at(place);
    read_integer(field_at(row, place), limits.low, limits.high)
}

/// The values of a row that has a field for each column, or the first bad column.
fn read_values(row: &ByteRecord) -> Result<[i32; COLUMN_COUNT], SampleRefusal>
    requires { length (fields_of row.now) ≡ column_count }
    ensures ok { IfOk result (AreSampleValues (fields_of row.now)) }
    ensures refused { IfErr result (IsSampleFault (fields_of row.now)) }
{
    let mut values = [0; COLUMN_COUNT];
    for place in 0..COLUMN_COUNT {
        match read_column(row, place) {
            Ok(value) => values[place] = value,
            Err(why) => {
                let index = place as u32 + 1;
                return Err(SampleRefusal::Column { index, why });
            }
        }
    }
    Ok(values)
}

/// The sample of these values.
pub(crate) fn sample_of(values: [i32; COLUMN_COUNT]) -> Sample
    requires count { length values ≡ column_count }
    requires ranges { (place : ℕ) → place < column_count
        → IsIn (range_at place) (slice_index_or values place (pos 0)) }
    ensures { values_of result ≡ values }
{
    let [
        lat,
        lon,
        alt,
        sec,
        tcas,
        acc,
        red,
        wlat,
        wlon,
        walt,
        eta,
        nlat,
        nlon,
        nalt,
        tinv,
        track,
        gs,
        vr,
        hinv,
        heading,
        mach,
        wind,
        winv,
        wdir,
        temp,
        xtk,
    ] = values;
    Sample {
        lat,
        lon,
        alt,
        sec,
        tcas,
        acc,
        red,
        wlat,
        wlon,
        walt,
        eta,
        nlat,
        nlon,
        nalt,
        tinv,
        track,
        gs,
        vr,
        hinv,
        heading,
        mach,
        wind,
        winv,
        wdir,
        temp,
        xtk,
    }
}

/// The sample of a row, or why it is none.
pub(crate) fn sample_of_row(row: &ByteRecord) -> Result<Sample, SampleRefusal>
    requires { length (fields_of row.now) ≤ 4097 }
    ensures ok { IfOk result (λ s. AreSampleValues (fields_of row.now) (values_of s)) }
    ensures refused { IfErr result (IsSampleFault (fields_of row.now)) }
{
    if row.len() != COLUMN_COUNT {
        let found = row.len() as u32;
        return Err(SampleRefusal::Count { found });
    }
    Ok(sample_of(read_values(row)?))
}
