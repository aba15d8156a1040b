//! The texts of lines that are made.

ghost use Rattle.std.specs.Prelude.{◌≡◌, ◌++◌, ◌<◌, List, OnOk, flat_map, codes, decimal, length, ◌+◌, ◌≤◌};
ghost use Rattle.acars_envelope.specs.Names.{with_dots};
ghost use Rattle.acars_envelope.specs.Texts.{sealed_text};
ghost use Rattle.acars_envelope.specs.declared.texts.Body.TheVariants.{Ads};
ghost use Rattle.adsc_io.specs.Lines.{ended};
ghost use Rattle.generated_scripts.specs.Payloads.{payload_octets};
ghost use Rattle.generated_scripts.specs.Texts.{column_field, line_text, made_address, made_mark, sample_columns};
ghost use Rattle.generated_scripts.specs.Writing.{HasPlace};

use crate::line::{MadeLine, MadePayload, MadeSample};
use acars_envelope::{Address, Registration, append_ads_text};
use itoa::Buffer;
use output_fields::append_decimal;
use std::alloc::AllocError;

/// The addresses of the links.
static ADDRESSES: [[u8; 7]; 5] = [
    *b"GRND001",
    *b"GRND002",
    *b"GRND003",
    *b"GRND004",
    *b"GRND005",
];

/// Appends a line that is made, and a newline behind it.
pub(crate) fn append_line(out: &mut Vec<u8>, line: &MadeLine) -> Result<(), AllocError>
    requires { HasPlace line.now }
    ensures { OnOk result (out.new.items ≡ out.old.items ++ ended (line_text line.now)) }
{
    append_text(out, line)?;
    out.extend_from_slice(b"\n")
}

/// Appends the text of a line that is made.
fn append_text(out: &mut Vec<u8>, line: &MadeLine) -> Result<(), AllocError>
    requires { HasPlace line.now }
    ensures { OnOk result (out.new.items ≡ out.old.items ++ line_text line.now) }
{
    match line {
        MadeLine::Sample(sample) => append_sample(out, sample),
        MadeLine::Time(moment) => append_time(out, *moment),
        MadeLine::Crew(true) => out.extend_from_slice(b"E,1"),
        MadeLine::Crew(false) => out.extend_from_slice(b"E,0"),
        MadeLine::Uplink { place, payload } => append_uplink(out, *place, payload),
    }
}

/// Appends a `T` line.
fn append_time(out: &mut Vec<u8>, moment: u32) -> Result<(), AllocError>
    ensures { OnOk result (out.new.items ≡ out.old.items ++ codes "T," ++ decimal moment) }
{
    out.extend_from_slice(b"T,")?;
    append_decimal(out, moment)
}

/// Appends an `S` line.
fn append_sample(out: &mut Vec<u8>, sample: &MadeSample) -> Result<(), AllocError>
    ensures { OnOk result (out.new.items ≡ out.old.items ++ codes "S" ++ flat_map column_field (sample_columns sample.now)) }
{
    out.extend_from_slice(b"S")?;
    append_columns(out, &columns_of(sample))
}

/// The columns of a sample, those among them that aren't drawn too.
fn columns_of(sample: &MadeSample) -> [i32; 26]
    ensures { result ≡ sample_columns sample.now }
{
    [
        sample.lat,
        sample.lon,
        sample.alt,
        0,
        0,
        0,
        0,
        sample.wlat,
        0,
        0,
        0,
        0,
        0,
        0,
        0,
        0,
        0,
        sample.vr,
        0,
        0,
        0,
        0,
        0,
        0,
        0,
        sample.xtk,
    ]
}

/// Appends columns, a comma before each.
fn append_columns(out: &mut Vec<u8>, columns: &[i32]) -> Result<(), AllocError>
    ensures { OnOk result (out.new.items ≡ out.old.items ++ flat_map column_field columns.now) }
{
    for column in columns {
        append_column(out, *column)?;
    }
    Ok(())
}

/// Appends a comma and a column.
fn append_column(out: &mut Vec<u8>, column: i32) -> Result<(), AllocError>
    ensures { OnOk result (out.new.items ≡ out.old.items ++ column_field column) }
{
    let mut digits = Buffer::new();
    out.extend_from_slice(b",")?;
    out.extend_from_slice(digits.format(column).as_bytes())
}

/// Appends a `U` line.
fn append_uplink(out: &mut Vec<u8>, place: u8, payload: &MadePayload) -> Result<(), AllocError>
    requires { place < 5 }
    ensures { OnOk result (out.new.items ≡ out.old.items ++ codes "U,"
        ++ sealed_text (made_address place) (Ads (with_dots made_mark) (record { items = payload_octets payload.now }))) }
{
    out.extend_from_slice(b"U,")?;
    match *payload {
        MadePayload::Demand(number) => append_octets(out, place, &[0x07, number]),
        MadePayload::Periodic(number, interval) => {
            append_octets(out, place, &[0x07, number, 0x0B, interval, 0x0D, 0x02])
        }
        MadePayload::Event(number, lateral) => {
            append_octets(out, place, &[0x08, number, 0x0A, lateral, 0x14])
        }
        MadePayload::Emergency(number, interval) => {
            append_octets(out, place, &[0x09, number, 0x0B, interval])
        }
        MadePayload::Cancel(number) => append_octets(out, place, &[0x02, number]),
        MadePayload::CancelAll => append_octets(out, place, &[0x01]),
        MadePayload::Malformed(number) => append_octets(out, place, &[0x07, number, 0x0B]),
    }
}

/// Appends the text of ADS that carries these octets from the address at this place.
fn append_octets(out: &mut Vec<u8>, place: u8, octets: &[u8]) -> Result<(), AllocError>
    requires place { place < 5 }
    requires some { 1 ≤ length octets.now }
    requires few { length octets.now ≤ 6 }
    ensures { OnOk result (out.new.items ≡ out.old.items
        ++ sealed_text (made_address place) (Ads (with_dots made_mark) (record { items = octets.now }))) }
{
    out.reserve(35)?;
    append_ads_text(out, &address_at(place), &registration(), octets);
    Ok(())
}

/// The address at this place.
fn address_at(place: u8) -> Address
    requires { place < 5 }
    ensures { result ≡ made_address place }
{
    match Address::new(&ADDRESSES[place as usize]) {
        Some(address) => address,
        None => unreachable!(),
    }
}

/// The registration of the aircraft.
fn registration() -> Registration
    ensures { result ≡ with_dots made_mark }
{
    match Registration::new(b"N12345") {
        Some(registration) => registration,
        None => unreachable!(),
    }
}
