//! The summary of a run.

ghost use Rattle.std.specs.Prelude.{◌≡◌, ◌++◌, ◌∷◌, ◌==◌, List, ℕ, IfOk, OnOk, codes, count_by, length};
ghost use Rattle.acars_envelope.specs.Check.{check_of};
ghost use Rattle.acars_envelope.specs.Texts.{four_digits};
ghost use Rattle.adsc_io.specs.Lines.{ended, ended_lines, script_lines};
ghost use Rattle.output_fields.specs.Fields.{comma, number_field};
ghost use Rattle.generated_scripts.specs.Summaries.{AreLinkLines, IsSummaryText, count_line, link_line};

use acars_envelope::check_code;
use adsc_io::NoMemory;
use aircraft_core::Craft;
use itoa::Buffer;
use output_fields::append_octets;
use std::alloc::{AllocError, Global};

/// The summary of the run of the script of this number with so many lines, from the aircraft at its end, and how many texts were refused: the
/// counts; for each address in order how many downlinks its link has, how many bytes they are with a newline behind each, and the check code
/// of these bytes; and `OK`. The downlinks are looked at where they are; memory is taken for the summary alone, and is the only thing that can
/// be wanting.
pub fn summarize(
    alloc: Global,
    number: u32,
    lines: u32,
    craft: &Craft,
    refused: usize,
) -> Result<Vec<u8>, NoMemory>
    ensures { IfOk result (λ text. IsSummaryText number lines craft.now.setting craft.now.journal refused text.items) }
{
    let mut text = Vec::new(alloc);
    append_counts(&mut text, number, lines, craft.journal().len(), refused)?;
    append_links(&mut text, craft)?;
    text.extend_from_slice(b"OK\n")?;
    Ok(text)
}

/// Appends the line of the counts.
fn append_counts(
    out: &mut Vec<u8>,
    number: u32,
    lines: u32,
    taken: usize,
    refused: usize,
) -> Result<(), AllocError>
    ensures { OnOk result (out.new.items ≡ out.old.items ++ count_line number lines taken refused) }
{
    out.extend_from_slice(b"M")?;
    append_size(out, number as usize)?;
    append_size(out, lines as usize)?;
    append_size(out, taken)?;
    append_size(out, refused)?;
    out.extend_from_slice(b"\n")
}

/// Appends the lines of all links of an aircraft.
fn append_links(out: &mut Vec<u8>, craft: &Craft) -> Result<(), AllocError>
    ensures { OnOk result ((links : List ℕ) × AreLinkLines craft.now.setting craft.now.journal 0 craft.now.setting.addresses links
        × (out.new.items ≡ out.old.items ++ links)) }
{
    for link in 0..craft.links() {
        append_link(
            out,
            craft.address(link).seven().as_slice(),
            craft.outbox(link),
        )?;
    }
    Ok(())
}

/// Appends the line of a link of which these are the downlinks, a newline behind each.
fn append_link(out: &mut Vec<u8>, address: &[u8], outbox: &[u8]) -> Result<(), AllocError>
    requires { outbox.now ≡ ended_lines (script_lines outbox.now) }
    ensures { OnOk result (out.new.items ≡ out.old.items ++ link_line address.now (script_lines outbox.now)) }
{
    out.extend_from_slice(b"M,")?;
    out.extend_from_slice(address)?;
    append_outbox(out, outbox)?;
    out.extend_from_slice(b"\n")
}

/// Appends how many downlinks there are, how many bytes they have, and their check code.
fn append_outbox(out: &mut Vec<u8>, outbox: &[u8]) -> Result<(), AllocError>
    requires { outbox.now ≡ ended_lines (script_lines outbox.now) }
    ensures { OnOk result (out.new.items ≡ out.old.items ++ (number_field (length (script_lines outbox.now))
        ++ number_field (length outbox.now) ++ comma ∷ four_digits (check_of outbox.now))) }
{
    append_size(out, line_count(outbox))?;
    append_size(out, outbox.len())?;
    out.extend_from_slice(b",")?;
    append_octets(out, check_code(outbox).to_be_bytes().as_slice())
}

/// How many lines bytes have that end with a newline.
fn line_count(bytes: &[u8]) -> usize
    requires { bytes.now ≡ ended_lines (script_lines bytes.now) }
    ensures { result ≡ length (script_lines bytes.now) }
{
    newline_count(bytes)
}

/// How many newlines bytes have.
fn newline_count(bytes: &[u8]) -> usize
    ensures { result ≡ count_by (λ byte. byte == 10) bytes.now }
{
    bytes.iter().filter(|byte| **byte == b'\n').count()
}

/// Appends a comma and a size in decimal.
fn append_size(out: &mut Vec<u8>, size: usize) -> Result<(), AllocError>
    ensures { OnOk result (out.new.items ≡ out.old.items ++ number_field size) }
{
    let mut digits = Buffer::new();
    out.extend_from_slice(b",")?;
    out.extend_from_slice(digits.format(size).as_bytes())
}
