//! Whole runs and showings over sources and sinks in memory. The texts were made by another program, from the tables
//! of the formats.
mod command_lines;
mod faults;
mod gates;
mod limits;
mod long_scripts;
mod making;
mod scripts;
mod texts;
mod vectors;

ghost use Rattle.std.specs.Prelude.{◌<◌};

use super::*;
use adsc_io::{MemSink, MemSource};
use std::alloc::Global;
use std::sync::Wait;
use std::test::Fail;
use std::thread::Threads;

/// The three first lines of most scripts: the aircraft, one address, and a sample of zeros.
const HEAD: &str =
    "A,N12345,ANZ1,C81234\nG,AKLCDYA\nS,0,0,0,0,0,0,0,0,0,0,0,0,0,0,0,0,0,0,0,0,0,0,0,0,0,0\n";

/// The lines of a script behind the head: a contact that is brought, an ask, and each of its messages brought twice.
const CENTRES: &str = "\
L,AKLCDYA
R,AKLCDYA,1
C,AKLCDYA,07000BA5
B,AKLCDYA,2
B,AKLCDYA,2
R,AKLCDYA,2
R,AKLCDYA,2
";

/// What is written of it.
const CENTRES_OUTPUT: &str = "\
J,4,7,8
L,AKLCDYA,sent
D,/AKLCDYA.AFN/FMHANZ1,.N12345,C81234,000000/FPON00000E000000,0/FCOADS,013093
D,/AKLCDYA.ADS.N12345030107000000000000000000007E26
D,/AKLCDYA.ADS.N123450301718B
C,AKLCDYA,D,none
C,AKLCDYA,P,confirmed,07010BA5
C,AKLCDYA,V,none
C,AKLCDYA,M,none
OK
";

/// The words of a command line.
fn words_of(alloc: Global, texts: &[&str]) -> Result<Vec<String>, Fail> {
    let mut words = Vec::new(alloc);
    for text in texts {
        words.push(String::from_str(alloc, text)?)?;
    }
    Ok(words)
}

/// How the program ends on these words and this input, read in pieces of so many bytes, and what it writes.
fn played<Rt: Threads + Wait + Sync>(
    rt: &Rt,
    alloc: Global,
    texts: &[&str],
    input: &[u8],
    piece: usize,
) -> Result<(Status, Vec<u8>), Fail>
    requires { 0 < piece }
{
    played_under(rt, alloc, texts, input, piece, &Free)
}

/// The same, where the workers tell this gate of the entries that they take.
fn played_under<Rt: Threads + Wait + Sync, G: Gate>(
    rt: &Rt,
    alloc: Global,
    texts: &[&str],
    input: &[u8],
    piece: usize,
    gate: &G,
) -> Result<(Status, Vec<u8>), Fail>
    requires { 0 < piece }
{
    let words = words_of(alloc, texts)?;
    let mut source = MemSource::new(alloc, input, piece, &[])?;
    let mut sink = MemSink::new(alloc, 400_000, 5_000, &[])?;
    let status = top(rt, alloc, words.as_slice(), &mut source, &mut sink, gate);
    Ok((status, sink.written().to_vec(alloc)?))
}

/// A line, so many times.
fn repeated(alloc: Global, line: &str, count: u32) -> Result<String, Fail> {
    let mut lines = String::new(alloc);
    for _ in 0..count {
        lines.push_str(line)?;
    }
    Ok(lines)
}

/// What stands behind the first line.
fn behind_first_line(text: &[u8]) -> &[u8] {
    match text.iter().position(|byte| *byte == b'\n') {
        Some(place) => &text[place..],
        None => text,
    }
}
