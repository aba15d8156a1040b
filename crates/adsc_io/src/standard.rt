//! Sources and sinks over the standard library's readers and writers.
ghost use Rattle.std.specs.Prelude.{◌≡◌};
ghost use Rattle.adsc_io.specs.Standard.{source_reader, source_faults, sink_writer, sink_faults};

use crate::failures::Failed;
use crate::traits::{Sink, Source};
use std::io::{Read, Write};

/// A source over a reader of the standard library, such as the program's standard input.
///
/// It tells the bytes that its reader tells, and standard input tells none. Each error of the reader is a fault.
/// This project's profile.
#[derive(Drop)]
pub struct StdSource<R: Read> {
    input: R,
    faults: u64,
}

impl<R: Read> StdSource<R> {
    /// A source over this reader, with no fault so far.
    pub fn new(input: R) -> StdSource<R>
        ensures reader { source_reader result ≡ input }
        ensures faults { source_faults result ≡ 0 }
    {
        StdSource { input, faults: 0 }
    }
}

impl<R: Read> Source for StdSource<R> {
    ghost left = { λ s. R.remaining s.input };

    ghost faults = { λ s. s.faults };

    fn read(&mut self, buf: &mut [u8]) -> Result<usize, Failed> {
        match self.input.read(buf) {
            Ok(count) => Ok(count),
            Err(_) => {
                self.faults = self.faults.saturating_add(1);
                Err(Failed)
            }
        }
    }
}

/// A sink over a writer of the standard library, such as the program's standard output.
///
/// It tells the bytes that its writer tells, and standard output tells none. Each error of the writer is a fault, and so
/// is each write that takes nothing. This project's profile.
#[derive(Drop)]
pub struct StdSink<W: Write> {
    output: W,
    faults: u64,
}

impl<W: Write> StdSink<W> {
    /// A sink over this writer, with no fault so far.
    pub fn new(output: W) -> StdSink<W>
        ensures writer { sink_writer result ≡ output }
        ensures faults { sink_faults result ≡ 0 }
    {
        StdSink { output, faults: 0 }
    }
}

impl<W: Write> Sink for StdSink<W> {
    ghost written = { λ s. W.contents s.output };

    ghost faults = { λ s. s.faults };

    fn write(&mut self, piece: &[u8]) -> Result<usize, Failed> {
        match self.output.write(piece) {
            Ok(count) if count > 0 => Ok(count),
            _ => {
                self.faults = self.faults.saturating_add(1);
                Err(Failed)
            }
        }
    }
}
