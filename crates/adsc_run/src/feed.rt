//! The lines of a source, each read as a line of a script.
ghost use Rattle.std.specs.Prelude.{◌≡◌, ◌≢◌, ◌+◌, ◌≤◌, ℕ, List, false, IfOk, OnOk, Err};
ghost use Rattle.std.specs.declared.option.Option.{Option as OptionValue};
ghost use Rattle.adsc_io.specs.Causes.{Rose};
ghost use Rattle.adsc_io.specs.Readers.{StandsIn};
ghost use Rattle.adsc_io.specs.declared.limits.TheConstants.{MAX_SCRIPT_LINES};
ghost use Rattle.run_rules.specs.declared.reading.Reading.{Reading as ReadingValue};
ghost use Rattle.adsc_run.specs.Feeds.{HasRead, IsNext, IsReadableNext, found_in, passed};
ghost use Rattle.adsc_io.specs.Lines.{IsUnbroken};
ghost use Rattle.run_rules.specs.Readings.{ReadsLine};

use crate::fault::RunFault;
use adsc_io::{Line, LineReader, MAX_LINE_BYTES, NoMemory, ReadFault, Source};
use flight_samples::SampleReader;
use net_script::Code;
use run_rules::Reading;
use script_reading::{read_line, say_bad};
use std::alloc::Global;
use std::mem;

/// What stands next in a script.
#[derive(Clone, Copy, Debug, PartialEq, Eq)]
pub(crate) enum Next {
    /// A line, whose reading the feed keeps.
    Line,
    /// No line: the script has ended.
    End,
    /// The limit of lines or bytes.
    Limit,
}

/// Reads the lines of a script one by one, and holds no more of it than one line and one piece.
#[derive(Drop)]
pub(crate) struct Feed {
    pub(crate) lines: LineReader,
    samples: SampleReader,
    alloc: Global,
    /// How the line is read that was read last.
    pub(crate) reading: Reading,
}

impl Feed {
    /// Stands at the beginning of a script.
    pub(crate) fn new(alloc: Global) -> Result<Feed, NoMemory>
        ensures stands { IfOk result (λ feed. (bytes : List ℕ) → StandsIn bytes bytes feed.lines) }
        ensures fresh { IfOk result (λ feed. (feed.lines.number ≡ 0) × (feed.lines.ended ≡ false)) }
    {
        Ok(Feed {
            lines: LineReader::new(alloc)?,
            samples: SampleReader::new(alloc),
            alloc,
            reading: Reading::Bad {
                code: Code::Head,
                value: 0,
            },
        })
    }

    /// The number of the line that was read last, counted from 1; 0 before the first.
    pub(crate) fn number(&self) -> u32
        ensures number { result ≡ self.now.lines.number }
        ensures few { result ≤ MAX_SCRIPT_LINES }
    {
        self.lines.number()
    }

    /// Reads the next line of the script.
    pub(crate) fn next<S: Source>(&mut self, source: &mut S) -> Result<Next, RunFault>
        requires { (before : OptionValue (List ℕ)) × (readings : List ReadingValue) × HasRead before (S.left source.old) self.old.lines readings }
        ensures next { IfOk result (λ next. (before : OptionValue (List ℕ)) (readings : List ReadingValue)
            → HasRead before (S.left source.old) self.old.lines readings
            → IsNext before (S.left source.new) self.new.lines readings (found_in self.new.reading next)) }
        ensures readable { IfOk result (λ next. IsReadableNext (found_in self.new.reading next)) }
        ensures number { IfOk result (λ next. self.new.lines.number ≡ self.old.lines.number + passed (found_in self.new.reading next)) }
        ensures read { result ≡ Err RunFault.Read → Rose (S.faults source.old) (S.faults source.new) }
        ensures kept { result ≢ Err RunFault.Read → S.faults source.new ≡ S.faults source.old }
    {
        match self.lines.next(source) {
            Ok(Line::Text) => match self.read_text() {
                Ok(()) => Ok(Next::Line),
                Err(NoMemory) => Err(RunFault::NoMemory),
            },
            Ok(Line::TooLong) => {
                say_bad(&mut self.reading, Code::Long, MAX_LINE_BYTES as u32);
                Ok(Next::Line)
            }
            Ok(Line::End) => Ok(Next::End),
            Ok(Line::Limit { .. }) => Ok(Next::Limit),
            Err(ReadFault) => Err(RunFault::Read),
        }
    }

    /// Reads the line behind which the feed stands.
    fn read_text(&mut self) -> Result<(), NoMemory>
        requires { IsUnbroken self.old.lines.text }
        ensures lines { self.new.lines ≡ self.old.lines }
        ensures reads { OnOk result (ReadsLine self.old.lines.number self.old.lines.text self.new.reading) }
    {
        read_line(
            &mut self.samples,
            self.alloc,
            self.lines.number(),
            self.lines.text(),
            &mut self.reading,
        )
    }

    /// Takes the reading out of the feed.
    pub(crate) fn take_reading(&mut self) -> Reading
        ensures reading { result ≡ self.old.reading }
        ensures lines { self.new.lines ≡ self.old.lines }
    {
        let none = Reading::Bad {
            code: Code::Head,
            value: 0,
        };
        mem::replace(&mut self.reading, none)
    }
}
