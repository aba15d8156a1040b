//! The command `show`.
ghost use Rattle.std.specs.Prelude.{◌≡◌, ℕ, ◌+◌, ◌<◌, ◌≤◌, List, Option, false, IfOk, IfSome, IfNone};
ghost use Rattle.adsc_io.specs.Readers.{StandsIn};
ghost use Rattle.adsc_io.specs.declared.limits.TheConstants.{MAX_SCRIPT_LINES};
ghost use Rattle.shown_lines.specs.Shown.{refusals};
ghost use Rattle.adsc_bench.specs.Progress.{HasReadAll, HasReadLine, HasShown, status_of_whole};
ghost use Rattle.adsc_bench.specs.Seen.{Seen, seen};
ghost use Rattle.adsc_bench.specs.Showing.{Shows};

use crate::status::Status;
use adsc_io::{Line, LineReader, NoMemory, ReadFault, Sink, Source, WriteFault, write_all};
use shown_lines::{LineShown, ShownText};
use std::alloc::Global;

/// Reads texts from the source, one a line, and writes to the sink what each says, or where it is wrong. This project's
/// profile.
///
/// The text of a line that begins with `U,` is an uplink's, and of one that begins with `D,` a downlink's. A line that is
/// refused is shown with the code and the place, and counted. Each line is shown before the next one is read. All memory
/// is taken before the first read. What each status promises is stated by the clause; want of memory alone is free.
pub fn show<S: Source, K: Sink>(alloc: Global, source: &mut S, sink: &mut K) -> Status
    ensures { Shows
        (seen (S.left source.old) (S.faults source.old) (K.written sink.old) (K.faults sink.old))
        (seen (S.left source.new) (S.faults source.new) (K.written sink.new) (K.faults sink.new))
        ((source.new ≡ source.old) × (sink.new ≡ sink.old)) result }
{
    let mut showing = match Showing::new(alloc) {
        Ok(showing) => showing,
        Err(NoMemory) => return Status::NoMemory,
    };
    loop {
        if let Some(status) = showing.show_next(source, sink) {
            return status;
        }
    }
}

/// The lines that are read, the text of the one that is shown, and how many of them are refused.
#[derive(Drop)]
struct Showing {
    reader: LineReader,
    text: ShownText,
    refused: u32,
}

impl Showing {
    /// No line yet.
    fn new(alloc: Global) -> Result<Showing, NoMemory>
        ensures stands { IfOk result
            (λ showing. (bytes : List ℕ) → StandsIn bytes bytes showing.reader) }
        ensures fresh { IfOk result (λ showing. (showing.reader.number ≡ 0)
            × (showing.reader.ended ≡ false) × (showing.refused ≡ 0)) }
    {
        Ok(Showing {
            reader: LineReader::new(alloc)?,
            text: ShownText::new(alloc)?,
            refused: 0,
        })
    }

    /// Reads the next line and writes what shows it, or answers how showing ends.
    fn show_next<S: Source, K: Sink>(&mut self, source: &mut S, sink: &mut K) -> Option<Status>
        requires { self.old.refused ≤ self.old.reader.number }
        ensures none { IfNone result ((before : Seen) → HasShown before
            (seen (S.left source.old) (S.faults source.old) (K.written sink.old) (K.faults sink.old))
            self.old.reader self.old.reader.number self.old.refused → HasShown before
            (seen (S.left source.new) (S.faults source.new) (K.written sink.new) (K.faults sink.new))
            self.new.reader self.new.reader.number self.new.refused) }
        ensures some { IfSome result (λ status. (before : Seen) → HasShown before
            (seen (S.left source.old) (S.faults source.old) (K.written sink.old) (K.faults sink.old))
            self.old.reader self.old.reader.number self.old.refused → Shows before
            (seen (S.left source.new) (S.faults source.new) (K.written sink.new) (K.faults sink.new))
            ⊥ status) }
        ensures number { IfNone result (self.new.reader.number ≡ self.old.reader.number + 1) }
        ensures counted { IfNone result (self.new.refused ≤ self.new.reader.number) }
    {
        match self.reader.next(source) {
            Ok(Line::Text) => {
                let way = self
                    .text
                    .show_line(self.reader.number(), self.reader.text());
                self.write_line(way, sink)
            }
            Ok(Line::TooLong) => {
                let way = self.text.show_long(self.reader.number());
                self.write_line(way, sink)
            }
            Ok(Line::End) => Some(self.write_end(sink)),
            Ok(Line::Limit { .. }) => Some(Status::Limit),
            Err(ReadFault) => Some(Status::ReadFault),
        }
    }

    /// Writes the text of the line that was read last and is shown in this way, or answers how showing ends.
    fn write_line<K: Sink>(&mut self, way: LineShown, sink: &mut K) -> Option<Status>
        requires { self.old.refused < MAX_SCRIPT_LINES }
        ensures none { IfNone result ((before : Seen) (left : Option (List ℕ)) (reads : ℕ) → HasReadLine
            before (seen left reads (K.written sink.old) (K.faults sink.old))
            self.old.reader self.old.refused self.old.text way → HasShown
            before (seen left reads (K.written sink.new) (K.faults sink.new))
            self.new.reader self.new.reader.number self.new.refused) }
        ensures some { IfSome result (λ status. (before : Seen) (left : Option (List ℕ)) (reads : ℕ) → HasReadLine
            before (seen left reads (K.written sink.old) (K.faults sink.old))
            self.old.reader self.old.refused self.old.text way → Shows
            before (seen left reads (K.written sink.new) (K.faults sink.new)) ⊥ status) }
        ensures reader { self.new.reader ≡ self.old.reader }
        ensures counted { self.new.refused ≤ self.old.refused + 1 }
    {
        self.refused += refusals_in(way);
        match write_all(sink, self.text.bytes()) {
            Ok(()) => None,
            Err(WriteFault) => Some(Status::WriteFault),
        }
    }

    /// Writes the line that ends the shown text, and answers how showing ends.
    fn write_end<K: Sink>(&mut self, sink: &mut K) -> Status
        ensures { (before : Seen) (left : Option (List ℕ)) (reads : ℕ) → HasReadAll
            before (seen left reads (K.written sink.old) (K.faults sink.old))
            self.old.reader.number self.old.refused → Shows
            before (seen left reads (K.written sink.new) (K.faults sink.new)) ⊥ result }
    {
        self.text.show_end(self.reader.number(), self.refused);
        match write_all(sink, self.text.bytes()) {
            Ok(()) => status_at_end(self.refused),
            Err(WriteFault) => Status::WriteFault,
        }
    }
}

/// How many lines are refused that are shown so.
fn refusals_in(way: LineShown) -> u32
    ensures { result ≡ refusals way }
{
    match way {
        LineShown::Refused => 1,
        LineShown::Right => 0,
    }
}

/// The status where the whole shown text was written.
fn status_at_end(refused: u32) -> Status
    ensures { result ≡ status_of_whole refused }
{
    if refused == 0 {
        Status::Done
    } else {
        Status::Refused
    }
}
