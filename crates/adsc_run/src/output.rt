//! The text of an outcome.
ghost use Rattle.std.specs.Prelude.{ℕ, List};
ghost use Rattle.adsc_run.specs.OutcomeTexts.{IsOutcomeEnd, IsOutcomeText, IsWritten};
ghost use Rattle.adsc_run.specs.Outgoing.{PutsSuch, Writes, on_way};
ghost use Rattle.run_rules.specs.declared.end.End.{End as EndValue};
ghost use Rattle.run_rules.specs.declared.end.End.TheVariants.{Done};

mod centres;
mod ends;
mod journal;
mod links;
mod outgoing;
mod refused;

use crate::outcome::Outcome;
use adsc_io::{Sink, WriteFault};
use centres::put_centres;
use ends::{bad_line, limit_line};
use journal::put_journal;
use links::put_links_of;
use outgoing::Outgoing;
use refused::put_refused;
use run_rules::End;

/// Writes an outcome: its journal line, and then the lines of each link, of the refused texts and of the centres, and `OK`; or the
/// bad line, or the line of the limit. It takes no memory: what is written waits in a block of fixed size until that is full.
/// This project's profile.
///
/// `WriteFault` comes only where the sink's count of faults rose in this call, and then a beginning of the text was written that
/// isn't all of it.
pub fn write_outcome<K: Sink>(sink: &mut K, outcome: &Outcome) -> Result<(), WriteFault>
    ensures { (text : List ℕ) × IsWritten outcome.now text
        × Writes (K.written sink.old) (K.faults sink.old) (K.written sink.new) (K.faults sink.new) result text }
{
    let mut out = Outgoing::new();
    put_outcome(&mut out, sink, outcome);
    out.finish(sink)
}

/// Puts the text of an outcome.
fn put_outcome<K: Sink>(out: &mut Outgoing, sink: &mut K, outcome: &Outcome)
    ensures { PutsSuch (IsOutcomeText outcome.now)
        (on_way (K.written sink.old) (K.faults sink.old) out.old) (on_way (K.written sink.new) (K.faults sink.new) out.new) }
{
    put_journal(out, sink, &outcome.craft);
    put_end(out, sink, outcome);
}

/// Puts what stands behind the journal line.
fn put_end<K: Sink>(out: &mut Outgoing, sink: &mut K, outcome: &Outcome)
    ensures { PutsSuch (IsOutcomeEnd outcome.now outcome.now.end)
        (on_way (K.written sink.old) (K.faults sink.old) out.old) (on_way (K.written sink.new) (K.faults sink.new) out.new) }
{
    match outcome.end {
        End::Done => put_done(out, sink, outcome),
        End::Bad(bad) => out.put(sink, bad_line(bad).as_slice()),
        End::Limit { line } => out.put(sink, limit_line(line).as_slice()),
    }
}

/// Puts the lines of a run that was done.
fn put_done<K: Sink>(out: &mut Outgoing, sink: &mut K, outcome: &Outcome)
    ensures { PutsSuch (IsOutcomeEnd outcome.now Done)
        (on_way (K.written sink.old) (K.faults sink.old) out.old) (on_way (K.written sink.new) (K.faults sink.new) out.new) }
{
    put_links_of(out, sink, &outcome.craft);
    put_refused(out, sink, outcome.refused.as_slice());
    put_centres(out, sink, outcome.centres.as_slice());
    out.put(sink, b"OK\n");
}
