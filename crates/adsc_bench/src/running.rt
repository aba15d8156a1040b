//! The command `run`.
ghost use Rattle.std.specs.Prelude.{◌≡◌, ◌≤◌};
ghost use Rattle.adsc_bench.specs.Running.{Runs, status_of_end};
ghost use Rattle.adsc_bench.specs.Seen.{seen};

use crate::status::Status;
use adsc_io::{Sink, Source, WriteFault};
use adsc_run::{Gate, RunFault, run_script, write_outcome};
use run_rules::{End, what_is_shown_was_accepted};
use std::alloc::Global;
use std::sync::Wait;
use std::thread::Threads;

/// Reads a script from the source, runs it on so many workers, and writes its output to the sink. This project's profile.
///
/// Lines are judged and carried out in order, up to the first bad line, or the limit of lines or bytes. The entries of a burst of
/// `U` and `B` lines are taken by the workers, which tell the gate of each. What each status promises is stated by the clause; want
/// of memory alone is free.
pub fn run<Rt: Threads + Wait + Sync, S: Source, K: Sink, G: Gate>(
    rt: &Rt,
    alloc: Global,
    workers: u8,
    source: &mut S,
    sink: &mut K,
    gate: &G,
) -> Status
    requires { (1 ≤ workers) × (workers ≤ 5) }
    ensures { Runs
        (seen (S.left source.old) (S.faults source.old) (K.written sink.old) (K.faults sink.old))
        (seen (S.left source.new) (S.faults source.new) (K.written sink.new) (K.faults sink.new))
        workers (sink.new ≡ sink.old) result }
{
    what_is_shown_was_accepted();
    let outcome = match run_script(rt, alloc, workers, source, gate) {
        Ok(outcome) => outcome,
        Err(RunFault::Read) => return Status::ReadFault,
        Err(RunFault::NoMemory) => return Status::NoMemory,
    };
    match write_outcome(sink, &outcome) {
        Ok(()) => status_of(outcome.end),
        Err(WriteFault) => Status::WriteFault,
    }
}

/// The status of a run that ended so.
fn status_of(end: End) -> Status
    ensures { result ≡ status_of_end end }
{
    match end {
        End::Done => Status::Done,
        End::Bad(_) => Status::BadLine,
        End::Limit { .. } => Status::Limit,
    }
}
