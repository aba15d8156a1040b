//! The command `make`.
ghost use Rattle.std.specs.Prelude.{◌≡◌, ◌≤◌, IfOk};
ghost use Rattle.adsc_bench.specs.Making.{IsSummary, Makes};
ghost use Rattle.adsc_run.specs.Outcomes.{IsOutcome};
ghost use Rattle.generated_scripts.specs.Generator.{made_script};

use crate::status::Status;
use adsc_io::{NoMemory, Sink, SteadySource, WriteFault, write_all};
use adsc_run::{Free, Outcome, RunFault, run_script};
use generated_scripts::{
    a_generated_script_has_one_summary, each_line_is_taken, generate_script, summarize,
};
use std::alloc::Global;
use std::sync::Wait;
use std::thread::Threads;

/// How many workers run a generated script.
const WORKERS: u8 = 5;

/// How many bytes of a generated script a read gives at most.
const PIECE: usize = 4_096;

/// Generates the script of this number with so many lines, runs it on five workers, and writes the summary of the run to the sink. This
/// project's profile.
///
/// The summary is one function of the two numbers, in whichever order the workers take the entries. What each status promises is stated
/// by the clause; want of memory alone is free.
pub fn make<Rt: Threads + Wait + Sync, K: Sink>(
    rt: &Rt,
    alloc: Global,
    number: u32,
    lines: u32,
    sink: &mut K,
) -> Status
    requires { (3 ≤ lines) × (lines ≤ 200000) }
    ensures { Makes number lines (K.written sink.old) (K.faults sink.old) (K.written sink.new) (K.faults sink.new) (sink.new ≡ sink.old) result }
{
    let Ok(summary) = summary_of(rt, alloc, number, lines) else {
        return Status::NoMemory;
    };
    match write_all(sink, summary.as_slice()) {
        Ok(()) => Status::Done,
        Err(WriteFault) => Status::WriteFault,
    }
}

/// The summary of the script of this number with so many lines. Memory is the only thing that can be wanting.
fn summary_of<Rt: Threads + Wait + Sync>(
    rt: &Rt,
    alloc: Global,
    number: u32,
    lines: u32,
) -> Result<Vec<u8>, NoMemory>
    requires { (3 ≤ lines) × (lines ≤ 200000) }
    ensures { IfOk result (λ text. IsSummary number lines text.items) }
{
    each_line_is_taken();
    a_generated_script_has_one_summary();
    let outcome = outcome_of(rt, alloc, number, lines)?;
    match &outcome.craft {
        Some(craft) => summarize(alloc, number, lines, craft, outcome.refused.len()),
        // There is an aircraft: each line is taken.
        None => unreachable!(),
    }
}

/// The outcome of the script of this number with so many lines, run on five workers. Memory is the only thing that can be wanting.
fn outcome_of<Rt: Threads + Wait + Sync>(
    rt: &Rt,
    alloc: Global,
    number: u32,
    lines: u32,
) -> Result<Outcome, NoMemory>
    requires { (3 ≤ lines) × (lines ≤ 200000) }
    ensures { IfOk result (λ outcome. IsOutcome (made_script number lines) 5 outcome) }
{
    let script = generate_script(alloc, number, lines)?;
    let mut source = SteadySource::new(alloc, script.as_slice(), PIECE)?;
    match run_script(rt, alloc, WORKERS, &mut source, &Free) {
        Ok(outcome) => Ok(outcome),
        Err(RunFault::NoMemory) => Err(NoMemory),
        // No read of a steady source fails.
        Err(RunFault::Read) => unreachable!(),
    }
}
