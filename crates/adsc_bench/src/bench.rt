//! All that the program does.
ghost use Rattle.std.specs.Prelude.{◌≡◌, ℕ, map};
ghost use Rattle.std.specs.String.{string_bytes};
ghost use Rattle.adsc_bench.specs.Making.{Makes};
ghost use Rattle.adsc_bench.specs.Running.{Runs};
ghost use Rattle.adsc_bench.specs.Seen.{seen};
ghost use Rattle.adsc_bench.specs.Showing.{Shows};
ghost use Rattle.adsc_bench.specs.Words.{AskForMake, AskForRun, AskForShow, IsListed};

use crate::making::make;
use crate::running::run;
use crate::showing::show;
use crate::status::Status;
use crate::words::{ask_for_make, ask_for_run, ask_for_show};
use adsc_io::{Sink, Source};
use adsc_run::Gate;
use std::alloc::Global;
use std::sync::Wait;
use std::thread::Threads;

/// Does what the words of the command line ask for, and answers how it ended.
///
/// `run N`, with N from 1 to 5, reads a script from the source, runs it on N workers, and writes its output to the sink. `show` reads
/// texts from the source and writes what they say. `make NUMBER LINES` generates the script of a number with so many lines, runs it on
/// five workers, and writes its summary; it reads nothing. The words are those behind the program's name. What each status promises is
/// stated by the clauses; want of memory alone is free. The gate is told of each entry that a worker of `run` takes.
pub fn top<Rt: Threads + Wait + Sync, S: Source, K: Sink, G: Gate>(
    rt: &Rt,
    alloc: Global,
    words: &[String],
    source: &mut S,
    sink: &mut K,
    gate: &G,
) -> Status
    // Words: exactly where the words have no listed form, and then nothing is read or written.
    ensures words_only { result ≡ Status.Words → IsListed (map string_bytes words.now) → ⊥ }
    ensures words_refused { (IsListed (map string_bytes words.now) → ⊥) → result ≡ Status.Words }
    ensures untouched { result ≡ Status.Words → (source.new ≡ source.old) × (sink.new ≡ sink.old) }
    // On `show`: what `show` promises.
    ensures shows { AskForShow (map string_bytes words.now) → Shows
        (seen (S.left source.old) (S.faults source.old) (K.written sink.old) (K.faults sink.old))
        (seen (S.left source.new) (S.faults source.new) (K.written sink.new) (K.faults sink.new))
        ((source.new ≡ source.old) × (sink.new ≡ sink.old)) result }
    // On `run N`: what `run` promises on so many workers.
    ensures runs { (workers : ℕ) → AskForRun workers (map string_bytes words.now) → Runs
        (seen (S.left source.old) (S.faults source.old) (K.written sink.old) (K.faults sink.old))
        (seen (S.left source.new) (S.faults source.new) (K.written sink.new) (K.faults sink.new))
        workers (sink.new ≡ sink.old) result }
    // On `make NUMBER LINES`: nothing is read, and what `make` promises of these two numbers.
    ensures makes { (number lines : ℕ) → AskForMake number lines (map string_bytes words.now) → (source.new ≡ source.old)
        × Makes number lines (K.written sink.old) (K.faults sink.old) (K.written sink.new) (K.faults sink.new) (sink.new ≡ sink.old) result }
{
    if ask_for_show(words) {
        return show(alloc, source, sink);
    }
    if let Some(workers) = ask_for_run(words) {
        return run(rt, alloc, workers, source, sink, gate);
    }
    if let Some((number, lines)) = ask_for_make(words) {
        return make(rt, alloc, number, lines, sink);
    }
    Status::Words
}
