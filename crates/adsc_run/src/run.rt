//! The run of a script, from its source to its outcome.
ghost use Rattle.std.specs.Prelude.{◌≡◌, ◌≢◌, ◌<◌, ◌≤◌, ℕ, true, false, All, List, length, IfOk, IfSome, Err};
ghost use Rattle.std.specs.declared.option.Option.{Option as OptionValue};
ghost use Rattle.std.specs.Io.KnownBytes.{IsAtEnd};
ghost use Rattle.adsc_io.specs.Causes.{Rose};
ghost use Rattle.adsc_io.specs.declared.limits.TheConstants.{MAX_SCRIPT_LINES};
ghost use Rattle.run_rules.specs.Happenings.{Happening};
ghost use Rattle.run_rules.specs.declared.end.End.TheVariants.{Done};
ghost use Rattle.aircraft_core.specs.Entries.{IsTakenBy};
ghost use Rattle.adsc_run.specs.Courses.{KnowsEnds, StandsBehind};
ghost use Rattle.adsc_run.specs.Feeds.{IsReadableNext, found_in};
ghost use Rattle.adsc_run.specs.Outcomes.{IsOutcome};
ghost use Rattle.adsc_run.specs.UnderWay.{DidNext, EndsInHead, IsEnding, IsReadyFor, IsUnderWay};

use crate::burst::{MOST_WAITING, is_burst};
use crate::course::Course;
use crate::fault::RunFault;
use crate::feed::{Feed, Next};
use crate::gate::Gate;
use crate::head::{Stop, read_head};
use crate::outcome::Outcome;
use adsc_io::{NoMemory, Source};
use run_rules::{End, Reading};
use std::alloc::Global;
use std::sync::Wait;
use std::thread::Threads;

/// Reads a script from a source and runs it.
///
/// It reads a line, judges it and carries it out before it reads the next one, so it holds no more of the script than one line, one
/// piece, and the entries of a burst that wait. The entries of a burst of `U` and `B` lines are taken by so many workers, those of the
/// address at place `j` by worker `j mod workers`, each between two calls of the gate.
///
/// The outcome is that of the script under an order that so many workers may take. `Read` comes only where the source's count of
/// faults rose in this call; `NoMemory` is free. This project's profile.
pub fn run_script<R: Threads + Wait + Sync, S: Source, G: Gate>(
    rt: &R,
    alloc: Global,
    workers: u8,
    source: &mut S,
    gate: &G,
) -> Result<Outcome, RunFault>
    requires { (1 ≤ workers) × (workers ≤ 5) }
    ensures run { IfOk result (λ outcome. IfSome (S.left source.old) (λ bytes. IsOutcome bytes workers outcome)) }
    ensures done { IfOk result (λ outcome. outcome.end ≡ Done → IsAtEnd (S.left source.new)) }
    ensures read { result ≡ Err RunFault.Read → Rose (S.faults source.old) (S.faults source.new) }
    ensures kept { result ≢ Err RunFault.Read → S.faults source.new ≡ S.faults source.old }
{
    let Ok(mut feed) = Feed::new(alloc) else {
        return Err(RunFault::NoMemory);
    };
    let craft = match read_head(alloc, &mut feed, source) {
        Ok(craft) => craft,
        Err(Stop::Ended(end)) => return Ok(without_craft(alloc, end)),
        Err(Stop::Fault(fault)) => return Err(fault),
    };
    let Ok(course) = Course::new(alloc, craft) else {
        return Err(RunFault::NoMemory);
    };
    course.fly(rt, alloc, workers, &mut feed, source, gate)
}

/// The outcome of a run that ends so in its head.
fn without_craft(alloc: Global, end: End) -> Outcome
    ensures of_bytes { (bytes : List ℕ) (workers : ℕ) → EndsInHead bytes end → IsOutcome bytes workers result }
    ensures end { result.end ≡ end }
{
    Outcome {
        craft: None,
        refused: Vec::new(alloc),
        centres: Vec::new(alloc),
        end,
    }
}

impl Course {
    /// Carries out the lines behind the head, one after the other, up to the end of the run.
    fn fly<R: Threads + Wait + Sync, S: Source, G: Gate>(
        self,
        rt: &R,
        alloc: Global,
        workers: u8,
        feed: &mut Feed,
        source: &mut S,
        gate: &G,
    ) -> Result<Outcome, RunFault>
        requires some { 1 ≤ workers }
        requires most { workers ≤ 5 }
        requires under_way { (before : OptionValue (List ℕ)) × IsUnderWay workers before (S.left source.old) feed.old.lines self }
        ensures run { IfOk result (λ outcome. (before : OptionValue (List ℕ)) → IsUnderWay workers before (S.left source.old) feed.old.lines self
            → IfSome before (λ bytes. IsOutcome bytes workers outcome)) }
        ensures done { IfOk result (λ outcome. outcome.end ≡ Done → IsAtEnd (S.left source.new)) }
        ensures read { result ≡ Err RunFault.Read → Rose (S.faults source.old) (S.faults source.new) }
        ensures kept { result ≢ Err RunFault.Read → S.faults source.new ≡ S.faults source.old }
    {
        let mut course = self;
        let mut next = feed.next(source)?;
        loop {
            if course.must_enter(next, &feed.reading) {
                let Ok(entered) = course.enter_burst(rt, alloc, workers, gate) else {
                    return Err(RunFault::NoMemory);
                };
                course = entered;
                continue;
            }
            match course.carry_out(feed.number(), next, &feed.reading) {
                Ok(None) => next = feed.next(source)?,
                Ok(Some(end)) => return course.finish(rt, alloc, workers, end, gate),
                Err(NoMemory) => return Err(RunFault::NoMemory),
            }
        }
    }

    /// Whether the entries that wait are entered before what stands next, where a line is read so: before anything but a line of their burst, and where they
    /// are as many as may wait.
    fn must_enter(&self, next: Next, reading: &Reading) -> bool
        ensures waits { result ≡ true → 0 < length self.now.burst.items }
        ensures ready { result ≡ false → IsReadyFor self.now (found_in reading.now next) }
    {
        match next {
            Next::Line if is_burst(reading) => self.burst.len() >= MOST_WAITING,
            _ => !self.burst.is_empty(),
        }
    }

    /// Carries out what stands next, behind the line of this number or as that line; answers how the run ends with it, if it does.
    fn carry_out(
        &mut self,
        number: u32,
        next: Next,
        reading: &Reading,
    ) -> Result<Option<End>, NoMemory>
        requires few { length self.old.craft.setting.addresses ≤ 64 }
        requires count { length self.old.stations.items ≡ length self.old.craft.setting.addresses }
        requires ends { KnowsEnds self.old }
        requires readable { IsReadableNext (found_in reading.now next) }
        requires number { number ≤ MAX_SCRIPT_LINES }
        ensures { (log : List Happening) → StandsBehind self.old log → IfOk result (DidNext (found_in reading.now next) number log self.old self.new) }
    {
        match next {
            Next::Line => self.take(number, reading),
            Next::End => Ok(Some(End::Done)),
            Next::Limit => Ok(Some(End::Limit { line: number + 1 })),
        }
    }

    /// The outcome of a run that ends so, once what waits is entered.
    fn finish<R: Threads + Wait + Sync, G: Gate>(
        self,
        rt: &R,
        alloc: Global,
        workers: u8,
        end: End,
        gate: &G,
    ) -> Result<Outcome, RunFault>
        requires some { 1 ≤ workers }
        requires most { workers ≤ 5 }
        requires taken { All (IsTakenBy self.craft.setting) self.burst.items }
        ensures run { IfOk result (λ outcome. (before now : OptionValue (List ℕ)) → IsEnding workers before now self end
            → IfSome before (λ bytes. IsOutcome bytes workers outcome)) }
        ensures end { IfOk result (λ outcome. outcome.end ≡ end) }
        ensures unread { result ≢ Err RunFault.Read }
    {
        let Ok(entered) = self.enter_burst(rt, alloc, workers, gate) else {
            return Err(RunFault::NoMemory);
        };
        match entered.ended(alloc, end) {
            Ok(outcome) => Ok(outcome),
            Err(NoMemory) => Err(RunFault::NoMemory),
        }
    }
}
