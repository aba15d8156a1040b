//! The workers of a burst, which take its entries at once: one of them on the thread of the run, each other on a thread of its own.
ghost use Rattle.std.specs.Prelude.{◌≡◌, ◌≢◌, ℕ, ◌<◌, ◌≤◌, [], ◌++◌, All, length, map, IfOk, OnOk, IsOk, slice_index_or};
ghost use Rattle.aircraft_core.specs.Entries.{IsTakenBy, line_of as line_of_entry};
ghost use Rattle.link_threads.specs.Passes.{IsLeftBy, IsNewPassOf, IsPassOf};
ghost use Rattle.adsc_run.specs.Lists.{lists_in};
ghost use Rattle.adsc_run.specs.Workers.{HasWorked, HaveEntered, IsReady, entries_of, passes_in};
ghost use Rattle.adsc_run.specs.declared.workers.Worker.{Worker as WorkerValue};

use crate::gate::Gate;
use crate::lists::{are_of_one, busy_lists};
use adsc_io::NoMemory;
use aircraft_core::{Craft, Entry};
use link_threads::{Pass, Shared};
use std::alloc::Global;
use std::sync::Wait;
use std::thread::Threads;
use std::{mem, thread};

/// Enters these entries into the craft's journal, by those workers that take any of them. Where that is one, the craft isn't shared.
pub(crate) fn enter_all<R: Threads + Wait + Sync, G: Gate>(
    rt: &R,
    alloc: Global,
    workers: u8,
    craft: Craft,
    burst: Vec<Entry>,
    gate: &G,
) -> Result<Craft, NoMemory>
    requires some { 1 ≤ workers }
    requires most { workers ≤ 5 }
    requires any { burst.items ≢ [] }
    requires taken { All (IsTakenBy craft.setting) burst.items }
    ensures { IfOk result (HaveEntered workers burst.items craft) }
{
    if are_of_one(workers, burst.as_slice()) {
        return enter_in_order(craft, burst, gate);
    }
    enter_at_once(rt, alloc, workers, craft, burst, gate)
}

/// Enters these entries into the craft's journal in their order, each between two calls of the gate.
fn enter_in_order<G: Gate>(craft: Craft, entries: Vec<Entry>, gate: &G) -> Result<Craft, NoMemory>
    requires { All (IsTakenBy craft.setting) entries.items }
    ensures journal { IfOk result (λ after. after.journal ≡ craft.journal ++ entries.items) }
    ensures setting { IfOk result (λ after. after.setting ≡ craft.setting) }
{
    let mut craft = craft;
    for entry in entries {
        let line = line_of(&entry);
        gate.before(line);
        craft.reserve()?;
        craft.apply(entry);
        gate.after(line);
    }
    Ok(craft)
}

/// Enters these entries into the craft's journal, by workers that share the craft and run at once.
fn enter_at_once<R: Threads + Wait + Sync, G: Gate>(
    rt: &R,
    alloc: Global,
    workers: u8,
    craft: Craft,
    burst: Vec<Entry>,
    gate: &G,
) -> Result<Craft, NoMemory>
    requires some { 1 ≤ workers }
    requires most { workers ≤ 5 }
    requires any { burst.items ≢ [] }
    requires taken { All (IsTakenBy craft.setting) burst.items }
    ensures { IfOk result (HaveEntered workers burst.items craft) }
{
    let lists = busy_lists(alloc, workers, burst)?;
    let (shared, passes) = share(alloc, craft, lists.len())?;
    let mut crew = crew_of(alloc, passes, lists)?;
    work_all(rt, alloc, &shared, crew.as_mut_slice(), gate);
    let passes = passes_of(alloc, crew)?;
    close(alloc, shared, passes)
}

/// Shares the craft, with so many passes.
fn share(alloc: Global, craft: Craft, count: usize) -> Result<(Shared, Vec<Pass>), NoMemory>
    requires { (1 ≤ count) × (count ≤ 5) }
    ensures setting { IfOk result (λ made. made.0.setting ≡ craft.setting) }
    ensures start { IfOk result (λ made. made.0.start ≡ craft.journal) }
    ensures passes { IfOk result (λ made. made.0.passes ≡ count) }
    ensures made { IfOk result (λ made. length made.1.items ≡ count) }
    ensures new { IfOk result (λ made. All (IsNewPassOf made.0) made.1.items) }
{
    match Shared::start(alloc, craft, count) {
        Ok(made) => Ok(made),
        Err(_) => Err(NoMemory),
    }
}

/// A worker for each of the lists, with a pass.
fn crew_of(
    alloc: Global,
    mut passes: Vec<Pass>,
    mut lists: Vec<Vec<Entry>>,
) -> Result<Vec<Worker>, NoMemory>
    requires { length passes.items ≡ length lists.items }
    ensures passes { IfOk result (λ crew. passes_in crew.items ≡ passes.items) }
    ensures entries { IfOk result (λ crew. map entries_of crew.items ≡ lists_in lists.items) }
{
    let mut crew = Vec::new(alloc);
    while !lists.is_empty() {
        crew.push(Worker {
            pass: passes.remove(0),
            entries: lists.remove(0),
            taken: Ok(()),
        })?;
    }
    Ok(crew)
}

/// Has all workers take their entries at once.
fn work_all<R: Threads + Wait + Sync, G: Gate>(
    rt: &R,
    alloc: Global,
    shared: &Shared,
    crew: &mut [Worker],
    gate: &G,
)
    requires { All (IsReady shared.now) crew.old }
    ensures count { length crew.new ≡ length crew.old }
    ensures worked { (place : ℕ) (any : WorkerValue) → place < length crew.old
        → HasWorked shared.now (slice_index_or crew.old place any) (slice_index_or crew.new place any) }
{
    thread::for_each_mut(
        rt,
        crew,
        5,
        &|_, worker: &mut Worker|
            requires { IsReady shared.now worker.now }
            ensures { HasWorked shared.entry.now worker.entry.now worker.exit.now }
        { worker.work(rt, alloc, shared, gate) },
    );
}

/// The passes of workers that have taken their entries.
fn passes_of(alloc: Global, crew: Vec<Worker>) -> Result<Vec<Pass>, NoMemory>
    ensures passes { IfOk result (λ passes. passes.items ≡ passes_in crew.items) }
    ensures taken { OnOk result (All (λ worker. IsOk worker.taken) crew.items) }
{
    let mut passes = Vec::new(alloc);
    for worker in crew {
        let Worker { pass, taken, .. } = worker;
        taken?;
        passes.push(pass)?;
    }
    Ok(passes)
}

/// The craft, once all passes are back.
fn close(alloc: Global, shared: Shared, passes: Vec<Pass>) -> Result<Craft, NoMemory>
    requires own { All (IsPassOf shared) passes.items }
    requires count { length passes.items ≡ shared.passes }
    ensures { IfOk result (IsLeftBy shared passes.items) }
{
    match shared.close(alloc, passes) {
        Ok(craft) => Ok(craft),
        Err(_) => Err(NoMemory),
    }
}

/// A worker: its pass, the entries that it takes, and whether there was the memory to take them.
#[derive(Drop)]
pub(crate) struct Worker {
    pass: Pass,
    entries: Vec<Entry>,
    taken: Result<(), NoMemory>,
}

impl Worker {
    /// Takes its entries.
    fn work<R: Wait, G: Gate>(&mut self, rt: &R, alloc: Global, shared: &Shared, gate: &G)
        requires { IsReady shared.now self.old }
        ensures { HasWorked shared.now self.old self.new }
    {
        let entries = mem::replace(&mut self.entries, Vec::new(alloc));
        self.taken = take_all(rt, alloc, shared, &mut self.pass, entries, gate);
    }
}

/// Takes these entries in order, each between two calls of the gate.
fn take_all<R: Wait, G: Gate>(
    rt: &R,
    alloc: Global,
    shared: &Shared,
    pass: &mut Pass,
    entries: Vec<Entry>,
    gate: &G,
) -> Result<(), NoMemory>
    requires own { IsPassOf shared.now pass.old }
    requires taken { All (IsTakenBy shared.now.setting) entries.items }
    ensures own { IsPassOf shared.now pass.new }
    ensures mine { OnOk result (pass.new.mine ≡ pass.old.mine ++ entries.items) }
{
    for entry in entries {
        let line = line_of(&entry);
        gate.before(line);
        if shared.take(rt, alloc, pass, entry).is_err() {
            return Err(NoMemory);
        }
        gate.after(line);
    }
    Ok(())
}

/// The number of the line that brought the entry.
pub(crate) fn line_of(entry: &Entry) -> u32
    ensures { result ≡ line_of_entry entry.now }
{
    match entry {
        Entry::Uplink { line, .. }
        | Entry::Answer { line, .. }
        | Entry::Sample { line, .. }
        | Entry::Tick { line, .. }
        | Entry::Crew { line, .. }
        | Entry::Logon { line, .. } => *line,
    }
}
