//! What each worker takes of a burst.
ghost use Rattle.std.specs.Prelude.{◌≡◌, ◌<◌, ◌≤◌, ◌↔◌, ◌%◌, ◌==◌, IsTrue, [], ◌∷◌, ◌++◌, filter, length, IfOk, OnOk, slice_index_or, slice_set};
ghost use Rattle.std.specs.List.{AllPass};
ghost use Rattle.run_rules.specs.EarlierLines.{AreWorkersLists, text_link as link_of_text};
ghost use Rattle.adsc_run.specs.Lists.{AreBusyLists, AreOfOneWorker, is_filled, lists_in};

use adsc_io::NoMemory;
use aircraft_core::Entry;
use std::alloc::Global;

/// Whether one of so many workers takes all of these entries.
pub(crate) fn are_of_one(workers: u8, burst: &[Entry]) -> bool
    requires { 1 ≤ workers }
    ensures { IsTrue result ↔ AreOfOneWorker workers burst.now }
{
    match burst.first() {
        None => true,
        Some(first) => takes_all(workers, text_link(first) % workers, burst),
    }
}

/// Whether this one of so many workers takes all of these entries.
fn takes_all(workers: u8, worker: u8, burst: &[Entry]) -> bool
    requires { 1 ≤ workers }
    ensures { IsTrue result ↔ AllPass (λ entry. link_of_text entry % workers == worker) burst.now }
{
    burst
        .iter()
        .all(|entry| text_link(entry) % workers == worker)
}

/// What each of so many workers takes of these entries, in order; there is no list of a worker that takes none.
pub(crate) fn busy_lists(
    alloc: Global,
    workers: u8,
    burst: Vec<Entry>,
) -> Result<Vec<Vec<Entry>>, NoMemory>
    requires { 1 ≤ workers }
    ensures { IfOk result (λ busy. AreBusyLists workers burst.items (lists_in busy.items)) }
{
    let lists = lists_of(alloc, workers, burst)?;
    filled(alloc, lists)
}

/// What each of so many workers takes of these entries, in order.
fn lists_of(alloc: Global, workers: u8, burst: Vec<Entry>) -> Result<Vec<Vec<Entry>>, NoMemory>
    requires { 1 ≤ workers }
    ensures { IfOk result (λ lists. AreWorkersLists workers burst.items (lists_in lists.items)) }
{
    let mut lists = empty_lists(alloc, workers)?;
    for entry in burst {
        let worker = text_link(&entry) % workers;
        give(&mut lists, worker, entry)?;
    }
    Ok(lists)
}

/// An empty list for each worker.
fn empty_lists(alloc: Global, workers: u8) -> Result<Vec<Vec<Entry>>, NoMemory>
    requires { 1 ≤ workers }
    ensures { IfOk result (λ lists. AreWorkersLists workers [] (lists_in lists.items)) }
{
    let mut lists = Vec::new(alloc);
    for _worker in 0..workers {
        lists.push(Vec::new(alloc))?;
    }
    Ok(lists)
}

/// Puts an entry at the end of a worker's list.
fn give(lists: &mut Vec<Vec<Entry>>, worker: u8, entry: Entry) -> Result<(), NoMemory>
    requires { worker < length lists.old.items }
    ensures { OnOk result (lists_in lists.new.items ≡ slice_set (lists_in lists.old.items) worker (slice_index_or (lists_in lists.old.items) worker [] ++ entry ∷ [])) }
{
    lists[usize::from(worker)].push(entry)?;
    Ok(())
}

/// The link on which a text came that made this entry; 0 for an entry that no text made.
fn text_link(entry: &Entry) -> u8
    ensures { result ≡ link_of_text entry.now }
{
    match entry {
        Entry::Uplink { link, .. } | Entry::Answer { link, .. } => *link,
        _ => 0,
    }
}

/// Those of the lists that have an entry.
fn filled(alloc: Global, lists: Vec<Vec<Entry>>) -> Result<Vec<Vec<Entry>>, NoMemory>
    ensures { IfOk result (λ busy. lists_in busy.items ≡ filter is_filled (lists_in lists.items)) }
{
    let mut busy = Vec::new(alloc);
    for list in lists {
        if !list.is_empty() {
            busy.push(list)?;
        }
    }
    Ok(busy)
}
