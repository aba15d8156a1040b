//! Passes of one shared craft, in one thread and in five. The text was made by another program,
//! from the tables of the formats.
ghost use Rattle.std.specs.Prelude.{◌≡◌, ◌<◌, ◌≤◌, [], ◌∷◌, All, IfOk, length};
ghost use Rattle.aircraft_core.specs.Entries.{IsTakenBy};
ghost use Rattle.aircraft_core.specs.Setting.{Setting};
ghost use Rattle.link_threads.specs.Passes.{IsPassOf};

use super::*;
use acars_envelope::{Address, Flight, Registration};
use aircraft_core::{Craft, Entry, Who};
use arrayvec::ArrayVec;
use due_event::Profile;
use flight_samples::Sample;
use std::alloc::Global;
use std::sync::Wait;
use std::test::Fail;
use std::thread;
use std::thread::Threads;

/// The ground addresses of the links.
const LINKS: [&[u8]; 5] = [b"AKLCDYA", b"NFFNDYA", b"NZZOXYA", b"KZAKXYA", b"YBBBXYA"];

/// The downlink that answers a demand of number 1 on the first link, with its newline.
const ANSWER: &[u8] = b"/AKLCDYA.ADS.N12345030107000000000000000000007E26\n";

/// How many entries each thread takes.
const EACH: u32 = 1000;

/// A craft with five links, whose first sample is all zeros.
fn craft(alloc: Global) -> Result<Craft, Fail>
    ensures { IfOk result (λ craft. length craft.setting.addresses ≡ 5) }
{
    let mut addresses = Vec::new(alloc);
    for name in &LINKS {
        addresses.push(Address::new(name).ok_or("an address")?)?;
    }
    if addresses.len() != 5 {
        return Err(Fail::from("five addresses"));
    }
    let who = Who {
        registration: Registration::new(b"N12345").ok_or("a registration")?,
        flight: Flight::new(b"ANZ1").ok_or("a flight")?,
        airframe: 0xC8_12_34,
        profile: Profile::One,
    };
    Ok(Craft::new(alloc, who, addresses.as_slice(), None, Sample::zero())?)
}

/// A demand of a basic report with this number, from this line, on one of five links.
fn demand(line: u32, link: u8, number: u8) -> Entry
    requires { link < 5 }
    ensures { (setting : Setting) → length setting.addresses ≡ 5 → IsTakenBy setting result }
{
    let mut bytes = ArrayVec::new();
    bytes.push(0x07);
    bytes.push(number);
    Entry::Uplink { line, link, bytes }
}

/// The entry of a thread at this count: a demand on the thread's own link.
fn entry_at(link: usize, count: u32) -> Entry
    requires link { link < 5 }
    requires count { count < 1000 }
    ensures { (setting : Setting) → length setting.addresses ≡ 5 → IsTakenBy setting result }
{
    demand(
        link as u32 * 10_000 + count,
        link as u8,
        (count % 255) as u8 + 1,
    )
}

/// A sharing of a craft with five links.
fn started(alloc: Global, count: usize) -> Result<(Shared, Vec<Pass>), Fail>
    requires { (1 ≤ count) × (count ≤ 6) }
    ensures links { IfOk result (λ made. length made.0.setting.addresses ≡ 5) }
    ensures count { IfOk result (λ made. made.0.passes ≡ count) }
    ensures passes { IfOk result (λ made. length made.1.items ≡ count) }
    ensures theirs { IfOk result (λ made. All (IsPassOf made.0) made.1.items) }
{
    match Shared::start(alloc, craft(alloc)?, count) {
        Ok(made) => Ok(made),
        Err(_) => Err(Fail::from("memory to start")),
    }
}

/// The craft after a sharing of five links.
fn closed(alloc: Global, shared: Shared, passes: Vec<Pass>) -> Result<Craft, Fail>
    requires links { length shared.setting.addresses ≡ 5 }
    requires passes { All (IsPassOf shared) passes.items }
    requires count { length passes.items ≡ shared.passes }
    ensures { IfOk result (λ craft. length craft.setting.addresses ≡ 5) }
{
    match shared.close(alloc, passes) {
        Ok(craft) => Ok(craft),
        Err(_) => Err(Fail::from("memory to close")),
    }
}

/// Takes an entry.
fn take<R: Wait>(
    rt: &R,
    alloc: Global,
    shared: &Shared,
    pass: &mut Pass,
    entry: Entry,
) -> Result<(), Fail>
    requires pass { IsPassOf shared.now pass.old }
    requires taken { IsTakenBy shared.now.setting entry }
    ensures { IsPassOf shared.now pass.new }
{
    match shared.take(rt, alloc, pass, entry) {
        Ok(()) => Ok(()),
        Err(_) => Err(Fail::from("memory to take")),
    }
}

/// The first pass takes a tick, of which it tells the second. That collects, takes a demand, and
/// collects again.
fn fly<R: Wait>(
    rt: &R,
    alloc: Global,
    shared: &Shared,
    first: &mut Pass,
    second: &mut Pass,
) -> Result<(Vec<u8>, Vec<u8>), Fail>
    requires links { length shared.now.setting.addresses ≡ 5 }
    requires first { IsPassOf shared.now first.old }
    requires second { IsPassOf shared.now second.old }
    ensures first { IsPassOf shared.now first.new }
    ensures second { IsPassOf shared.now second.new }
{
    take(rt, alloc, shared, first, Entry::Tick { line: 4, t: 5 })?;
    let note = shared.note(first);
    shared.meet(second, note);
    let before = shared.collect(rt, alloc, second, 0, 0)?;
    take(rt, alloc, shared, second, demand(5, 0, 1))?;
    let after = shared.collect(rt, alloc, second, 0, 0)?;
    Ok((before, after))
}

/// Two passes out of a list.
fn two(mut passes: Vec<Pass>) -> Result<(Pass, Pass), Fail>
    ensures { IfOk result (λ pair. passes.items ≡ pair.0 ∷ pair.1 ∷ []) }
{
    match (passes.pop(), passes.pop(), passes.pop()) {
        (Some(second), Some(first), None) => Ok((first, second)),
        _ => Err(Fail::from("two passes")),
    }
}

#[test]
fn two_passes_share_one_journal(rt: HostRuntime) -> Result<(), Fail> {
    let alloc = rt.alloc();
    let mut both = Vec::with_capacity(alloc, 2)?;
    let (shared, passes) = started(alloc, 2)?;
    let (mut first, mut second) = two(passes)?;
    let (before, after) = fly(&rt, alloc, &shared, &mut first, &mut second)?;
    assert_eq!(rt; before.as_slice(), [].as_slice());
    assert_eq!(rt; after.as_slice(), ANSWER);
    both.push_reserved(first);
    both.push_reserved(second);
    assert_eq!(rt; shared.passes(), 2);
    let craft = closed(alloc, shared, both)?;
    assert_eq!(rt; craft.journal().len(), 2);
    assert_eq!(rt; craft.outbox(0), ANSWER);
    Ok(())
}

/// Each of two passes takes a demand on a link of its own, and they tell each other of it. What each
/// then collects, from this place on.
fn meet<R: Wait>(
    rt: &R,
    alloc: Global,
    shared: &Shared,
    first: &mut Pass,
    second: &mut Pass,
    from: usize,
) -> Result<(Vec<u8>, Vec<u8>), Fail>
    requires links { length shared.now.setting.addresses ≡ 5 }
    requires first { IsPassOf shared.now first.old }
    requires second { IsPassOf shared.now second.old }
    ensures first { IsPassOf shared.now first.new }
    ensures second { IsPassOf shared.now second.new }
{
    take(rt, alloc, shared, first, demand(4, 0, 1))?;
    take(rt, alloc, shared, second, demand(5, 1, 1))?;
    let note = shared.note(first);
    shared.meet(second, note);
    let answer = shared.note(second);
    shared.meet(first, answer);
    let mine = shared.collect(rt, alloc, first, 0, from)?;
    let theirs = shared.collect(rt, alloc, second, 0, from)?;
    Ok((mine, theirs))
}

#[test]
fn passes_meet_through_notes(rt: HostRuntime) -> Result<(), Fail> {
    let alloc = rt.alloc();
    let (shared, passes) = started(alloc, 2)?;
    let (mut first, mut second) = two(passes)?;
    let (mine, theirs) = meet(&rt, alloc, &shared, &mut first, &mut second, 1)?;
    assert_eq!(rt; mine.as_slice(), &ANSWER[1..]);
    assert_eq!(rt; theirs.as_slice(), &ANSWER[1..]);
    let (mine, theirs) = meet(&rt, alloc, &shared, &mut second, &mut first, 1000)?;
    assert_eq!(rt; mine.as_slice(), [].as_slice());
    assert_eq!(rt; theirs.as_slice(), [].as_slice());
    Ok(())
}

/// A thread's work: it takes all its entries.
fn work<R: Wait>(rt: &R, alloc: Global, shared: &Shared, link: usize, pass: &mut Pass)
    requires link { link < 5 }
    requires links { length shared.now.setting.addresses ≡ 5 }
    requires pass { IsPassOf shared.now pass.old }
    ensures { IsPassOf shared.now pass.new }
{
    for count in 0..EACH {
        if shared.take(rt, alloc, pass, entry_at(link, count)).is_err() {
            return;
        }
    }
}

/// The work of five threads.
fn work_all<R: Threads + Wait + Sync>(rt: &R, alloc: Global, shared: &Shared, passes: &mut [Pass])
    requires links { length shared.now.setting.addresses ≡ 5 }
    requires five { length passes.old ≡ 5 }
    requires passes { All (IsPassOf shared.now) passes.old }
    ensures five { length passes.new ≡ 5 }
    ensures passes { All (IsPassOf shared.now) passes.new }
{
    thread::for_each_mut(
        rt,
        passes,
        5,
        &|link, pass| work(rt, alloc, shared, link, pass),
    );
}

/// The same entries in one thread, for one link.
fn apply_all(craft: &mut Craft, link: usize) -> Result<(), Fail>
    requires link { link < 5 }
    requires links { length craft.old.setting.addresses ≡ 5 }
    ensures { craft.new.setting ≡ craft.old.setting }
{
    for count in 0..EACH {
        craft.reserve()?;
        craft.apply(entry_at(link, count));
    }
    Ok(())
}

/// The craft of one thread, after all entries.
fn alone(alloc: Global) -> Result<Craft, Fail>
    ensures { IfOk result (λ craft. length craft.setting.addresses ≡ 5) }
{
    let mut craft = craft(alloc)?;
    for link in 0..5 {
        apply_all(&mut craft, link)?;
    }
    Ok(craft)
}

#[test]
fn five_threads_keep_their_order(rt: HostRuntime) -> Result<(), Fail> {
    let alloc = rt.alloc();
    let (shared, mut passes) = started(alloc, 5)?;
    work_all(&rt, alloc, &shared, passes.as_mut_slice());
    let craft = closed(alloc, shared, passes)?;
    let mut next = [0u32; 5];
    for entry in craft.journal() {
        let Entry::Uplink { line, link, .. } = entry else {
            return Err(Fail::from("an uplink"));
        };
        let link = usize::from(*link);
        assert!(rt; link < 5);
        assert_eq!(rt; *line, next[link].wrapping_add(link as u32 * 10_000));
        next[link] = next[link].wrapping_add(1);
    }
    assert_eq!(rt; next, [EACH; 5]);
    let alone = alone(alloc)?;
    for link in 0..5 {
        assert_eq!(rt; craft.outbox(link), alone.outbox(link), "on link {link}");
    }
    Ok(())
}
