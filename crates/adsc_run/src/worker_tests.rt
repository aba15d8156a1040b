//! Bursts on several workers, under gates that make one worker wait for another. The texts were made by another program, from the
//! tables of the formats.
ghost use Rattle.std.specs.Prelude.{◌≤◌};

use super::*;
use crate::workers::line_of;
use adsc_io::MemSource;
use aircraft_core::Craft;
use std::alloc::Global;
use std::sync::Wait;
use std::sync::atomic::{AtomicBool, Ordering};
use std::test::Fail;
use std::thread;
use std::thread::Threads;

/// A tick, and then a burst of a demand on each of five links, at lines 5 to 9.
const FIVE_DEMANDS: &[u8] =
    b"A,N12345,ANZ1,C81234\nG,GRND001,GRND002,GRND003,GRND004,GRND005\nS,0,0,0,0,0,0,0,0,0,0,0,0,0,0,0,0,0,0,0,0,0,0,0,0,0,0\nT,0\nU,/GRND001.ADS.N123450701BD4F\nU,/GRND002.ADS.N123450701BD4F\nU,/GRND003.ADS.N123450701BD4F\nU,/GRND004.ADS.N123450701BD4F\nU,/GRND005.ADS.N123450701BD4F\n";

/// How often a gate looks for what it waits for, at most.
const TURNS: u32 = 1_000_000_000;

/// Waits until the flag is raised, and says whether it was.
fn is_raised(flag: &AtomicBool) -> bool {
    for _ in 0..TURNS {
        if flag.load(Ordering::SeqCst) {
            return true;
        }
        thread::yield_now();
    }
    false
}

/// Raises the flag.
fn raise(flag: &AtomicBool) {
    flag.store(true, Ordering::SeqCst);
}

/// The craft after the demands, which so many workers take under this gate.
fn flown<R: Threads + Wait + Sync, G: Gate>(
    rt: &R,
    alloc: Global,
    workers: u8,
    gate: &G,
) -> Result<Craft, Fail>
    requires { (1 ≤ workers) × (workers ≤ 5) }
{
    let mut source = MemSource::new(alloc, FIVE_DEMANDS, 1_000, &[])?;
    let Ok(outcome) = run_script(rt, alloc, workers, &mut source, gate) else {
        return Err(Fail::from("a script that is run"));
    };
    let Outcome { craft, .. } = outcome;
    match craft {
        Some(craft) => Ok(craft),
        None => Err(Fail::from("a craft")),
    }
}

/// The lines of the craft's journal.
fn lines_of(alloc: Global, craft: &Craft) -> Result<Vec<u32>, Fail> {
    let mut lines = Vec::new(alloc);
    for entry in craft.journal() {
        lines.push(line_of(entry))?;
    }
    Ok(lines)
}

#[test]
fn one_worker_takes_the_lines_in_order(rt: HostRuntime) -> Result<(), Fail> {
    let alloc = rt.alloc();
    let craft = flown(&rt, alloc, 1, &Free)?;
    let lines = lines_of(alloc, &craft)?;
    assert_eq!(rt; lines.as_slice(), [4, 5, 6, 7, 8, 9].as_slice());
    Ok(())
}

/// Holds line 5 until line 6 was taken.
#[derive(Drop)]
struct SixFirst {
    six: AtomicBool,
}

impl Gate for SixFirst {
    fn before(&self, line: u32) {
        if line == 5 {
            is_raised(&self.six);
        }
    }

    fn after(&self, line: u32) {
        if line == 6 {
            raise(&self.six);
        }
    }
}

#[test]
fn a_line_that_is_held_stands_behind_the_next(rt: HostRuntime) -> Result<(), Fail> {
    let alloc = rt.alloc();
    let gate = SixFirst {
        six: AtomicBool::new(false),
    };
    let craft = flown(&rt, alloc, 5, &gate)?;
    let lines = lines_of(alloc, &craft)?;
    let lines = lines.as_slice();
    let five = lines.iter().position(|line| *line == 5);
    let six = lines.iter().position(|line| *line == 6);
    assert!(rt; five > six);
    assert!(rt; six.is_some());
    assert_eq!(rt; lines.len(), 6);
    Ok(())
}

#[test]
fn links_send_the_same_on_any_number_of_workers(rt: HostRuntime) -> Result<(), Fail> {
    let alloc = rt.alloc();
    let alone = flown(&rt, alloc, 1, &Free)?;
    for workers in 2..6 {
        let craft = flown(&rt, alloc, workers, &Free)?;
        assert_eq!(rt; craft.links(), 5);
        assert_eq!(rt; alone.links(), 5);
        for link in 0..5 {
            assert_eq!(rt; craft.outbox(link), alone.outbox(link), "on link {link}");
        }
    }
    Ok(())
}

/// Lines 5 and 6 each raise a flag before they are taken, and wait for that of the other.
#[derive(Drop)]
struct BothAtOnce {
    five: AtomicBool,
    six: AtomicBool,
    five_saw: AtomicBool,
    six_saw: AtomicBool,
}

impl Gate for BothAtOnce {
    fn before(&self, line: u32) {
        if line == 5 {
            raise(&self.five);
            if is_raised(&self.six) {
                raise(&self.five_saw);
            }
        }
        if line == 6 {
            raise(&self.six);
            if is_raised(&self.five) {
                raise(&self.six_saw);
            }
        }
    }

    fn after(&self, _line: u32) {}
}

#[test]
fn two_workers_run_at_once(rt: HostRuntime) -> Result<(), Fail> {
    let alloc = rt.alloc();
    let gate = BothAtOnce {
        five: AtomicBool::new(false),
        six: AtomicBool::new(false),
        five_saw: AtomicBool::new(false),
        six_saw: AtomicBool::new(false),
    };
    flown(&rt, alloc, 5, &gate)?;
    assert!(rt; gate.five_saw.load(Ordering::SeqCst));
    assert!(rt; gate.six_saw.load(Ordering::SeqCst));
    Ok(())
}
