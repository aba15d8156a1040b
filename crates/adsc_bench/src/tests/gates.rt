//! Bursts under gates, by the words of the command line: that workers run at once, and what a gate is told.
use super::*;
use std::sync::atomic::{AtomicBool, AtomicU64, Ordering};
use std::thread;

/// A tick, and then a burst of a demand on each of five links, at lines 5 to 9.
const FIVE_DEMANDS: &str = "\
A,N12345,ANZ1,C81234
G,GRND001,GRND002,GRND003,GRND004,GRND005
S,0,0,0,0,0,0,0,0,0,0,0,0,0,0,0,0,0,0,0,0,0,0,0,0,0,0
T,0
U,/GRND001.ADS.N123450701BD4F
U,/GRND002.ADS.N123450701BD4F
U,/GRND003.ADS.N123450701BD4F
U,/GRND004.ADS.N123450701BD4F
U,/GRND005.ADS.N123450701BD4F
";

/// What is written of it, behind the journal's line.
const FIVE_ANSWERS: &str = "
L,GRND001,none
D,/GRND001.ADS.N12345030107000000000000000000007E26
L,GRND002,none
D,/GRND002.ADS.N12345030107000000000000000000007E26
L,GRND003,none
D,/GRND003.ADS.N12345030107000000000000000000007E26
L,GRND004,none
D,/GRND004.ADS.N12345030107000000000000000000007E26
L,GRND005,none
D,/GRND005.ADS.N12345030107000000000000000000007E26
OK
";

/// How often a gate looks for what it waits for, at most.
const TURNS: u32 = 1_000_000_000;

/// Waits until the flag is raised, and says whether it was.
fn is_raised(flag: &AtomicBool) -> bool {
    for _ in 0..TURNS {
        if flag.load(Ordering::SeqCst) {
            return true;
        }
        thread::yield_now();
    }
    false
}

/// Raises the flag.
fn raise(flag: &AtomicBool) {
    flag.store(true, Ordering::SeqCst);
}

/// Where this piece first stands in the text.
fn place_of(text: &[u8], piece: &[u8; 2]) -> Option<usize> {
    text.windows(2).position(|two| two == piece.as_slice())
}

/// Holds line 5 until line 6 was taken.
#[derive(Drop)]
struct SixFirst {
    six: AtomicBool,
}

impl Gate for SixFirst {
    fn before(&self, line: u32) {
        if line == 5 {
            is_raised(&self.six);
        }
    }

    fn after(&self, line: u32) {
        if line == 6 {
            raise(&self.six);
        }
    }
}

#[test]
fn a_line_that_is_held_stands_behind_the_next(rt: HostRuntime) -> Result<(), Fail> {
    let alloc = rt.alloc();
    let (_, alone) = played(&rt, alloc, &["run", "1"], FIVE_DEMANDS.as_bytes(), 1_007)?;
    assert!(rt; alone.starts_with(b"J,4,5,6,7,8,9\n"));
    assert_eq!(rt;
        behind_first_line(alone.as_slice()),
        FIVE_ANSWERS.as_bytes()
    );

    let gate = SixFirst {
        six: AtomicBool::new(false),
    };
    let (status, written) = played_under(
        &rt,
        alloc,
        &["run", "5"],
        FIVE_DEMANDS.as_bytes(),
        1_007,
        &gate,
    )?;
    assert_eq!(rt; status, Status::Done);
    assert_eq!(rt;
        behind_first_line(written.as_slice()),
        FIVE_ANSWERS.as_bytes()
    );
    assert_eq!(rt; written.len(), alone.len());
    let five = place_of(written.as_slice(), b",5");
    let six = place_of(written.as_slice(), b",6");
    assert!(rt; six.is_some());
    assert!(rt; five > six);
    Ok(())
}

/// Lines 5 and 6 each raise a flag before they are taken, and wait for that of the other.
#[derive(Drop)]
struct BothAtOnce {
    five: AtomicBool,
    six: AtomicBool,
    five_saw: AtomicBool,
    six_saw: AtomicBool,
}

impl Gate for BothAtOnce {
    fn before(&self, line: u32) {
        if line == 5 {
            raise(&self.five);
            if is_raised(&self.six) {
                raise(&self.five_saw);
            }
        }
        if line == 6 {
            raise(&self.six);
            if is_raised(&self.five) {
                raise(&self.six_saw);
            }
        }
    }

    fn after(&self, _line: u32) {}
}

#[test]
fn two_workers_run_at_once(rt: HostRuntime) -> Result<(), Fail> {
    let alloc = rt.alloc();
    let gate = BothAtOnce {
        five: AtomicBool::new(false),
        six: AtomicBool::new(false),
        five_saw: AtomicBool::new(false),
        six_saw: AtomicBool::new(false),
    };
    let (status, written) = played_under(
        &rt,
        alloc,
        &["run", "5"],
        FIVE_DEMANDS.as_bytes(),
        1_007,
        &gate,
    )?;
    assert_eq!(rt; status, Status::Done);
    assert_eq!(rt;
        behind_first_line(written.as_slice()),
        FIVE_ANSWERS.as_bytes()
    );
    assert!(rt; gate.five_saw.load(Ordering::SeqCst));
    assert!(rt; gate.six_saw.load(Ordering::SeqCst));
    Ok(())
}

/// A gate that counts what it is told, by the line: four bits for each line below 16. And it keeps the order of what
/// it is told, where one worker tells it: five bits each, the line and whether its entry was taken.
#[derive(Debug, Drop)]
struct Counting {
    befores: AtomicU64,
    afters: AtomicU64,
    told: AtomicU64,
}

impl Counting {
    /// Nothing was told.
    fn new() -> Counting {
        Counting {
            befores: AtomicU64::new(0),
            afters: AtomicU64::new(0),
            told: AtomicU64::new(0),
        }
    }

    /// Keeps what is told behind what was told before.
    fn keep(&self, line: u32, taken: u64) {
        let told = self.told.load(Ordering::SeqCst);
        let next = told
            .wrapping_mul(32)
            .wrapping_add(u64::from(line).wrapping_mul(2))
            .wrapping_add(taken);
        self.told.store(next, Ordering::SeqCst);
    }
}

/// One for the line of this number, below 16, among the counts of all.
fn one_for(line: u32) -> u64 {
    if line < 16 { 1 << (4 * line) } else { 0 }
}

impl Gate for Counting {
    fn before(&self, line: u32) {
        self.befores.fetch_add(one_for(line), Ordering::SeqCst);
        self.keep(line, 0);
    }

    fn after(&self, line: u32) {
        self.afters.fetch_add(one_for(line), Ordering::SeqCst);
        self.keep(line, 1);
    }
}

/// A burst at lines 5 to 8, of which line 6 brings no text: of three addresses, and of one.
const THREE_ENTRIES: [&str; 2] = [
    "\
A,N12345,ANZ1,C81234
G,GRND001,GRND002,GRND003
S,0,0,0,0,0,0,0,0,0,0,0,0,0,0,0,0,0,0,0,0,0,0,0,0,0,0
T,0
U,/GRND001.ADS.N123450701BD4F
U,x
U,/GRND002.ADS.N123450701BD4F
U,/GRND003.ADS.N123450701BD4F
",
    "\
A,N12345,ANZ1,C81234
G,GRND001,GRND002,GRND003
S,0,0,0,0,0,0,0,0,0,0,0,0,0,0,0,0,0,0,0,0,0,0,0,0,0,0
T,0
U,/GRND002.ADS.N123450701BD4F
U,x
U,/GRND002.ADS.N123450701BD4F
U,/GRND002.ADS.N123450701BD4F
",
];

#[test]
fn the_gate_is_told_of_each_entry_of_a_burst(rt: HostRuntime) -> Result<(), Fail> {
    let alloc = rt.alloc();
    // Lines 5, 7 and 8, each once; and where one worker takes them, in their order, each before it is taken and then
    // after.
    let counts = 0x1_1010_0000;
    let order: u64 = 0b01010_01011_01110_01111_10000_10001;
    for workers in ["1", "2", "3", "4", "5"] {
        for (script, one_address) in [(THREE_ENTRIES[0], false), (THREE_ENTRIES[1], true)] {
            let gate = Counting::new();
            let (status, written) = played_under(
                &rt,
                alloc,
                &["run", workers],
                script.as_bytes(),
                100,
                &gate,
            )?;
            assert_eq!(rt; status, Status::Done);
            assert!(rt; written.starts_with(b"J,4,"));
            assert_eq!(rt; gate.befores.load(Ordering::SeqCst), counts);
            assert_eq!(rt; gate.afters.load(Ordering::SeqCst), counts);
            if one_address || workers == "1" {
                assert_eq!(rt; gate.told.load(Ordering::SeqCst), order);
            }
        }
    }
    Ok(())
}

/// A burst of 25 lines over five addresses, of which every second one is malformed, cut, or of another registration.
const MIXED: &str = "\
A,N12345,ANZ1,C81234
G,GRND001,GRND002,GRND003,GRND004,GRND005
S,0,0,0,0,0,0,0,0,0,0,0,0,0,0,0,0,0,0,0,0,0,0,0,0,0,0
U,/GRND001.ADS.N123450701BD4F
U,/GRND002.ADS.N1234507010BA50BA5F332
U,/GRND003.ADS.N1234507020BA5536F
U,/GRND004.ADS.N12
U,/GRND005.ADS.N1234508030A08E7C7
U,/GRND001.ADS.N5432107010A31
U,/GRND002.ADS.N1234509040BC16FB7
U,/GRND003.ADS.N1234507010BA50BA5F332
U,/GRND004.ADS.N123450205023E
U,/GRND005.ADS.N12
U,/GRND001.ADS.N123450705FDCB
U,/GRND002.ADS.N5432107010A31
U,/GRND003.ADS.N123450802140A089D7A
U,/GRND004.ADS.N1234507010BA50BA5F332
U,/GRND005.ADS.N123450701BD4F
U,/GRND001.ADS.N12
U,/GRND002.ADS.N1234507020BA5536F
U,/GRND003.ADS.N5432107010A31
U,/GRND004.ADS.N1234508030A08E7C7
U,/GRND005.ADS.N1234507010BA50BA5F332
U,/GRND001.ADS.N1234509040BC16FB7
U,/GRND002.ADS.N12
U,/GRND003.ADS.N123450205023E
U,/GRND004.ADS.N5432107010A31
U,/GRND005.ADS.N123450705FDCB
";

/// The refused ones of its lines.
const MIXED_REFUSED: &str = "\

X,5,REASON-2,32
X,7,SHORT,16
X,9,OTHER,12
X,11,REASON-2,32
X,13,SHORT,16
X,15,OTHER,12
X,17,REASON-2,32
X,19,SHORT,16
X,21,OTHER,12
X,23,REASON-2,32
X,25,SHORT,16
X,27,OTHER,12
OK
";

#[test]
fn refused_lines_of_a_burst_disturb_no_other(rt: HostRuntime) -> Result<(), Fail> {
    let alloc = rt.alloc();
    let (due, alone) = played(&rt, alloc, &["run", "1"], MIXED.as_bytes(), 1_007)?;
    assert_eq!(rt; due, Status::Done);
    assert!(rt; alone.starts_with(b"J,4,5,6,8,10,11,12,14,16,17,18,20,22,23,24,26,28\n"));
    assert!(rt; alone.ends_with(MIXED_REFUSED.as_bytes()));
    for workers in ["2", "3", "4", "5", "5", "5"] {
        let (status, written) = played(&rt, alloc, &["run", workers], MIXED.as_bytes(), 1_007)?;
        assert_eq!(rt; status, Status::Done);
        assert_eq!(rt;
            behind_first_line(written.as_slice()),
            behind_first_line(alone.as_slice())
        );
        assert_eq!(rt; written.len(), alone.len());
    }
    Ok(())
}
