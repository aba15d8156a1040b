//! Sources in memory, with calls that fail as they are told.
ghost use Rattle.std.specs.Prelude.{◌≡◌, ℕ, ◌+◌, ◌-◌, ◌<◌, ◌≤◌, ◌↔◌, ◌++◌, min, length, take, drop, vec_len, Contains, IsTrue, IsErr, IsOk, IfOk, OnErr, OnOk, Some};
ghost use Rattle.std.specs.Io.{ReadsAtMost};
ghost use Rattle.std.specs.Io.KnownBytes.{ReadConsumes};
ghost use Rattle.adsc_io.specs.Causes.{count_after, HasCause};
ghost use Rattle.adsc_io.specs.Memory.{MemoryInput, SteadyInput, IsDue, moved, read_on, read_failed, steady_on};

use crate::failures::{Failed, NoMemory};
use crate::traits::Source;
use std::alloc::Global;
use std::marker::Model;

/// A source in memory, of which chosen reads fail.
///
/// It tells its bytes. A read moves as many bytes as there are, as `buf` holds and as its piece allows. Exactly the reads
/// whose numbers, counted from 1, stand in the list of failing calls fail, and each raises the count of faults by one.
/// This project's profile.
#[derive(Drop)]
pub struct MemSource {
    bytes: Vec<u8>,
    at: usize,
    piece: usize,
    fails: Vec<u64>,
    calls: u64,
    faults: u64,
}

impl Model for MemSource {
    ghost use Rattle.std.specs.Prelude.{◌<◌, ◌≤◌, drop, vec_len};
    ghost use Rattle.adsc_io.specs.Memory.{MemoryInput};

    ghost Value = { MemoryInput };

    ghost view = { λ s. record { left = drop s.at s.bytes.items; piece = s.piece; fails = s.fails.items; calls = s.calls; faults = s.faults } };

    ghost invariant = { λ s. (s.at ≤ vec_len s.bytes) × (0 < s.piece) };
}

impl MemSource {
    /// A source of these bytes that gives at most `piece` of them at a time, and fails at the reads whose numbers, counted
    /// from 1, stand in `fails`.
    ///
    /// `piece` is at least 1. `NoMemory` is the only refusal.
    pub fn new(
        alloc: Global,
        bytes: &[u8],
        piece: usize,
        fails: &[u64],
    ) -> Result<MemSource, NoMemory>
        requires { 0 < piece }
        ensures { IfOk result (λ source. source ≡ record { left = bytes.now; piece = piece; fails = fails.now; calls = 0; faults = 0 }) }
    {
        Ok(MemSource {
            bytes: bytes.to_vec(alloc)?,
            at: 0,
            piece,
            fails: fails.to_vec(alloc)?,
            calls: 0,
            faults: 0,
        })
    }

    /// How many reads failed.
    pub fn faults(&self) -> u64
        ensures { result ≡ self.now.faults }
    {
        self.faults
    }
}

impl Source for MemSource {
    ghost left = { λ s. Some s.left };

    ghost faults = { λ s. s.faults };

    fn read(&mut self, buf: &mut [u8]) -> Result<usize, Failed>
        requires { 0 < length buf.old }
        ensures bound { ReadsAtMost result buf.new }
        ensures bytes { ReadConsumes (Some self.old.left) (Some self.new.left) result buf.new }
        ensures cause { HasCause self.old.faults self.new.faults result }
        ensures due { IsErr result ↔ IsDue self.old.fails self.old.calls }
        ensures count { IfOk result (λ count. count ≡ moved self.old.piece (length buf.old) (length self.old.left)) }
        ensures after { IfOk result (λ count. self.new ≡ read_on self.old count) }
        ensures failed { OnErr result (self.new ≡ read_failed self.old) }
    {
        let due = is_due(&self.fails, self.calls);
        self.calls = self.calls.saturating_add(1);
        if due {
            self.faults = self.faults.saturating_add(1);
            return Err(Failed);
        }
        let count = copy_front(&self.bytes[self.at..], self.piece, buf);
        self.at += count;
        Ok(count)
    }
}

/// A source in memory of which no read fails.
///
/// It tells its bytes, and its count of faults is always 0. This project's profile.
#[derive(Drop)]
pub struct SteadySource {
    bytes: Vec<u8>,
    at: usize,
    piece: usize,
}

impl Model for SteadySource {
    ghost use Rattle.std.specs.Prelude.{◌<◌, ◌≤◌, drop, vec_len};
    ghost use Rattle.adsc_io.specs.Memory.{SteadyInput};

    ghost Value = { SteadyInput };

    ghost view = { λ s. record { left = drop s.at s.bytes.items; piece = s.piece } };

    ghost invariant = { λ s. (s.at ≤ vec_len s.bytes) × (0 < s.piece) };
}

impl SteadySource {
    /// A source of these bytes that gives at most `piece` of them at a time.
    ///
    /// `piece` is at least 1. `NoMemory` is the only refusal.
    pub fn new(alloc: Global, bytes: &[u8], piece: usize) -> Result<SteadySource, NoMemory>
        requires { 0 < piece }
        ensures { IfOk result (λ source. source ≡ record { left = bytes.now; piece = piece }) }
    {
        Ok(SteadySource {
            bytes: bytes.to_vec(alloc)?,
            at: 0,
            piece,
        })
    }
}

impl Source for SteadySource {
    ghost left = { λ s. Some s.left };

    ghost faults = { λ _. 0 };

    fn read(&mut self, buf: &mut [u8]) -> Result<usize, Failed>
        requires { 0 < length buf.old }
        ensures bound { ReadsAtMost result buf.new }
        ensures bytes { ReadConsumes (Some self.old.left) (Some self.new.left) result buf.new }
        ensures cause { HasCause 0 0 result }
        ensures never { IsOk result }
        ensures count { IfOk result (λ count. count ≡ moved self.old.piece (length buf.old) (length self.old.left)) }
        ensures after { IfOk result (λ count. self.new ≡ steady_on self.old count) }
    {
        let count = copy_front(&self.bytes[self.at..], self.piece, buf);
        self.at += count;
        Ok(count)
    }
}

/// Copies the front of the bytes to the front of `buf`, at most `piece` of them, and answers how many.
fn copy_front(bytes: &[u8], piece: usize, buf: &mut [u8]) -> usize
    ensures count { result ≡ moved piece (length buf.old) (length bytes.now) }
    ensures copied { buf.new ≡ take result bytes.now ++ drop result buf.old }
{
    let count = piece.min(buf.len()).min(bytes.len());
    buf[..count].copy_from_slice(&bytes[..count]);
    count
}

/// Whether the call after this many calls is one of those that fail.
pub(crate) fn is_due(fails: &[u64], calls: u64) -> bool
    ensures { IsTrue result ↔ IsDue fails.now calls }
{
    match calls.checked_add(1) {
        Some(number) => fails.contains(&number),
        None => false,
    }
}
