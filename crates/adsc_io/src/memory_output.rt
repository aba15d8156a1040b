//! A sink in memory, with calls that fail as they are told.
ghost use Rattle.std.specs.Prelude.{◌≡◌, ℕ, ◌+◌, ◌-◌, ◌<◌, ◌≤◌, ◌↔◌, ◌++◌, [], min, length, take, IsErr, IfOk, OnErr, Some};
ghost use Rattle.std.specs.Io.{WritesAtMost};
ghost use Rattle.std.specs.Io.KnownBytes.{WriteAppends};
ghost use Rattle.adsc_io.specs.Causes.{HasCause};
ghost use Rattle.adsc_io.specs.Memory.{MemoryOutput, IsRefused, moved, written_on, write_failed};

use crate::failures::{Failed, NoMemory};
use crate::memory_input::is_due;
use crate::traits::Sink;
use std::alloc::Global;
use std::marker::Model;

/// A sink in memory with room for so many bytes, of which chosen writes fail.
///
/// It tells its bytes. A write moves as many bytes as it is given, as its piece allows and as there is room for. Exactly
/// these writes fail: those whose numbers, counted from 1, stand in the list of failing calls, and those that find no
/// room left. Each raises the count of faults by one. This project's profile.
#[derive(Drop)]
pub struct MemSink {
    bytes: Vec<u8>,
    room: usize,
    piece: usize,
    fails: Vec<u64>,
    calls: u64,
    faults: u64,
}

impl Model for MemSink {
    ghost use Rattle.std.specs.Prelude.{◌+◌, ◌<◌, ◌≤◌, vec_len, vec_capacity};
    ghost use Rattle.adsc_io.specs.Memory.{MemoryOutput};

    ghost Value = { MemoryOutput };

    ghost view = { λ s. record { written = s.bytes.items; room = s.room; piece = s.piece; fails = s.fails.items; calls = s.calls; faults = s.faults } };

    ghost invariant = { λ s. (vec_len s.bytes + s.room ≤ vec_capacity s.bytes) × (0 < s.piece) };
}

impl MemSink {
    /// An empty sink with room for `room` bytes that takes at most `piece` of them at a time, and fails at the writes whose
    /// numbers, counted from 1, stand in `fails`.
    ///
    /// `piece` is at least 1. The room is taken here, so no write wants memory. `NoMemory` is the only refusal.
    pub fn new(alloc: Global, room: usize, piece: usize, fails: &[u64]) -> Result<MemSink, NoMemory>
        requires { 0 < piece }
        ensures { IfOk result (λ sink. sink ≡ record { written = []; room = room; piece = piece; fails = fails.now; calls = 0; faults = 0 }) }
    {
        Ok(MemSink {
            bytes: Vec::with_capacity(alloc, room)?,
            room,
            piece,
            fails: fails.to_vec(alloc)?,
            calls: 0,
            faults: 0,
        })
    }

    /// The bytes that were written.
    pub fn written(&self) -> &[u8]
        ensures { result.now ≡ self.now.written }
    {
        &self.bytes
    }

    /// How many writes failed.
    pub fn faults(&self) -> u64
        ensures { result ≡ self.now.faults }
    {
        self.faults
    }
}

impl Sink for MemSink {
    ghost written = { λ s. Some s.written };

    ghost faults = { λ s. s.faults };

    fn write(&mut self, piece: &[u8]) -> Result<usize, Failed>
        requires { 0 < length piece.now }
        ensures some { IfOk result (λ count. 0 < count) }
        ensures bound { WritesAtMost result piece.now }
        ensures bytes { WriteAppends (Some self.old.written) (Some self.new.written) result piece.now }
        ensures cause { HasCause self.old.faults self.new.faults result }
        ensures refused { IsErr result ↔ IsRefused self.old }
        ensures count { IfOk result (λ count. count ≡ moved self.old.piece self.old.room (length piece.now)) }
        ensures after { IfOk result (λ count. self.new ≡ written_on self.old piece.now count) }
        ensures failed { OnErr result (self.new ≡ write_failed self.old) }
    {
        let due = is_due(&self.fails, self.calls);
        self.calls = self.calls.saturating_add(1);
        if due || self.room == 0 {
            self.faults = self.faults.saturating_add(1);
            return Err(Failed);
        }
        let count = self.piece.min(self.room).min(piece.len());
        match self.bytes.extend_from_slice(&piece[..count]) {
            Ok(()) => self.room -= count,
            Err(_) => unreachable!(),
        }
        Ok(count)
    }
}
