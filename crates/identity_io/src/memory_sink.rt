//! A sink into bytes in memory, with faults on demand.
ghost use Rattle.std.specs.Prelude.{ℕ, ◌≡◌, ◌≤◌, ◌<◌, ◌-◌, ◌↔◌, ◌⊎◌, [], Some, Contains, IfOk, IsErr, is_ok, if◌then◌else◌, length, min, take};
ghost use Rattle.std.specs.Io.{WritesAtMost};
ghost use Rattle.std.specs.Io.KnownBytes.{WriteAppends};
ghost use Rattle.identity_io.specs.Causes.{HasCause};
ghost use Rattle.identity_io.specs.Memory.{Store, one_more};

use crate::{Failed, Sink};
use std::marker::Model;

/// A sink into bytes in memory, for tests of what stands on a sink: it takes them in small pieces, and chosen calls fail.
#[derive(Drop)]
pub struct MemorySink<'a> {
    room: &'a mut [u8],
    stops: &'a [u64],
    most: usize,
    filled: usize,
    count: u64,
    failed: u64,
}

impl<'a> Model for MemorySink<'a> {
    ghost Value = { Store };

    ghost view = { λ s. record {
      written = take s.filled s.room.now;
      room = length s.room.now;
      failing = s.stops.now;
      piece = s.most;
      calls = s.count;
      faults = s.failed;
    } };

    ghost invariant = { λ s. (1 ≤ s.most) × (s.filled ≤ length s.room.now) };
}

impl<'a> MemorySink<'a> {
    /// A sink that takes at most `piece` bytes a call, and whose call number k, counted from 0, fails
    /// where k is in `failing`, or where there is something to write and `room` is full.
    pub fn new(room: &'a mut [u8], failing: &'a [u64], piece: usize) -> Self
        requires { 1 ≤ piece }
        ensures { result ≡ record { written = []; room = length room.entry.now; failing = failing.now; piece = piece; calls = 0; faults = 0 } }
    {
        MemorySink {
            room,
            stops: failing,
            most: piece,
            filled: 0,
            count: 0,
            failed: 0,
        }
    }

    /// The bytes that were written so far.
    pub fn written(&self) -> &[u8]
        ensures { result.now ≡ self.now.written }
    {
        &self.room[..self.filled]
    }
}

impl Sink for MemorySink<'_> {
    ghost written = { λ s. Some s.written };

    ghost faults = { λ s. s.faults };

    fn write(&mut self, bytes: &[u8]) -> Result<usize, Failed>
        ensures bound { WritesAtMost result bytes.now }
        ensures bytes { WriteAppends (Some self.old.written) (Some self.new.written) result bytes.now }
        ensures some { 0 < length bytes.now → IfOk result (λ n. 0 < n) }
        ensures count { IfOk result (λ n. n ≡ min (min self.old.piece (length bytes.now)) (self.old.room - length self.old.written)) }
        ensures cause { HasCause self.old.faults self.new.faults result }
        ensures fails { IsErr result ↔ (Contains self.old.failing self.old.calls ⊎
            ((0 < length bytes.now) × (length self.old.written ≡ self.old.room))) }
        ensures faults { self.new.faults ≡ (if is_ok result then self.old.faults else one_more self.old.faults) }
        ensures calls { self.new.calls ≡ one_more self.old.calls }
        ensures kept { (self.new.room ≡ self.old.room) × (self.new.failing ≡ self.old.failing) × (self.new.piece ≡ self.old.piece) }
    {
        let call = self.count;
        self.count = call.saturating_add(1);
        let count = self
            .most
            .min(bytes.len())
            .min(self.room.len() - self.filled);
        if self.stops.contains(&call) || (count == 0 && !bytes.is_empty()) {
            self.failed = self.failed.saturating_add(1);
            return Err(Failed);
        }
        let end = self.filled + count;
        self.room[self.filled..end].copy_from_slice(&bytes[..count]);
        self.filled = end;
        Ok(count)
    }
}
