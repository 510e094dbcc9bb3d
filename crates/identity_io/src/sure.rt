//! A source and a sink in memory that don't fail on demand.
ghost use Rattle.std.specs.Prelude.{ℕ, ◌≡◌, ◌≤◌, ◌<◌, ◌-◌, ◌↔◌, List, [], Some, IfOk, IsErr, IsOk, is_ok, if◌then◌else◌, length, min, take};
ghost use Rattle.std.specs.Io.{ReadsAtMost, WritesAtMost};
ghost use Rattle.std.specs.Io.KnownBytes.{ReadConsumes, WriteAppends};
ghost use Rattle.identity_io.specs.Causes.{HasCause};
ghost use Rattle.identity_io.specs.Memory.{SureStore, one_more};

use crate::{Failed, Sink, Source};
use std::marker::Model;

/// A source over bytes in memory that never fails.
#[derive(Drop)]
pub struct SureSource<'a> {
    bytes: &'a [u8],
}

impl<'a> Model for SureSource<'a> {
    ghost Value = { List ℕ };

    ghost view = { λ s. s.bytes.now };
}

impl<'a> SureSource<'a> {
    /// A source that gives these bytes, as many a call as the buffer holds.
    pub fn new(bytes: &'a [u8]) -> Self
        ensures { result ≡ bytes.now }
    {
        SureSource { bytes }
    }
}

impl Source for SureSource<'_> {
    ghost left = { λ s. Some s };

    ghost faults = { λ _. 0 };

    fn read(&mut self, buf: &mut [u8]) -> Result<usize, Failed>
        ensures bound { ReadsAtMost result buf.new }
        ensures bytes { ReadConsumes (Some self.old) (Some self.new) result buf.new }
        ensures count { IfOk result (λ n. n ≡ min (length buf.old) (length self.old)) }
        ensures cause { HasCause 0 0 result }
        ensures sure { IsOk result }
    {
        let count = buf.len().min(self.bytes.len());
        buf[..count].copy_from_slice(&self.bytes[..count]);
        self.bytes = &self.bytes[count..];
        Ok(count)
    }
}

/// A sink into bytes in memory that fails only where they are full.
#[derive(Drop)]
pub struct SureSink<'a> {
    room: &'a mut [u8],
    filled: usize,
    failed: u64,
}

impl<'a> Model for SureSink<'a> {
    ghost Value = { SureStore };

    ghost view = { λ s. record { written = take s.filled s.room.now; room = length s.room.now; faults = s.failed } };

    ghost invariant = { λ s. (s.filled ≤ length s.room.now) × (0 < s.failed → s.filled ≡ length s.room.now) };
}

impl<'a> SureSink<'a> {
    /// A sink that takes all that fits into `room`.
    pub fn new(room: &'a mut [u8]) -> Self
        ensures { result ≡ record { written = []; room = length room.entry.now; faults = 0 } }
    {
        SureSink {
            room,
            filled: 0,
            failed: 0,
        }
    }

    /// The bytes that were written so far.
    pub fn written(&self) -> &[u8]
        ensures { result.now ≡ self.now.written }
    {
        &self.room[..self.filled]
    }
}

impl Sink for SureSink<'_> {
    ghost written = { λ s. Some s.written };

    ghost faults = { λ s. s.faults };

    fn write(&mut self, bytes: &[u8]) -> Result<usize, Failed>
        ensures bound { WritesAtMost result bytes.now }
        ensures bytes { WriteAppends (Some self.old.written) (Some self.new.written) result bytes.now }
        ensures some { 0 < length bytes.now → IfOk result (λ n. 0 < n) }
        ensures count { IfOk result (λ n. n ≡ min (length bytes.now) (self.old.room - length self.old.written)) }
        ensures cause { HasCause self.old.faults self.new.faults result }
        ensures fails { IsErr result ↔ ((0 < length bytes.now) × (length self.old.written ≡ self.old.room)) }
        ensures faults { self.new.faults ≡ (if is_ok result then self.old.faults else one_more self.old.faults) }
        ensures full_before { 0 < self.old.faults → length self.old.written ≡ self.old.room }
        ensures full_after { 0 < self.new.faults → length self.new.written ≡ self.new.room }
        ensures room { self.new.room ≡ self.old.room }
    {
        let count = bytes.len().min(self.room.len() - self.filled);
        if count == 0 && !bytes.is_empty() {
            self.failed = self.failed.saturating_add(1);
            return Err(Failed);
        }
        let end = self.filled + count;
        self.room[self.filled..end].copy_from_slice(&bytes[..count]);
        self.filled = end;
        Ok(count)
    }
}
