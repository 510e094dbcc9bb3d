//! A source over bytes in memory, with faults on demand.
ghost use Rattle.std.specs.Prelude.{ℕ, ◌≡◌, ◌≤◌, ◌↔◌, Some, Contains, IfOk, IsErr, is_ok, if◌then◌else◌, length, min};
ghost use Rattle.std.specs.Io.{ReadsAtMost};
ghost use Rattle.std.specs.Io.KnownBytes.{ReadConsumes};
ghost use Rattle.identity_io.specs.Causes.{HasCause};
ghost use Rattle.identity_io.specs.Memory.{Supply, one_more};

use crate::{Failed, Source};
use std::marker::Model;

/// A source over bytes in memory, for tests of what stands on a source: it gives them in small pieces, and chosen calls fail.
#[derive(Drop)]
pub struct MemorySource<'a> {
    bytes: &'a [u8],
    stops: &'a [u64],
    most: usize,
    count: u64,
    failed: u64,
}

impl<'a> Model for MemorySource<'a> {
    ghost Value = { Supply };

    ghost view = { λ s. record { left = s.bytes.now; failing = s.stops.now; piece = s.most; calls = s.count; faults = s.failed } };

    ghost invariant = { λ s. 1 ≤ s.most };
}

impl<'a> MemorySource<'a> {
    /// A source that gives at most `piece` bytes a call, and whose call number k, counted from 0, fails where k is in `failing`.
    pub fn new(bytes: &'a [u8], failing: &'a [u64], piece: usize) -> Self
        requires { 1 ≤ piece }
        ensures { result ≡ record { left = bytes.now; failing = failing.now; piece = piece; calls = 0; faults = 0 } }
    {
        MemorySource {
            bytes,
            stops: failing,
            most: piece,
            count: 0,
            failed: 0,
        }
    }
}

impl Source for MemorySource<'_> {
    ghost left = { λ s. Some s.left };

    ghost faults = { λ s. s.faults };

    fn read(&mut self, buf: &mut [u8]) -> Result<usize, Failed>
        ensures bound { ReadsAtMost result buf.new }
        ensures bytes { ReadConsumes (Some self.old.left) (Some self.new.left) result buf.new }
        ensures count { IfOk result (λ n. n ≡ min (min self.old.piece (length buf.old)) (length self.old.left)) }
        ensures cause { HasCause self.old.faults self.new.faults result }
        ensures fails { IsErr result ↔ Contains self.old.failing self.old.calls }
        ensures faults { self.new.faults ≡ (if is_ok result then self.old.faults else one_more self.old.faults) }
        ensures calls { self.new.calls ≡ one_more self.old.calls }
        ensures kept { (self.new.failing ≡ self.old.failing) × (self.new.piece ≡ self.old.piece) }
    {
        let call = self.count;
        self.count = call.saturating_add(1);
        if self.stops.contains(&call) {
            self.failed = self.failed.saturating_add(1);
            return Err(Failed);
        }
        let count = self.most.min(buf.len()).min(self.bytes.len());
        buf[..count].copy_from_slice(&self.bytes[..count]);
        self.bytes = &self.bytes[count..];
        Ok(count)
    }
}
