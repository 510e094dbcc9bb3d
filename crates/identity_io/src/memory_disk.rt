//! A disk in memory, with faults on demand.
ghost use Rattle.std.specs.Prelude.{ℕ, ◌≡◌, ◌≤◌, ◌⊎◌, ◌↔◌, [], Some, Contains, IfErr, IsErrOf, if◌then◌else◌, IsTrue, OnErr};
ghost use Rattle.identity_io.specs.Files.{FaultCause, ReadFrom, Wrote, WroteAt, file_at};
ghost use Rattle.identity_io.specs.Memory.{one_more};
ghost use Rattle.identity_io.specs.MemoryDisk.{faults_after};

use crate::{Disk, DiskError, LIMIT};
use std::alloc::Global;
use std::collections::BTreeMap;
use std::marker::Model;

/// A disk in memory, for tests of what stands on a disk: chosen calls fail.
#[derive(Drop)]
pub struct MemoryDisk {
    alloc: Global,
    kept: BTreeMap<String, Vec<u8>>,
    stops: Vec<u64>,
    count: u64,
    failed: u64,
}

impl Model for MemoryDisk {
    ghost use Rattle.std.specs.Prelude.{map};
    ghost use Rattle.std.specs.String.{string_bytes};
    ghost use Rattle.identity_io.specs.Files.{Shelf};

    ghost Value = { Shelf };

    ghost view = { λ d. record {
      files = map (λ e. (string_bytes e.0, e.1.items)) d.kept.entries;
      failing = d.stops.items;
      calls = d.count;
      faults = d.failed;
    } };
}

impl MemoryDisk {
    /// An empty disk, whose call number k, reads and writes counted together from 0, fails where k is in `failing`. It takes no memory until a file is written.
    pub fn new(alloc: Global, failing: Vec<u64>) -> Self
        ensures { result ≡ record { files = []; failing = failing.items; calls = 0; faults = 0 } }
    {
        MemoryDisk {
            alloc,
            kept: BTreeMap::new(alloc),
            stops: failing,
            count: 0,
            failed: 0,
        }
    }

    /// Counts a call, and answers whether it fails.
    fn fails(&mut self) -> bool
        ensures fails { IsTrue result ↔ Contains self.old.failing self.old.calls }
        ensures after { self.new ≡ record self.old {
          calls = one_more self.old.calls;
          faults = (if result then one_more self.old.faults else self.old.faults);
        } }
        ensures later { self.old.faults ≤ self.new.faults }
    {
        let call = self.count;
        self.count = call.saturating_add(1);
        if self.stops.contains(&call) {
            self.failed = self.failed.saturating_add(1);
            return true;
        }
        false
    }
}

impl Disk for MemoryDisk {
    ghost files = { λ d. Some d.files };

    ghost faults = { λ d. d.faults };

    fn read_file(&mut self, alloc: Global, path: &str) -> Result<Vec<u8>, DiskError>
        ensures read { ReadFrom (file_at path.now self.old.files) result }
        ensures cause { FaultCause self.old.faults self.new.faults result }
        ensures fails { IsErrOf result DiskError.Failed ↔ Contains self.old.failing self.old.calls }
        ensures after { self.new ≡ record self.old { calls = one_more self.old.calls; faults = faults_after self.old.faults result } }
    {
        if self.fails() {
            return Err(DiskError::Failed);
        }
        let Some(found) = self.kept.get(path) else {
            return Err(DiskError::Missing);
        };
        let bytes = found.as_slice();
        if bytes.len() > LIMIT {
            return Err(DiskError::TooLong);
        }
        Ok(Vec::from_slice(alloc, bytes)?)
    }

    fn write_file(&mut self, path: &str, bytes: &[u8]) -> Result<(), DiskError>
        ensures wrote { WroteAt path.now bytes.now self.old.files self.new.files result }
        ensures answers { IfErr result (λ e. (e ≡ DiskError.Failed) ⊎ (e ≡ DiskError.OutOfMemory)) }
        ensures cause { FaultCause self.old.faults self.new.faults result }
        ensures fails { IsErrOf result DiskError.Failed ↔ Contains self.old.failing self.old.calls }
        ensures refused { OnErr result (self.new.files ≡ self.old.files) }
        ensures calls { self.new.calls ≡ one_more self.old.calls }
        ensures faults { self.new.faults ≡ faults_after self.old.faults result }
        ensures kept { self.new.failing ≡ self.old.failing }
    {
        if self.fails() {
            return Err(DiskError::Failed);
        }
        let name = String::from_str(self.alloc, path)?;
        let content = Vec::from_slice(self.alloc, bytes)?;
        match self.kept.insert(name, content) {
            Ok(_) => Ok(()),
            Err(_) => Err(DiskError::OutOfMemory),
        }
    }
}
