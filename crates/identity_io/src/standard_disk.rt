//! A disk over real files: the trusted edge of a program.
ghost use Rattle.std.specs.Prelude.{◌≡◌, ◌≤◌, None};
ghost use Rattle.identity_io.specs.Causes.{Rose};

use crate::{Disk, DiskError, ReadError, StdSource, read_all};
use std::alloc::Global;
use std::fs;
use std::io::ErrorKind;
use std::rt::Files;

/// A disk over real files. It tells no bytes, and each error of the system but a missing file is a fault.
#[derive(Drop)]
pub struct StdDisk<'a, R> {
    files: &'a R,
    failed: u64,
}

impl<'a, R: Files> StdDisk<'a, R> {
    /// A disk over the files that this runtime reaches.
    pub fn new(files: &'a R) -> Self
        ensures files { ⟦<StdDisk<'static, R> as Disk>⟧.files result ≡ None }
        ensures faults { ⟦<StdDisk<'static, R> as Disk>⟧.faults result ≡ 0 }
    {
        StdDisk { files, failed: 0 }
    }

    fn fault(&mut self) -> DiskError
        ensures failed { result ≡ DiskError.Failed }
        ensures later { self.old.failed ≤ self.new.failed }
        ensures rose { Rose self.old.failed self.new.failed }
    {
        self.failed = self.failed.saturating_add(1);
        DiskError::Failed
    }
}

impl<R: Files> Disk for StdDisk<'_, R> {
    ghost files = { λ _. None };

    ghost faults = { λ d. d.failed };

    fn read_file(&mut self, alloc: Global, path: &str) -> Result<Vec<u8>, DiskError> {
        let file = match fs::open(self.files, path) {
            Ok(file) => file,
            Err(error) => {
                return Err(if error.kind() == ErrorKind::NotFound {
                    DiskError::Missing
                } else {
                    self.fault()
                });
            }
        };
        match read_all(alloc, &mut StdSource::new(file)) {
            Ok(bytes) => Ok(bytes),
            Err(ReadError::Failed) => Err(self.fault()),
            Err(ReadError::TooLong) => Err(DiskError::TooLong),
            Err(ReadError::OutOfMemory) => Err(DiskError::OutOfMemory),
        }
    }

    fn write_file(&mut self, path: &str, bytes: &[u8]) -> Result<(), DiskError> {
        match fs::write(self.files, path, bytes) {
            Ok(()) => Ok(()),
            Err(_) => Err(self.fault()),
        }
    }
}
