//! What files are kept on.
ghost use Rattle.std.specs.Prelude.{ℕ, ◌≡◌, ◌⊎◌, List, IfErr};
ghost use Rattle.std.specs.declared.option.Option.{Option};
ghost use Rattle.std.specs.Option.{ForSome};
ghost use Rattle.identity_io.specs.Files.{FaultCause, ReadFrom, Wrote, file_at};

use std::alloc::{AllocError, Global};

/// Why a file was not read or written.
#[derive(Clone, Copy, Debug, PartialEq, Eq)]
pub enum DiskError {
    /// There is no file of this path.
    Missing,
    /// The disk failed, and its count of faults rose.
    Failed,
    /// The file has more than `LIMIT` bytes.
    TooLong,
    /// No memory was left.
    OutOfMemory,
}

impl From<AllocError> for DiskError {
    ghost use Rattle.identity_io.specs.declared.disk.DiskError.TheVariants.{OutOfMemory};

    ghost from_gives = { λ _ e. e ≡ OutOfMemory };

    fn from(_: AllocError) -> Self {
        DiskError::OutOfMemory
    }
}

/// Keeps files, and counts its faults.
pub trait Disk {
    /// The files by their paths, where the disk tells them.
    ghost files: { Self → Option (List (List ℕ × List ℕ)) };

    /// How many calls failed, up to 2^64 - 1.
    ghost faults: { Self → ℕ };

    /// Reads a whole file: `Missing` where there is none, `TooLong` above 16 MiB, `Failed` with the count of faults risen, `OutOfMemory`.
    fn read_file(&mut self, alloc: Global, path: &str) -> Result<Vec<u8>, DiskError>
        ensures read { ForSome (files self.old) (λ known. ReadFrom (file_at path.now known) result) }
        ensures kept { files self.new ≡ files self.old }
        ensures cause { FaultCause (faults self.old) (faults self.new) result };

    /// Writes a whole file, in place of the one that has the path: `Failed` with the count of faults risen, or `OutOfMemory`. After a refusal
    /// that path may hold anything.
    fn write_file(&mut self, path: &str, bytes: &[u8]) -> Result<(), DiskError>
        ensures wrote { Wrote path.now bytes.now (files self.old) (files self.new) result }
        ensures answers { IfErr result (λ e. (e ≡ DiskError.Failed) ⊎ (e ≡ DiskError.OutOfMemory)) }
        ensures cause { FaultCause (faults self.old) (faults self.new) result };
}
