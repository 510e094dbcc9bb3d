//! Files of documents.
ghost use Rattle.std.specs.Prelude.{◌≡◌, ◌⊎◌, IfErr};
ghost use Rattle.std.specs.Option.{ForSome};
ghost use Rattle.identity_io.specs.Files.{file_at, Wrote};
ghost use Rattle.der_small.specs.Files.{FileBytes, FileCause, error_of};

use der_core::Error;
use identity_io::{Disk, DiskError};
use std::alloc::Global;

fn file_error(error: DiskError) -> Error
    ensures { result ≡ error_of error }
{
    match error {
        DiskError::Missing => Error::FileMissing,
        DiskError::Failed => Error::FileFault,
        DiskError::TooLong => Error::FileTooLong,
        DiskError::OutOfMemory => Error::OutOfMemory,
    }
}

/// The bytes of a file.
pub(crate) fn read_bytes<D: Disk>(alloc: Global, disk: &mut D, path: &str) -> Result<Vec<u8>, Error>
    ensures read { ForSome (D.files disk.old) (λ known. FileBytes (file_at path.now known) result) }
    ensures kept { D.files disk.new ≡ D.files disk.old }
    ensures cause { FileCause (D.faults disk.old) (D.faults disk.new) result }
{
    disk.read_file(alloc, path).map_err(file_error)
}

/// Writes the bytes of a file.
pub(crate) fn write_bytes<D: Disk>(disk: &mut D, path: &str, bytes: &[u8]) -> Result<(), Error>
    ensures wrote { Wrote path.now bytes.now (D.files disk.old) (D.files disk.new) result }
    ensures answers { IfErr result (λ e. (e ≡ Error.FileFault) ⊎ (e ≡ Error.OutOfMemory)) }
    ensures cause { FileCause (D.faults disk.old) (D.faults disk.new) result }
{
    disk.write_file(path, bytes).map_err(file_error)
}
