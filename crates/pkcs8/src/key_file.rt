//! Files of keys.
ghost use Rattle.std.specs.Prelude.{◌≡◌};
ghost use Rattle.std.specs.Option.{ForSome};
ghost use Rattle.identity_io.specs.Files.{file_at};
ghost use Rattle.der_small.specs.KeyFiles.{KeyFileCause, ReadsKeyFile, WritesKeyFile};
ghost use Rattle.pkcs8.specs.Error.{from_der_error, kind_of};

use crate::{DecodePrivateKey, EncodePrivateKey, Error, Result};
use der_small::SecretDocument;
use identity_io::Disk;
use std::alloc::Global;

/// The key in a file.
pub(crate) fn read_key_file<T: DecodePrivateKey, D: Disk>(
    alloc: Global,
    disk: &mut D,
    path: &str,
) -> Result<T>
    ensures read { ForSome (D.files disk.old) (λ known. ReadsKeyFile kind_of T.plain T.HasAnswer (file_at path.now known) result) }
    ensures kept { D.files disk.new ≡ D.files disk.old }
    ensures cause { KeyFileCause from_der_error (D.faults disk.old) (D.faults disk.new) result }
{
    match SecretDocument::read_der_file(alloc, disk, path) {
        Ok(document) => T::from_pkcs8_der(alloc, document.as_bytes()),
        Err(error) => Err(Error::from(error)),
    }
}

/// Writes a key to a file.
pub(crate) fn write_key_file<T: EncodePrivateKey, D: Disk>(
    key: &T,
    alloc: Global,
    disk: &mut D,
    path: &str,
) -> Result<()>
    ensures wrote { WritesKeyFile from_der_error (T.document key.now) path.now (D.files disk.old) (D.files disk.new) result }
    ensures cause { KeyFileCause from_der_error (D.faults disk.old) (D.faults disk.new) result }
{
    match key.to_pkcs8_der(alloc) {
        Ok(document) => match document.write_der_file(disk, path) {
            Ok(()) => Ok(()),
            Err(error) => Err(Error::from(error)),
        },
        Err(error) => Err(error),
    }
}
