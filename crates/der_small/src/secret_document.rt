//! Documents of one value whose bytes are not shown.
use crate::Document;
use der_core::{Decode, Encode, Error};
use identity_io::Disk;
use std::alloc::Global;
use std::fmt;

/// The bytes of exactly one value of any tag, such as a private key, which `Debug` does not show.
#[derive(Drop, PartialEq, Eq, PartialOrd, Ord, Hash)]
pub struct SecretDocument {
    document: Document,
}

impl SecretDocument {
    ghost use Rattle.std.specs.Prelude.{◌≡◌, ◌⊎◌, length, IfErr};
    ghost use Rattle.std.specs.Option.{ForSome};
    ghost use Rattle.identity_io.specs.Files.{file_at, Wrote};
    ghost use Rattle.der_core.specs.Decode.{FromDer, FromDerOwned};
    ghost use Rattle.der_small.specs.SecretDocument.{secret_bytes};
    ghost use Rattle.der_small.specs.Files.{FileCause, ReadsFile};
    ghost use Rattle.der_small.specs.OneValue.{IsOneValue, EncodedAs};

    /// Copies the bytes, where they are one value: `Malformed` where they begin with none, `TrailingData` where they have more behind it,
    /// `OutOfMemory`.
    pub fn from_der(alloc: Global, bytes: &[u8]) -> Result<SecretDocument, Error>
        ensures { FromDerOwned secret_bytes IsOneValue bytes.now result }
    {
        Ok(SecretDocument {
            document: Document::from_der(alloc, bytes)?,
        })
    }

    /// The whole encoding, secret parts too.
    pub fn as_bytes(&self) -> &[u8]
        ensures { result.now ≡ secret_bytes self.now }
    {
        self.document.as_bytes()
    }

    /// How many bytes it has, header included.
    pub fn len(&self) -> usize
        ensures { result ≡ length (secret_bytes self.now) }
    {
        self.document.len()
    }

    /// Reads the bytes as a value of another type: `Malformed` where they begin with no encoding of one, `TrailingData` where they have more
    /// behind it.
    pub fn decode_msg<'a, T: Decode<'a>>(&'a self) -> Result<T, Error>
        ensures { FromDer T.Reads (secret_bytes self.now) result }
    {
        self.document.decode_msg()
    }

    /// The document that a value is written as: `Overlength` where it would have 2^32 bytes or more, `OutOfMemory`.
    pub fn encode_msg<T: Encode>(alloc: Global, value: &T) -> Result<SecretDocument, Error>
        ensures { EncodedAs secret_bytes (T.encoding value.now) result }
    {
        Ok(SecretDocument {
            document: Document::encode_msg(alloc, value)?,
        })
    }

    /// Reads a file of at most 16 MiB that holds exactly one value: `FileMissing`, `FileTooLong`, `FileFault` or `OutOfMemory` where the bytes
    /// can't be had, and else the refusals of `from_der`.
    pub fn read_der_file<D: Disk>(
        alloc: Global,
        disk: &mut D,
        path: &str,
    ) -> Result<SecretDocument, Error>
        ensures read { ForSome (D.files disk.old) (λ known. ReadsFile secret_bytes (file_at path.now known) result) }
        ensures kept { D.files disk.new ≡ D.files disk.old }
        ensures cause { FileCause (D.faults disk.old) (D.faults disk.new) result }
    {
        Ok(SecretDocument {
            document: Document::read_der_file(alloc, disk, path)?,
        })
    }

    /// Writes the bytes to a file: `FileFault` where the disk fails, which may leave a first part of them there, or `OutOfMemory`.
    pub fn write_der_file<D: Disk>(&self, disk: &mut D, path: &str) -> Result<(), Error>
        ensures wrote { Wrote path.now (secret_bytes self.now) (D.files disk.old) (D.files disk.new) result }
        ensures answers { IfErr result (λ e. (e ≡ Error.FileFault) ⊎ (e ≡ Error.OutOfMemory)) }
        ensures cause { FileCause (D.faults disk.old) (D.faults disk.new) result }
    {
        self.document.write_der_file(disk, path)
    }
}

impl fmt::Debug for SecretDocument {
    ghost use Rattle.std.specs.Prelude.{Some, length};
    ghost use Rattle.der_small.specs.SecretDocument.{secret_bytes, secret_debug};

    // It depends on the length alone.
    ghost debug_output = { λ v. Some (secret_debug (length (secret_bytes v))) };

    fn fmt<W: fmt::Write>(&self, f: &mut fmt::Formatter<W>) -> fmt::Result {
        let len = self.document.len();
        write!(f, "SecretDocument {{ len: {len} }}")
    }
}
