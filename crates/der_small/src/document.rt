//! Documents of one value.
ghost use Rattle.std.specs.Prelude.{ℕ};
ghost use Rattle.der_core.specs.Der.{IsValue};

use crate::file::{read_bytes, write_bytes};
use der_core::{AnyRef, Decode, Encode, Error};
use identity_io::Disk;
use std::alloc::Global;

/// The bytes of exactly one value of any tag, such as a public key as it is passed on.
#[derive(Debug, Drop, PartialEq, Eq, PartialOrd, Ord, Hash)]
pub struct Document {
    bytes: Vec<u8>,
    ghost one: { ∥ IsValue bytes.items ∥₁ },
}

impl Document {
    ghost use Rattle.std.specs.Prelude.{◌≡◌, ◌⊎◌, length, IfErr};
    ghost use Rattle.std.specs.Option.{ForSome};
    ghost use Rattle.identity_io.specs.Files.{file_at, Wrote};
    ghost use Rattle.der_core.specs.Decode.{FromDer, FromDerOwned};
    ghost use Rattle.der_small.specs.Document.{document_bytes};
    ghost use Rattle.der_small.specs.Files.{FileCause, ReadsFile};
    ghost use Rattle.der_small.specs.OneValue.{IsOneValue, EncodedAs};

    /// Copies the bytes, where they are one value: `Malformed` where they begin with none, `TrailingData` where they have more behind it,
    /// `OutOfMemory`.
    pub fn from_der(alloc: Global, bytes: &[u8]) -> Result<Document, Error>
        ensures { FromDerOwned document_bytes IsOneValue bytes.now result }
    {
        let _ = AnyRef::from_der(bytes)?;
        Ok(Document {
            bytes: Vec::from_slice(alloc, bytes)?,
        })
    }

    /// The whole encoding.
    pub fn as_bytes(&self) -> &[u8]
        ensures { result.now ≡ document_bytes self.now }
    {
        &self.bytes
    }

    /// How many bytes it has, header included.
    pub fn len(&self) -> usize
        ensures { result ≡ length (document_bytes self.now) }
    {
        self.bytes.len()
    }

    /// Reads the bytes as a value of another type: `Malformed` where they begin with no encoding of one, `TrailingData` where they have more
    /// behind it.
    pub fn decode_msg<'a, T: Decode<'a>>(&'a self) -> Result<T, Error>
        ensures { FromDer T.Reads (document_bytes self.now) result }
    {
        T::from_der(&self.bytes)
    }

    /// The document that a value is written as: `Overlength` where it would have 2^32 bytes or more, `OutOfMemory`.
    pub fn encode_msg<T: Encode>(alloc: Global, value: &T) -> Result<Document, Error>
        ensures { EncodedAs document_bytes (T.encoding value.now) result }
    {
        Ok(Document {
            bytes: value.to_der(alloc)?,
        })
    }

    /// Reads a file of at most 16 MiB that holds exactly one value: `FileMissing`, `FileTooLong`, `FileFault` or `OutOfMemory` where the bytes
    /// can't be had, and else the refusals of `from_der`.
    pub fn read_der_file<D: Disk>(
        alloc: Global,
        disk: &mut D,
        path: &str,
    ) -> Result<Document, Error>
        ensures read { ForSome (D.files disk.old) (λ known. ReadsFile document_bytes (file_at path.now known) result) }
        ensures kept { D.files disk.new ≡ D.files disk.old }
        ensures cause { FileCause (D.faults disk.old) (D.faults disk.new) result }
    {
        let bytes = read_bytes(alloc, disk, path)?;
        Document::from_der(alloc, &bytes)
    }

    /// Writes the bytes to a file: `FileFault` where the disk fails, which may leave a first part of them there, or `OutOfMemory`.
    pub fn write_der_file<D: Disk>(&self, disk: &mut D, path: &str) -> Result<(), Error>
        ensures wrote { Wrote path.now (document_bytes self.now) (D.files disk.old) (D.files disk.new) result }
        ensures answers { IfErr result (λ e. (e ≡ Error.FileFault) ⊎ (e ≡ Error.OutOfMemory)) }
        ensures cause { FileCause (D.faults disk.old) (D.faults disk.new) result }
    {
        write_bytes(disk, path, &self.bytes)
    }
}
