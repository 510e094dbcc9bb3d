//! Types that are read from private key documents or written as such.
ghost use Rattle.std.specs.Prelude.{◌≡◌, ℕ, List, Result as Answer, Err};
ghost use Rattle.der_small.specs.BitString.{plain_bits_ref, plain_bits};
ghost use Rattle.der_small.specs.SecretDocument.{secret_bytes};
ghost use Rattle.pkcs8.specs.Answers.{IsOfAFile, GivesValue, GivesBytes};
ghost use Rattle.std.specs.Option.{ForSome};
ghost use Rattle.identity_io.specs.Files.{file_at};
ghost use Rattle.der_small.specs.KeyFiles.{KeyFileCause, ReadsKeyFile, WritesKeyFile};
ghost use Rattle.pkcs8.specs.Error.{from_der_error, kind_of};
ghost use Rattle.pkcs8.specs.PlainPrivateKey.{bits_content};
ghost use Rattle.pkcs8.specs.declared.error.Error.{Error as Refusal};

use crate::Result;
use crate::key_file::{read_key_file, write_key_file};
use der_small::{BitString, BitStringRef, SecretDocument};
use identity_io::Disk;
use std::alloc::Global;

/// What can be seen as a bit string, as the public key of a private key is.
pub trait BitStringLike {
    // The content of the bit string.
    ghost bits: { Self → List ℕ };

    /// The bit string, in bytes that stay borrowed.
    fn as_bit_string(&self) -> BitStringRef<'_>
        ensures { bits_content (plain_bits_ref result) ≡ bits self.now };
}

impl<'a> BitStringLike for BitStringRef<'a> {
    ghost bits = { λ v. bits_content (plain_bits_ref v) };

    fn as_bit_string(&self) -> BitStringRef<'_> {
        *self
    }
}

impl BitStringLike for BitString {
    ghost bits = { λ v. bits_content (plain_bits v) };

    fn as_bit_string(&self) -> BitStringRef<'_> {
        self.owned_to_ref()
    }
}

/// A type that is read from the document of a private key. A type of one algorithm's keys says by
/// `TakesSome` which of the keys of `PrivateKeyInfoOwned` it takes, and has its two laws by
/// `takes_some_one` and `takes_some_no_file`.
pub trait DecodePrivateKey: Sized + Drop {
    // What contracts see of a key.
    ghost Plain: { Type 0 };

    ghost plain: { Self → Plain };

    // The one answer to each list of bytes.
    ghost HasAnswer: { List ℕ → Answer Plain Refusal → Type 0 };

    /// Reads the document of a key of this type, and refuses as the type's `HasAnswer` says, or as `OutOfMemory`.
    fn from_pkcs8_der(alloc: Global, bytes: &[u8]) -> Result<Self>
        ensures { GivesValue plain HasAnswer bytes.now result };

    ghost one_answer: { (bytes : List ℕ) (one other : Answer Plain Refusal) → HasAnswer bytes one → HasAnswer bytes other → one ≡ other };

    ghost no_file: { (bytes : List ℕ) (e : Refusal) → HasAnswer bytes (Err e) → IsOfAFile e → ⊥ };

    /// Reads a key from a file, which is read as a document first. Within `Asn1` it refuses as `SecretDocument::read_der_file` does, with
    /// `FileTooLong` above 16,777,216 bytes, and behind that as `from_pkcs8_der` does.
    final fn read_pkcs8_der_file<D: Disk>(alloc: Global, disk: &mut D, path: &str) -> Result<Self>
        ensures read { ForSome (D.files disk.old) (λ known. ReadsKeyFile kind_of plain HasAnswer (file_at path.now known) result) }
        ensures kept { D.files disk.new ≡ D.files disk.old }
        ensures cause { KeyFileCause from_der_error (D.faults disk.old) (D.faults disk.new) result }
    {
        read_key_file(alloc, disk, path)
    }
}

/// A type that is written as the document of a private key. Where it is written as a `PrivateKeyInfo` is, its law is `written_no_file`.
pub trait EncodePrivateKey {
    // The one answer of each value: the bytes of its document, or why it has none.
    ghost document: { Self → Answer (List ℕ) Refusal };

    /// The document of the key, or the type's own refusal, or `OutOfMemory`.
    fn to_pkcs8_der(&self, alloc: Global) -> Result<SecretDocument>
        ensures { GivesBytes secret_bytes (document self.now) result };

    ghost no_file: { (v : Self) (e : Refusal) → document v ≡ Err e → IsOfAFile e → ⊥ };

    /// Writes the document of the key to a file, which is not protected: that is the caller's to do.
    /// `StdDisk` makes a new file that all may read, as far as the mask of the process lets them, and
    /// leaves an old file its permissions. It empties an old file before it writes: after a fault the
    /// file may hold a first part of the document, or nothing, and the old key is gone. It refuses as
    /// `to_pkcs8_der` does, and then nothing is written, or as `FileFault` within `Asn1`.
    final fn write_pkcs8_der_file<D: Disk>(
        &self,
        alloc: Global,
        disk: &mut D,
        path: &str,
    ) -> Result<()>
        ensures wrote { WritesKeyFile from_der_error (document self.now) path.now (D.files disk.old) (D.files disk.new) result }
        ensures cause { KeyFileCause from_der_error (D.faults disk.old) (D.faults disk.new) result }
    {
        write_key_file(self, alloc, disk, path)
    }
}
