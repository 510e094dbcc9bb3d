//! Types that are read from public key documents or written as such, and algorithms that belong to a type.
ghost use Rattle.std.specs.Prelude.{◌≡◌, ℕ, List, Result as Answer, Ok, Err};
ghost use Rattle.der_core.specs.declared.error.Error.{Error as DerError};
ghost use Rattle.der_small.specs.Bits.{PlainBits};
ghost use Rattle.der_small.specs.BitString.{plain_bits};
ghost use Rattle.der_small.specs.Document.{document_bytes};
ghost use Rattle.spki.specs.declared.error.Error.{Error as Refusal};
ghost use Rattle.spki.specs.Answers.{IsOfAFile, GivesValue, GivesBytes, GivesBits};
ghost use Rattle.std.specs.Option.{ForSome};
ghost use Rattle.identity_io.specs.Files.{file_at};
ghost use Rattle.der_small.specs.KeyFiles.{KeyFileCause, ReadsKeyFile, WritesKeyFile};
ghost use Rattle.spki.specs.Error.{from_der_error, kind_of};
ghost use Rattle.spki.specs.Identifier.{Identifier, OwnedIdentifier, identifier_of};

use crate::key_file::{read_key_file, write_key_file};
use crate::{AlgorithmIdentifier, AlgorithmIdentifierOwned, Result};
use der_small::{Any, BitString, Document, Encode};
use identity_io::Disk;
use std::alloc::Global;

/// A type that is read from the document of a public key. A type of one algorithm's keys says by
/// `TakesSome` which of the keys of `SubjectPublicKeyInfoOwned` it takes, and has its two laws by
/// `takes_some_one` and `takes_some_no_file`.
pub trait DecodePublicKey: Sized + Drop {
    // What contracts see of a key.
    ghost Plain: { Type 0 };

    ghost plain: { Self → Plain };

    // The one answer to each list of bytes.
    ghost HasAnswer: { List ℕ → Answer Plain Refusal → Type 0 };

    /// Reads the document of a key of this type, and refuses as the type's `HasAnswer` says, or as `OutOfMemory`.
    fn from_public_key_der(alloc: Global, bytes: &[u8]) -> Result<Self>
        ensures { GivesValue plain HasAnswer bytes.now result };

    ghost one_answer: { (bytes : List ℕ) (one other : Answer Plain Refusal) → HasAnswer bytes one → HasAnswer bytes other → one ≡ other };

    ghost no_file: { (bytes : List ℕ) (e : Refusal) → HasAnswer bytes (Err e) → IsOfAFile e → ⊥ };

    /// Reads a key from a file, which is read as a document first. Within `Asn1` it refuses as `Document::read_der_file` does, with `FileTooLong`
    /// above 16,777,216 bytes, and behind that as `from_public_key_der` does.
    final fn read_public_key_der_file<D: Disk>(
        alloc: Global,
        disk: &mut D,
        path: &str,
    ) -> Result<Self>
        ensures read { ForSome (D.files disk.old) (λ known. ReadsKeyFile kind_of plain HasAnswer (file_at path.now known) result) }
        ensures kept { D.files disk.new ≡ D.files disk.old }
        ensures cause { KeyFileCause from_der_error (D.faults disk.old) (D.faults disk.new) result }
    {
        read_key_file(alloc, disk, path)
    }
}

/// A type that is written as the document of a public key. Where it is written as a `SubjectPublicKeyInfo` is, its law is `written_no_file`.
pub trait EncodePublicKey {
    // The one answer of each value: the bytes of its document, or why it has none.
    ghost document: { Self → Answer (List ℕ) Refusal };

    /// The document of the key, or the type's own refusal, or `OutOfMemory`.
    fn to_public_key_der(&self, alloc: Global) -> Result<Document>
        ensures { GivesBytes document_bytes (document self.now) result };

    ghost no_file: { (v : Self) (e : Refusal) → document v ≡ Err e → IsOfAFile e → ⊥ };

    /// Writes the document of the key to a file. `StdDisk` makes a new file that all may read, as far
    /// as the mask of the process lets them, and leaves an old file its permissions. It empties an old
    /// file before it writes: after a fault the file may hold a first part of the document, or nothing.
    /// It refuses as `to_public_key_der` does, and then nothing is written, or as `FileFault` within `Asn1`.
    final fn write_public_key_der_file<D: Disk>(
        &self,
        alloc: Global,
        disk: &mut D,
        path: &str,
    ) -> Result<()>
        ensures wrote { WritesKeyFile from_der_error (document self.now) path.now (D.files disk.old) (D.files disk.new) result }
        ensures cause { KeyFileCause from_der_error (D.faults disk.old) (D.faults disk.new) result }
    {
        write_key_file(self, alloc, disk, path)
    }
}

/// A type whose values are all keys of one algorithm.
pub trait AssociatedAlgorithmIdentifier {
    /// What the algorithm needs to know beside the key.
    type Params: Encode + Drop;

    ghost algorithm: { Identifier };

    /// The algorithm of the type.
    fn associated_algorithm_identifier() -> AlgorithmIdentifier<Self::Params>
        ensures { identifier_of Self.Params.encoding result ≡ algorithm };
}

/// A type whose values each tell the algorithm that they are keys of.
pub trait DynAssociatedAlgorithmIdentifier {
    ghost algorithm_of: { Self → Identifier };

    /// The algorithm of this key: `Overlength` within `Asn1` where its parameters would have 2^32 bytes or more, `OutOfMemory`.
    fn algorithm_identifier(&self, alloc: Global) -> Result<AlgorithmIdentifierOwned>
        ensures { OwnedIdentifier (algorithm_of self.now) result };
}

impl<T: AssociatedAlgorithmIdentifier> DynAssociatedAlgorithmIdentifier for T {
    ghost algorithm_of = { λ _. T.algorithm };

    fn algorithm_identifier(&self, alloc: Global) -> Result<AlgorithmIdentifierOwned> {
        owned_identifier(alloc, &T::associated_algorithm_identifier())
    }
}

/// A type whose keys make or check signatures of one algorithm.
pub trait SignatureAlgorithmIdentifier {
    /// What the algorithm needs to know beside the key.
    type Params: Encode + Drop;

    ghost algorithm: { Identifier };

    /// The algorithm of the type's signatures.
    fn associated_signature_algorithm_identifier() -> AlgorithmIdentifier<Self::Params>
        ensures { identifier_of Self.Params.encoding result ≡ algorithm };
}

/// A type whose keys each tell the algorithm of their signatures.
pub trait DynSignatureAlgorithmIdentifier {
    ghost signature_algorithm_of: { Self → Identifier };

    /// The algorithm of this key's signatures: `Overlength` within `Asn1` where its parameters would have 2^32 bytes or more, `OutOfMemory`.
    fn signature_algorithm_identifier(&self, alloc: Global) -> Result<AlgorithmIdentifierOwned>
        ensures { OwnedIdentifier (signature_algorithm_of self.now) result };
}

impl<T: SignatureAlgorithmIdentifier> DynSignatureAlgorithmIdentifier for T {
    ghost signature_algorithm_of = { λ _. T.algorithm };

    fn signature_algorithm_identifier(&self, alloc: Global) -> Result<AlgorithmIdentifierOwned> {
        owned_identifier(alloc, &T::associated_signature_algorithm_identifier())
    }
}

/// A signature that certificates hold as a bit string.
pub trait SignatureBitStringEncoding {
    // The one answer of each signature.
    ghost bits: { Self → Answer PlainBits DerError };

    /// The bit string of the signature, or the type's own refusal, or `OutOfMemory`.
    fn to_bitstring(&self, alloc: Global) -> der_small::Result<BitString>
        ensures { GivesBits plain_bits (bits self.now) result };
}

/// The same identifier, with bytes of its own.
fn owned_identifier<Params: Encode>(
    alloc: Global,
    identifier: &AlgorithmIdentifier<Params>,
) -> Result<AlgorithmIdentifierOwned>
    ensures { OwnedIdentifier (identifier_of Params.encoding identifier.now) result }
{
    let parameters = match &identifier.parameters {
        None => None,
        Some(parameters) => Some(Any::encode_from(alloc, parameters)?),
    };
    Ok(AlgorithmIdentifier {
        oid: identifier.oid,
        parameters,
    })
}
