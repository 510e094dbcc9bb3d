//! Public keys.
ghost use Rattle.std.specs.Prelude.{◌≡◌, ℕ, List, MatchResult};
ghost use Rattle.der_core.specs.Decode.{FromDerOwned};
ghost use Rattle.der_core.specs.Order.{and_then};
ghost use Rattle.der_core.specs.Tags.{sequence_tag, tag_48};
ghost use Rattle.spki.specs.PlainPublicKey.{plain_public_key, plain_public_key_ref, ReadsPublicKey};
ghost use Rattle.spki.specs.PublicKey.{PublicKeyContent, public_key_content};
ghost use Rattle.spki.specs.PublicKeyLaws.{public_key_reads_content, public_key_content_reads};

use crate::{
    AlgorithmIdentifier, DecodePublicKey, DigestWriter, EncodePublicKey, Error, FingerprintBytes,
    Result,
};
use base64ct::{Base64, Encoding};
use der_small::{
    Any, AnyRef, BitString, BitStringRef, Choice, Cursor, Decode, DecodeValue, DerOrd, Document,
    Encode, EncodeValue, FixedTag, Lawful, LawfulValue, Length, Tag, ValueOrd, Writer,
};
use sha2::{Digest, Sha256};
use std::alloc::Global;
use std::cmp::Ordering;

/// A public key and what it is a key of (RFC 5280, section 4.1.2.7).
#[derive(Clone, Debug, Drop, PartialEq, Eq, Hash)]
pub struct SubjectPublicKeyInfo<Params, Key> {
    /// What the key is a key of.
    pub algorithm: AlgorithmIdentifier<Params>,

    /// The key, in the form of its algorithm.
    pub subject_public_key: Key,
}

/// A public key in borrowed bytes.
pub type SubjectPublicKeyInfoRef<'a> = SubjectPublicKeyInfo<AnyRef<'a>, BitStringRef<'a>>;

/// A public key with bytes of its own.
pub type SubjectPublicKeyInfoOwned = SubjectPublicKeyInfo<Any, BitString>;

impl<Params, Key> FixedTag for SubjectPublicKeyInfo<Params, Key> {
    ghost tag = { sequence_tag };

    ghost tag_is_valid = { tag_48 };

    const TAG: u8 = Tag::SEQUENCE;

    fn tag_byte() -> u8
        ensures { result ≡ sequence_tag }
    {
        Tag::SEQUENCE
    }
}

impl<'a, Params: Choice<'a>, Key: Decode<'a>> DecodeValue<'a>
    for SubjectPublicKeyInfo<Params, Key> {
    ghost HasContent = { PublicKeyContent Params.Reads Key.Reads };

    fn decode_value(cursor: &mut Cursor<'a>) -> der_small::Result<Self> {
        let mut at = Cursor::new(cursor.rest());
        let algorithm = AlgorithmIdentifier::<Params>::decode(&mut at)?;
        let subject_public_key = Key::decode(&mut at)?;
        if !at.is_finished() {
            return Err(der_small::Error::Malformed);
        }
        cursor.take_rest();
        Ok(SubjectPublicKeyInfo {
            algorithm,
            subject_public_key,
        })
    }
}

impl<Params: Encode, Key: Encode> EncodeValue for SubjectPublicKeyInfo<Params, Key> {
    ghost content = { public_key_content Params.encoding Key.encoding };

    fn value_len(&self) -> der_small::Result<Length> {
        let algorithm = self.algorithm.encoded_len()?;
        algorithm.checked_add(self.subject_public_key.encoded_len()?)
    }

    fn encode_value<W: Writer>(&self, writer: &mut W) -> der_small::Result<()> {
        let _ = self.value_len()?;
        self.algorithm.encode(writer)?;
        self.subject_public_key.encode(writer)
    }
}

impl<'a, Params: Choice<'a>, Key: Lawful<'a>> LawfulValue<'a>
    for SubjectPublicKeyInfo<Params, Key> {
    ghost reads_content = { λ b v has. public_key_reads_content Params.Reads Key.Reads Params.encoding Key.encoding Params.reads_encoding Key.reads_encoding
        b v has };

    ghost content_reads = { λ v fits. public_key_content_reads Params.Reads Key.Reads Params.encoding Key.encoding Params.encoding_reads Key.encoding_reads
        v fits };
}

impl<Params: DerOrd + Encode, Key: ValueOrd> ValueOrd for SubjectPublicKeyInfo<Params, Key> {
    ghost value_order = { λ a b. and_then (⟦<AlgorithmIdentifier<Params> as DerOrd>⟧.der_order a.algorithm b.algorithm)
        (Key.value_order a.subject_public_key b.subject_public_key) };

    fn value_cmp(&self, other: &Self) -> der_small::Result<Ordering> {
        match self.algorithm.der_cmp(&other.algorithm)? {
            Ordering::Equal => self.subject_public_key.value_cmp(&other.subject_public_key),
            unequal => Ok(unequal),
        }
    }
}

impl<Params: Encode, Key: Encode> SubjectPublicKeyInfo<Params, Key> {
    ghost use Rattle.std.specs.Prelude.{◌<◌, ◌^◌, length, IfOk, IfErr, OnOk, string_bytes};
    ghost use Rattle.der_small.specs.Document.{document_bytes};
    ghost use Rattle.sha2.specs.Sha256.{sha256};
    ghost use Rattle.spki.specs.Fingerprint.{fingerprint_of, IsOverlength, IsOverlengthOrMemory};
    ghost use Rattle.spki.specs.PublicKey.{public_key_encoding};

    /// The fingerprint as people compare it: 44 characters of padded Base64. `Overlength` within `Asn1` where the document would have 2^32 bytes
    /// or more, `OutOfMemory`.
    pub fn fingerprint_base64(&self, alloc: Global) -> Result<String>
        ensures value { IfOk result (λ text. string_bytes text ≡ fingerprint_of (public_key_encoding Params.encoding Key.encoding self.now)) }
        ensures len { IfOk result (λ text. length (string_bytes text) ≡ 44) }
        ensures fits { OnOk result (length (public_key_encoding Params.encoding Key.encoding self.now) < 2 ^ 32) }
        ensures overlength { IfErr result (IsOverlengthOrMemory (public_key_encoding Params.encoding Key.encoding self.now)) }
    {
        let digest = self.fingerprint_bytes()?;
        match Base64::encode_string(alloc, &digest) {
            Ok(text) => Ok(text),
            // 32 bytes are never too many.
            Err(_) => Err(Error::OutOfMemory),
        }
    }

    /// The fingerprint by which the key is known (RFC 7469, section 2.4): the SHA-256 digest of its document, which is not made for this.
    /// `Overlength` within `Asn1` where that would have 2^32 bytes or more.
    pub fn fingerprint_bytes(&self) -> Result<FingerprintBytes>
        ensures value { IfOk result (λ digest. digest ≡ sha256 (public_key_encoding Params.encoding Key.encoding self.now)) }
        ensures fits { OnOk result (length (public_key_encoding Params.encoding Key.encoding self.now) < 2 ^ 32) }
        ensures overlength { IfErr result (IsOverlength (public_key_encoding Params.encoding Key.encoding self.now)) }
    {
        let mut hasher = Sha256::new();
        let mut writer = DigestWriter(&mut hasher);
        self.encode(&mut writer)?;
        Ok(hasher.finalize())
    }

    /// The document in which the key is passed on: `Overlength` within `Asn1` where it would have 2^32 bytes or more, `OutOfMemory`.
    pub fn to_document(&self, alloc: Global) -> Result<Document>
        ensures value { IfOk result (λ document. document_bytes document ≡ public_key_encoding Params.encoding Key.encoding self.now) }
        ensures fits { OnOk result (length (public_key_encoding Params.encoding Key.encoding self.now) < 2 ^ 32) }
        ensures overlength { IfErr result (IsOverlengthOrMemory (public_key_encoding Params.encoding Key.encoding self.now)) }
    {
        Ok(Document::encode_msg(alloc, self)?)
    }
}

impl<'a> SubjectPublicKeyInfo<AnyRef<'a>, BitStringRef<'a>> {
    /// The same key with bytes of its own, for when the input doesn't live long enough. `OutOfMemory` alone refuses it.
    pub fn ref_to_owned(&self, alloc: Global) -> Result<SubjectPublicKeyInfoOwned>
        ensures { MatchResult result (λ v. plain_public_key v ≡ plain_public_key_ref self.now) (λ e. e ≡ Error.OutOfMemory) }
    {
        Ok(SubjectPublicKeyInfo {
            algorithm: self.algorithm.ref_to_owned(alloc)?,
            subject_public_key: self.subject_public_key.ref_to_owned(alloc)?,
        })
    }
}

impl SubjectPublicKeyInfo<Any, BitString> {
    ghost use Rattle.spki.specs.Answers.{FromSource, ReadAnswer};

    /// The public key that another type writes: the refusal of that type, or that of reading what it wrote, or `OutOfMemory`.
    pub fn from_key<T: EncodePublicKey>(alloc: Global, source: &T) -> Result<Self>
        ensures { FromSource plain_public_key (ReadAnswer ReadsPublicKey) (T.document source.now) result }
    {
        let document = source.to_public_key_der(alloc)?;
        Self::from_public_key_der(alloc, document.as_bytes())
    }

    /// Reads one public key and copies it: `Malformed` where the bytes begin with none, `TrailingData` where they have more behind it,
    /// `OutOfMemory`.
    pub fn from_der(alloc: Global, bytes: &[u8]) -> der_small::Result<Self>
        ensures { FromDerOwned plain_public_key ReadsPublicKey bytes.now result }
    {
        match SubjectPublicKeyInfoRef::from_der(bytes) {
            Ok(value) => match value.ref_to_owned(alloc) {
                Ok(value) => Ok(value),
                Err(_) => Err(der_small::Error::OutOfMemory),
            },
            Err(error) => Err(error),
        }
    }

    /// The same key in borrowed bytes.
    pub fn owned_to_ref(&self) -> SubjectPublicKeyInfoRef<'_>
        ensures { plain_public_key_ref result ≡ plain_public_key self.now }
    {
        SubjectPublicKeyInfo {
            algorithm: self.algorithm.owned_to_ref(),
            subject_public_key: self.subject_public_key.owned_to_ref(),
        }
    }
}

impl DecodePublicKey for SubjectPublicKeyInfo<Any, BitString> {
    ghost use Rattle.spki.specs.Answers.{ReadAnswer};
    ghost use Rattle.spki.specs.PlainPublicKey.{PlainPublicKey};
    ghost use Rattle.spki.specs.ReadLaws.{public_key_one_answer, read_no_file};

    ghost Plain = { PlainPublicKey };

    ghost plain = { plain_public_key };

    ghost HasAnswer = { ReadAnswer ReadsPublicKey };

    fn from_public_key_der(alloc: Global, bytes: &[u8]) -> Result<Self> {
        Ok(Self::from_der(alloc, bytes)?)
    }

    ghost one_answer = { public_key_one_answer };

    ghost no_file = { read_no_file ReadsPublicKey };
}

impl EncodePublicKey for SubjectPublicKeyInfo<Any, BitString> {
    ghost use Rattle.spki.specs.Answers.{written_answer};
    ghost use Rattle.spki.specs.PlainPublicKey.{public_key_der};
    ghost use Rattle.spki.specs.ReadLaws.{written_no_file};

    ghost document = { λ v. written_answer (public_key_der (plain_public_key v)) };

    fn to_public_key_der(&self, alloc: Global) -> Result<Document> {
        self.to_document(alloc)
    }

    ghost no_file = { λ v. written_no_file (public_key_der (plain_public_key v)) };
}

impl<'a> EncodePublicKey for SubjectPublicKeyInfo<AnyRef<'a>, BitStringRef<'a>> {
    ghost use Rattle.spki.specs.Answers.{written_answer};
    ghost use Rattle.spki.specs.PlainPublicKey.{public_key_der};
    ghost use Rattle.spki.specs.ReadLaws.{written_no_file};

    ghost document = { λ v. written_answer (public_key_der (plain_public_key_ref v)) };

    fn to_public_key_der(&self, alloc: Global) -> Result<Document> {
        self.to_document(alloc)
    }

    ghost no_file = { λ v. written_no_file (public_key_der (plain_public_key_ref v)) };
}
