//! Private keys.
ghost use Rattle.std.specs.Prelude.{◌≡◌, MatchResult, None};
ghost use Rattle.der_core.specs.Decode.{FromDerOwned};
ghost use Rattle.der_core.specs.Tags.{sequence_tag, tag_48};
ghost use Rattle.pkcs8.specs.PlainPrivateKey.{plain_private_key, plain_private_key_ref, ReadsPrivateKey};
ghost use Rattle.der_core.specs.Decode.{ReadsTagged};
ghost use Rattle.der_core.specs.Der.{encode};
ghost use Rattle.pkcs8.specs.PrivateKeyInfo.{PrivateKeyContent, private_key_content};
ghost use Rattle.spki.specs.Algorithm.{ReadsAlgorithmIdentifier, algorithm_encoding};
ghost use Rattle.pkcs8.specs.Version.{version_of};

use crate::shown::{shown_parameters, shown_public_key};
use crate::tail::{after_key, encode_tail, tail_len};
use crate::{
    Attributes, AttributesRef, BitStringLike, DecodePrivateKey, EncodePrivateKey, Error, Result,
    Version,
};
use der_small::{
    Any, AnyRef, BitString, BitStringRef, Choice, Cursor, Decode, DecodeValue, Encode, EncodeValue,
    FixedTag, Length, OctetString, OctetStringRef, SecretDocument, Tag, Writer,
};
use spki::AlgorithmIdentifier;
use std::alloc::Global;
use std::fmt;

/// A private key and what it is a key of (RFC 5208, section 5, and RFC 5958, section 2). Its debug form shows neither the key nor the attributes, and
/// of parameters whose encoding has more than 128 bytes `..` alone. `Debug` of the field `private_key`
/// by itself shows the octets.
#[derive(Clone, Drop, PartialEq, Eq)]
pub struct PrivateKeyInfo<Params, Key, PubKey, Attrs> {
    /// What the key is a key of.
    pub algorithm: AlgorithmIdentifier<Params>,

    /// The key, in the form of its algorithm. Its own `Debug` may show it: that of `OctetString` does.
    pub private_key: Key,

    /// What is kept with the key, such as a friendly name, where the document holds it.
    pub attributes: Option<Attrs>,

    /// The public key that belongs to it, where the document holds it. That it belongs is not checked.
    pub public_key: Option<PubKey>,
}

/// A private key in borrowed bytes.
pub type PrivateKeyInfoRef<'a> = PrivateKeyInfo<
    AnyRef<'a>,
    OctetStringRef<'a>,
    BitStringRef<'a>,
    AttributesRef<'a>,
>;

/// A private key with bytes of its own.
pub type PrivateKeyInfoOwned = PrivateKeyInfo<Any, OctetString, BitString, Attributes>;

impl<Params, Key, PubKey, Attrs> PrivateKeyInfo<Params, Key, PubKey, Attrs> {
    /// A key without attributes and without its public key.
    pub fn new(algorithm: AlgorithmIdentifier<Params>, private_key: Key) -> Self
        ensures algorithm { result.algorithm ≡ algorithm }
        ensures private_key { result.private_key ≡ private_key }
        ensures attributes { result.attributes ≡ None }
        ensures public_key { result.public_key ≡ None }
    {
        PrivateKeyInfo {
            algorithm,
            private_key,
            attributes: None,
            public_key: None,
        }
    }

    /// The version that is written.
    pub fn version(&self) -> Version
        ensures { result ≡ version_of self.now.public_key }
    {
        match &self.public_key {
            None => Version::V1,
            Some(_) => Version::V2,
        }
    }
}

impl<Params, Key, PubKey, Attrs> FixedTag for PrivateKeyInfo<Params, Key, PubKey, Attrs> {
    ghost tag = { sequence_tag };

    ghost tag_is_valid = { tag_48 };

    const TAG: u8 = Tag::SEQUENCE;

    fn tag_byte() -> u8
        ensures { result ≡ sequence_tag }
    {
        Tag::SEQUENCE
    }
}

impl<
    'a,
    Params: Choice<'a>,
    Key: DecodeValue<'a> + FixedTag,
    PubKey: DecodeValue<'a>,
    Attrs: DecodeValue<'a>,
> DecodeValue<'a> for PrivateKeyInfo<Params, Key, PubKey, Attrs> {
    ghost HasContent = { PrivateKeyContent (record {
      algorithm = ReadsAlgorithmIdentifier Params.Reads;
      private_key = ReadsTagged Key.tag Key.HasContent;
      attributes = Attrs.HasContent;
      public_key = PubKey.HasContent;
    }) };

    fn decode_value(cursor: &mut Cursor<'a>) -> der_small::Result<Self> {
        let mut at = Cursor::new(cursor.rest());
        let version = Version::decode(&mut at)?;
        let algorithm = AlgorithmIdentifier::<Params>::decode(&mut at)?;
        let private_key = Key::decode(&mut at)?;
        let tail = after_key::<Attrs, PubKey>(version, at.rest())?;
        cursor.take_rest();
        Ok(PrivateKeyInfo {
            algorithm,
            private_key,
            attributes: tail.attributes,
            public_key: tail.public_key,
        })
    }
}

impl<
    Params: Encode,
    Key: EncodeValue + FixedTag,
    PubKey: BitStringLike,
    Attrs: EncodeValue,
> EncodeValue for PrivateKeyInfo<Params, Key, PubKey, Attrs> {
    ghost content = { private_key_content (record {
      algorithm = algorithm_encoding Params.encoding;
      private_key = λ key. encode Key.tag (Key.content key);
      attributes = Attrs.content;
      public_key = PubKey.bits;
    }) };

    fn value_len(&self) -> der_small::Result<Length> {
        let version = self.version().encoded_len()?;
        let algorithm = self.algorithm.encoded_len()?;
        let private_key = self.private_key.encoded_len()?;
        let tail = tail_len(&self.attributes, &self.public_key)?;
        let two = version.checked_add(algorithm)?;
        let three = two.checked_add(private_key)?;
        three.checked_add(tail)
    }

    fn encode_value<W: Writer>(&self, writer: &mut W) -> der_small::Result<()> {
        let _ = self.value_len()?;
        self.version().encode(writer)?;
        self.algorithm.encode(writer)?;
        self.private_key.encode(writer)?;
        encode_tail(&self.attributes, &self.public_key, writer)
    }
}

impl<Params: Encode, Key, PubKey: BitStringLike, Attrs> fmt::Debug
    for PrivateKeyInfo<Params, Key, PubKey, Attrs> {
    ghost use Rattle.pkcs8.specs.Shown.{key_debug};

    // The private key and the attributes are no part of it.
    ghost debug_output = { λ v. key_debug Params.encoding PubKey.bits v.algorithm v.public_key };

    fn fmt<W: fmt::Write>(&self, f: &mut fmt::Formatter<W>) -> fmt::Result {
        let version = self.version();
        let oid = self.algorithm.oid;
        let parameters = shown_parameters(&self.algorithm.parameters);
        let public_key = shown_public_key(&self.public_key);
        write!(
            f,
            "PrivateKeyInfo {{ version: {version:?}, algorithm: AlgorithmIdentifier {{ oid: {oid}, parameters: {parameters:?} }}, public_key: {public_key:?} }}"
        )
    }
}

impl<
    Params: Encode,
    Key: EncodeValue + FixedTag,
    PubKey: BitStringLike,
    Attrs: EncodeValue,
> PrivateKeyInfo<Params, Key, PubKey, Attrs> {
    ghost use Rattle.std.specs.Prelude.{◌<◌, ◌^◌, length, IfOk, IfErr, OnOk};
    ghost use Rattle.der_small.specs.SecretDocument.{secret_bytes};
    ghost use Rattle.pkcs8.specs.Answers.{IsOverlengthOrMemory};

    /// The document in which the key is stored: `Overlength` within `Asn1` where it would have 2^32 bytes or more, `OutOfMemory`.
    pub fn to_secret_document(&self, alloc: Global) -> Result<SecretDocument>
        ensures value { IfOk result (λ document. secret_bytes document ≡ ⟦<PrivateKeyInfo<Params, Key, PubKey, Attrs> as Encode>⟧.encoding self.now) }
        ensures fits { OnOk result (length (⟦<PrivateKeyInfo<Params, Key, PubKey, Attrs> as Encode>⟧.encoding self.now) < 2 ^ 32) }
        ensures overlength { IfErr result (IsOverlengthOrMemory (⟦<PrivateKeyInfo<Params, Key, PubKey, Attrs> as Encode>⟧.encoding self.now)) }
    {
        Ok(SecretDocument::encode_msg(alloc, self)?)
    }
}

impl<'a> PrivateKeyInfo<AnyRef<'a>, OctetStringRef<'a>, BitStringRef<'a>, AttributesRef<'a>> {
    /// The same key with bytes of its own, for when the input doesn't live long enough. `OutOfMemory` alone refuses it.
    pub fn ref_to_owned(&self, alloc: Global) -> Result<PrivateKeyInfoOwned>
        ensures { MatchResult result (λ v. plain_private_key v ≡ plain_private_key_ref self.now) (λ e. e ≡ Error.OutOfMemory) }
    {
        let attributes = match &self.attributes {
            None => None,
            Some(attributes) => Some(attributes.ref_to_owned(alloc)?),
        };
        let public_key = match &self.public_key {
            None => None,
            Some(public_key) => Some(public_key.ref_to_owned(alloc)?),
        };
        Ok(PrivateKeyInfo {
            algorithm: self.algorithm.ref_to_owned(alloc)?,
            private_key: self.private_key.ref_to_owned(alloc)?,
            attributes,
            public_key,
        })
    }
}

impl PrivateKeyInfo<Any, OctetString, BitString, Attributes> {
    /// Reads one private key and copies it: `Malformed` where the bytes begin with none, `TrailingData` where they have more behind it,
    /// `OutOfMemory`.
    pub fn from_der(alloc: Global, bytes: &[u8]) -> der_small::Result<Self>
        ensures { FromDerOwned plain_private_key ReadsPrivateKey bytes.now result }
    {
        match PrivateKeyInfoRef::from_der(bytes) {
            Ok(value) => match value.ref_to_owned(alloc) {
                Ok(value) => Ok(value),
                Err(_) => Err(der_small::Error::OutOfMemory),
            },
            Err(error) => Err(error),
        }
    }

    /// The same key in borrowed bytes.
    pub fn owned_to_ref(&self) -> PrivateKeyInfoRef<'_>
        ensures { plain_private_key_ref result ≡ plain_private_key self.now }
    {
        PrivateKeyInfo {
            algorithm: self.algorithm.owned_to_ref(),
            private_key: self.private_key.owned_to_ref(),
            attributes: self.attributes.as_ref().map(|a| a.owned_to_ref()),
            public_key: self.public_key.as_ref().map(|k| k.owned_to_ref()),
        }
    }
}

impl DecodePrivateKey for PrivateKeyInfo<Any, OctetString, BitString, Attributes> {
    ghost use Rattle.pkcs8.specs.Answers.{ReadAnswer};
    ghost use Rattle.pkcs8.specs.PlainPrivateKey.{PlainPrivateKey};
    ghost use Rattle.pkcs8.specs.ReadLaws.{private_key_one_answer, read_no_file};

    ghost Plain = { PlainPrivateKey };

    ghost plain = { plain_private_key };

    ghost HasAnswer = { ReadAnswer ReadsPrivateKey };

    fn from_pkcs8_der(alloc: Global, bytes: &[u8]) -> Result<Self> {
        Ok(Self::from_der(alloc, bytes)?)
    }

    ghost one_answer = { private_key_one_answer };

    ghost no_file = { read_no_file ReadsPrivateKey };
}

impl EncodePrivateKey for PrivateKeyInfo<Any, OctetString, BitString, Attributes> {
    ghost use Rattle.pkcs8.specs.Answers.{written_answer};
    ghost use Rattle.pkcs8.specs.PlainPrivateKey.{private_key_der};
    ghost use Rattle.pkcs8.specs.ReadLaws.{written_no_file};

    ghost document = { λ v. written_answer (private_key_der (plain_private_key v)) };

    fn to_pkcs8_der(&self, alloc: Global) -> Result<SecretDocument> {
        self.to_secret_document(alloc)
    }

    ghost no_file = { λ v. written_no_file (private_key_der (plain_private_key v)) };
}

impl<'a> EncodePrivateKey
    for PrivateKeyInfo<AnyRef<'a>, OctetStringRef<'a>, BitStringRef<'a>, AttributesRef<'a>> {
    ghost use Rattle.pkcs8.specs.Answers.{written_answer};
    ghost use Rattle.pkcs8.specs.PlainPrivateKey.{private_key_der};
    ghost use Rattle.pkcs8.specs.ReadLaws.{written_no_file};

    ghost document = { λ v. written_answer (private_key_der (plain_private_key_ref v)) };

    fn to_pkcs8_der(&self, alloc: Global) -> Result<SecretDocument> {
        self.to_secret_document(alloc)
    }

    ghost no_file = { λ v. written_no_file (private_key_der (plain_private_key_ref v)) };
}
