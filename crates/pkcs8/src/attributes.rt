//! Attributes of private keys.
ghost use Rattle.std.specs.Prelude.{◌<◌, ◌^◌, ℕ, length};

use der_small::{
    Cursor, DecodeValue, EncodeValue, Error, FixedTag, LawfulValue, Length, Result, Writer,
};
use std::alloc::Global;

/// The tag of attributes.
pub(crate) const ATTRIBUTES: u8 = 0xa0;

/// The attributes of a private key in borrowed bytes (RFC 5958, section 2), such as a friendly name. Their content is kept and not read.
#[derive(Clone, Copy, Debug, PartialEq, Eq)]
pub struct AttributesRef<'a> {
    content: &'a [u8],
    ghost small: { length content.now < 2 ^ 32 },
}

/// The attributes of a private key (RFC 5958, section 2), with bytes of their own.
#[derive(Debug, Drop, PartialEq, Eq)]
pub struct Attributes {
    content: Vec<u8>,
    ghost small: { length content.items < 2 ^ 32 },
}

impl<'a> AttributesRef<'a> {
    ghost use Rattle.std.specs.Prelude.{◌≡◌, ◌≤◌, IfOk, IfErr, OnOk, MatchResult};
    ghost use Rattle.pkcs8.specs.Attributes.{attributes_bytes_ref, attributes_bytes};

    /// Attributes of this content, which is what stands behind their tag and length: one encoding after another. `Overlength` from 2^32 bytes on.
    pub fn new(content: &'a [u8]) -> Result<Self>
        ensures value { IfOk result (λ v. attributes_bytes_ref v ≡ content.now) }
        ensures fits { OnOk result (length content.now < 2 ^ 32) }
        ensures overlength { IfErr result (λ e. (e ≡ Error.Overlength) × (2 ^ 32 ≤ length content.now)) }
    {
        if content.len() >= 0x1_0000_0000 {
            return Err(Error::Overlength);
        }
        Ok(AttributesRef { content })
    }

    /// The content, as it was read.
    pub fn as_bytes(&self) -> &'a [u8]
        ensures { result.now ≡ attributes_bytes_ref self.now }
    {
        self.content
    }

    /// The same attributes with bytes of their own, for when the input doesn't live long enough. `OutOfMemory` alone refuses it.
    pub fn ref_to_owned(&self, alloc: Global) -> Result<Attributes>
        ensures { MatchResult result (λ v. attributes_bytes v ≡ attributes_bytes_ref self.now) (λ e. e ≡ Error.OutOfMemory) }
    {
        match Vec::from_slice(alloc, self.content) {
            Ok(content) => Ok(Attributes { content }),
            Err(_) => Err(Error::OutOfMemory),
        }
    }
}

impl FixedTag for AttributesRef<'_> {
    ghost use Rattle.std.specs.Prelude.{◌≡◌};
    ghost use Rattle.der_core.specs.Tags.{tag_160};
    ghost use Rattle.pkcs8.specs.PrivateKey.{attributes_tag};

    ghost tag = { attributes_tag };

    ghost tag_is_valid = { tag_160 };

    const TAG: u8 = ATTRIBUTES;

    fn tag_byte() -> u8
        ensures { result ≡ attributes_tag }
    {
        Self::TAG
    }
}

impl<'a> DecodeValue<'a> for AttributesRef<'a> {
    ghost use Rattle.std.specs.Prelude.{◌≡◌};

    ghost HasContent = { λ b v. v.content.now ≡ b };

    fn decode_value(cursor: &mut Cursor<'a>) -> Result<Self> {
        let Ok(value) = AttributesRef::new(cursor.rest()) else {
            return Err(Error::Malformed);
        };
        cursor.take_rest();
        Ok(value)
    }
}

impl<'a> EncodeValue for AttributesRef<'a> {
    ghost content = { λ v. v.content.now };

    fn value_len(&self) -> Result<Length> {
        Ok(Length::new(self.content.len() as u32))
    }

    fn encode_value<W: Writer>(&self, writer: &mut W) -> Result<()> {
        writer.write(self.content)
    }
}

impl<'a> LawfulValue<'a> for AttributesRef<'a> {
    ghost use Rattle.std.specs.Prelude.{refl};
    ghost use Rattle.std.proofs.Common.{sym};

    ghost reads_content = { λ b v h. sym h };

    ghost content_reads = { λ v fits. refl };
}

impl Attributes {
    ghost use Rattle.std.specs.Prelude.{◌≡◌};
    ghost use Rattle.pkcs8.specs.Attributes.{attributes_bytes_ref, attributes_bytes};

    /// The content, as it was read.
    pub fn as_bytes(&self) -> &[u8]
        ensures { result.now ≡ attributes_bytes self.now }
    {
        &self.content
    }

    /// The same attributes in borrowed bytes.
    pub fn owned_to_ref(&self) -> AttributesRef<'_>
        ensures { attributes_bytes_ref result ≡ attributes_bytes self.now }
    {
        AttributesRef {
            content: &self.content,
        }
    }
}

impl FixedTag for Attributes {
    ghost use Rattle.der_core.specs.Tags.{tag_160};
    ghost use Rattle.pkcs8.specs.PrivateKey.{attributes_tag};

    ghost tag = { attributes_tag };

    ghost tag_is_valid = { tag_160 };

    const TAG: u8 = ATTRIBUTES;

    fn tag_byte() -> u8 {
        Self::TAG
    }
}

impl EncodeValue for Attributes {
    ghost content = { λ v. v.content.items };

    fn value_len(&self) -> Result<Length> {
        Ok(Length::new(self.content.len() as u32))
    }

    fn encode_value<W: Writer>(&self, writer: &mut W) -> Result<()> {
        writer.write(&self.content)
    }
}
