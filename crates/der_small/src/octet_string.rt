//! Octet strings.
ghost use Rattle.std.specs.Prelude.{◌<◌, ◌^◌, ℕ, length};

use der_core::{
    Cursor, Decode, DecodeValue, EncodeValue, Error, FixedTag, LawfulValue, Length, Tag, ValueOrd,
    Writer,
};
use std::alloc::Global;
use std::cmp::Ordering;

/// An octet string in borrowed bytes (X.690, 8.7).
#[derive(Clone, Copy, Debug, PartialEq, Eq, PartialOrd, Ord, Hash)]
pub struct OctetStringRef<'a> {
    bytes: &'a [u8],
    ghost small: { length bytes.now < 2 ^ 32 },
}

/// An octet string with bytes of its own (X.690, 8.7).
#[derive(Debug, Drop, PartialEq, Eq, PartialOrd, Ord, Hash)]
pub struct OctetString {
    bytes: Vec<u8>,
    ghost small: { length bytes.items < 2 ^ 32 },
}

impl<'a> OctetStringRef<'a> {
    ghost use Rattle.std.specs.Prelude.{◌≡◌, ◌<◌, ◌≤◌, ◌^◌, length, IfOk, IfErr, OnOk, MatchResult};
    ghost use Rattle.der_small.specs.OctetString.{octets_ref, octets};

    /// A string of these octets, which are not read: `Overlength` from 2^32 on.
    pub fn new(bytes: &'a [u8]) -> Result<Self, Error>
        ensures value { IfOk result (λ v. octets_ref v ≡ bytes.now) }
        ensures fits { OnOk result (length bytes.now < 2 ^ 32) }
        ensures overlength { IfErr result (λ e. (e ≡ Error.Overlength) × (2 ^ 32 ≤ length bytes.now)) }
    {
        if bytes.len() >= 0x1_0000_0000 {
            return Err(Error::Overlength);
        }
        Ok(OctetStringRef { bytes })
    }

    /// The octets.
    pub fn as_bytes(&self) -> &'a [u8]
        ensures { result.now ≡ octets_ref self.now }
    {
        self.bytes
    }

    /// The same string with bytes of its own. `OutOfMemory` alone refuses it.
    pub fn ref_to_owned(&self, alloc: Global) -> Result<OctetString, Error>
        ensures { MatchResult result (λ v. octets v ≡ octets_ref self.now) (λ e. e ≡ Error.OutOfMemory) }
    {
        Ok(OctetString {
            bytes: Vec::from_slice(alloc, self.bytes)?,
        })
    }
}

impl FixedTag for OctetStringRef<'_> {
    ghost use Rattle.std.specs.Prelude.{◌≡◌};
    ghost use Rattle.der_core.specs.Tags.{octet_string_tag, tag_4};

    ghost tag = { octet_string_tag };

    ghost tag_is_valid = { tag_4 };

    const TAG: u8 = Tag::OCTET_STRING;

    fn tag_byte() -> u8
        ensures { result ≡ octet_string_tag }
    {
        Self::TAG
    }
}

impl<'a> DecodeValue<'a> for OctetStringRef<'a> {
    ghost use Rattle.std.specs.Prelude.{◌≡◌};

    ghost HasContent = { λ b v. v.bytes.now ≡ b };

    fn decode_value(cursor: &mut Cursor<'a>) -> Result<Self, Error> {
        let Ok(value) = OctetStringRef::new(cursor.rest()) else {
            return Err(Error::Malformed);
        };
        cursor.take_rest();
        Ok(value)
    }
}

impl<'a> EncodeValue for OctetStringRef<'a> {
    ghost content = { λ v. v.bytes.now };

    fn value_len(&self) -> Result<Length, Error> {
        Ok(Length::new(self.bytes.len() as u32))
    }

    fn encode_value<W: Writer>(&self, writer: &mut W) -> Result<(), Error> {
        writer.write(self.bytes)
    }
}

impl<'a> LawfulValue<'a> for OctetStringRef<'a> {
    ghost use Rattle.std.specs.Prelude.{refl};
    ghost use Rattle.std.proofs.Common.{sym};

    ghost reads_content = { λ b v h. sym h };

    ghost content_reads = { λ v fits. refl };
}

impl<'a> ValueOrd for OctetStringRef<'a> {
    ghost use Rattle.der_core.specs.Order.{content_order};

    ghost value_order = { content_order (λ v. v.bytes.now) };

    fn value_cmp(&self, other: &Self) -> Result<Ordering, Error> {
        Ok(self.bytes.cmp(other.bytes))
    }
}

impl OctetString {
    ghost use Rattle.std.specs.Prelude.{◌≡◌};
    ghost use Rattle.der_core.specs.Decode.{FromDerOwned, ReadsTagged};
    ghost use Rattle.der_core.specs.Tags.{octet_string_tag};
    ghost use Rattle.der_small.specs.OctetString.{octets_ref, octets};

    /// Reads one octet string and copies it: `Malformed` where the bytes begin with none, `TrailingData` where they have more behind it,
    /// `OutOfMemory`.
    pub fn from_der(alloc: Global, bytes: &[u8]) -> Result<OctetString, Error>
        ensures { FromDerOwned octets (ReadsTagged octet_string_tag (λ content octets. octets ≡ content)) bytes.now result }
    {
        OctetStringRef::from_der(bytes)?.ref_to_owned(alloc)
    }

    /// The octets.
    pub fn as_bytes(&self) -> &[u8]
        ensures { result.now ≡ octets self.now }
    {
        &self.bytes
    }

    /// The same string in borrowed bytes.
    pub fn owned_to_ref(&self) -> OctetStringRef<'_>
        ensures { octets_ref result ≡ octets self.now }
    {
        OctetStringRef { bytes: &self.bytes }
    }
}

impl FixedTag for OctetString {
    ghost use Rattle.der_core.specs.Tags.{octet_string_tag, tag_4};

    ghost tag = { octet_string_tag };

    ghost tag_is_valid = { tag_4 };

    const TAG: u8 = Tag::OCTET_STRING;

    fn tag_byte() -> u8 {
        Self::TAG
    }
}

impl EncodeValue for OctetString {
    ghost content = { λ v. v.bytes.items };

    fn value_len(&self) -> Result<Length, Error> {
        self.owned_to_ref().value_len()
    }

    fn encode_value<W: Writer>(&self, writer: &mut W) -> Result<(), Error> {
        self.owned_to_ref().encode_value(writer)
    }
}

impl ValueOrd for OctetString {
    ghost use Rattle.der_core.specs.Order.{content_order};

    ghost value_order = { content_order (λ v. v.bytes.items) };

    fn value_cmp(&self, other: &Self) -> Result<Ordering, Error> {
        Ok(self.as_bytes().cmp(other.as_bytes()))
    }
}
