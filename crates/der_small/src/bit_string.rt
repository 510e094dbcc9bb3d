//! Bit strings.
ghost use Rattle.std.specs.Prelude.{◌<◌, ◌^◌, ℕ, length};
ghost use Rattle.der_small.specs.Bits.{AreBits};

use der_core::{
    Cursor, Decode, DecodeValue, EncodeValue, Error, FixedTag, LawfulValue, Length, Tag, ValueOrd,
    Writer,
};
use std::alloc::Global;
use std::cmp::Ordering;

/// A bit string in borrowed bytes (X.690, 8.6). The unused bits of the last octet may have any value and are kept.
#[derive(Clone, Copy, Debug, PartialEq, Eq, PartialOrd, Ord, Hash)]
pub struct BitStringRef<'a> {
    unused_bits: u8,
    raw: &'a [u8],
    ghost are_bits: { AreBits unused_bits raw.now },
}

/// A bit string with bytes of its own (X.690, 8.6).
#[derive(Debug, Drop, PartialEq, Eq, PartialOrd, Ord, Hash)]
pub struct BitString {
    unused_bits: u8,
    raw: Vec<u8>,
    ghost are_bits: { AreBits unused_bits raw.items },
}

impl<'a> BitStringRef<'a> {
    ghost use Rattle.std.specs.Prelude.{◌≡◌, ◌⊎◌, ◌+◌, ◌≤◌, ◌^◌, ◌↔◌, length, IfOk, IfErr, OnOk, IsErrOf, MatchResult};
    ghost use Rattle.der_small.specs.Bits.{AreBits, HasBadCount};
    ghost use Rattle.der_small.specs.BitString.{plain_bits_ref, plain_bits};

    /// `unused_bits` counts the low bits of the last octet that are no part of the string. `Malformed` where it is above 7, or isn't 0 and
    /// there are no octets; `Overlength` from 2^32 - 1 octets on.
    pub fn new(unused_bits: u8, raw: &'a [u8]) -> Result<Self, Error>
        ensures value { IfOk result (λ v. plain_bits_ref v ≡ record { unused_bits = unused_bits; octets = raw.now }) }
        ensures bits { OnOk result (AreBits unused_bits raw.now) }
        ensures malformed { IsErrOf result Error.Malformed ↔ HasBadCount unused_bits raw.now }
        ensures overlength { IsErrOf result Error.Overlength → 2 ^ 32 ≤ length raw.now + 1 }
        ensures causes { IfErr result (λ e. (e ≡ Error.Malformed) ⊎ (e ≡ Error.Overlength)) }
    {
        if unused_bits > 7 || (unused_bits != 0 && raw.is_empty()) {
            return Err(Error::Malformed);
        }
        if raw.len() >= 0xffff_ffff {
            return Err(Error::Overlength);
        }
        Ok(BitStringRef { unused_bits, raw })
    }

    /// How many low bits of the last octet are no part of the string.
    pub fn unused_bits(&self) -> u8
        ensures { result ≡ (plain_bits_ref self.now).unused_bits }
    {
        self.unused_bits
    }

    /// The octets, the last one with its unused bits.
    pub fn raw_bytes(&self) -> &'a [u8]
        ensures { result.now ≡ (plain_bits_ref self.now).octets }
    {
        self.raw
    }

    /// The same string with bytes of its own. `OutOfMemory` alone refuses it.
    pub fn ref_to_owned(&self, alloc: Global) -> Result<BitString, Error>
        ensures { MatchResult result (λ v. plain_bits v ≡ plain_bits_ref self.now) (λ e. e ≡ Error.OutOfMemory) }
    {
        Ok(BitString {
            unused_bits: self.unused_bits,
            raw: Vec::from_slice(alloc, self.raw)?,
        })
    }
}

impl<'a> FixedTag for BitStringRef<'a> {
    ghost use Rattle.std.specs.Prelude.{◌≡◌};
    ghost use Rattle.der_core.specs.Tags.{bit_string_tag, tag_3};

    ghost tag = { bit_string_tag };

    ghost tag_is_valid = { tag_3 };

    const TAG: u8 = Tag::BIT_STRING;

    fn tag_byte() -> u8
        ensures { result ≡ bit_string_tag }
    {
        Self::TAG
    }
}

impl<'a> DecodeValue<'a> for BitStringRef<'a> {
    ghost use Rattle.std.specs.Prelude.{◌≡◌, ◌∷◌};

    ghost HasContent = { λ b v. b ≡ v.unused_bits ∷ v.raw.now };

    fn decode_value(cursor: &mut Cursor<'a>) -> Result<Self, Error> {
        let Some((unused_bits, raw)) = cursor.rest().split_first() else {
            return Err(Error::Malformed);
        };
        let Ok(value) = BitStringRef::new(*unused_bits, raw) else {
            return Err(Error::Malformed);
        };
        cursor.take_rest();
        Ok(value)
    }
}

impl<'a> EncodeValue for BitStringRef<'a> {
    ghost use Rattle.std.specs.Prelude.{◌∷◌};

    ghost content = { λ v. v.unused_bits ∷ v.raw.now };

    fn value_len(&self) -> Result<Length, Error> {
        Ok(Length::new(self.raw.len() as u32 + 1))
    }

    fn encode_value<W: Writer>(&self, writer: &mut W) -> Result<(), Error> {
        writer.write(&[self.unused_bits])?;
        writer.write(self.raw)
    }
}

impl<'a> LawfulValue<'a> for BitStringRef<'a> {
    ghost use Rattle.std.specs.Prelude.{refl};

    ghost reads_content = { λ b v h. h };

    ghost content_reads = { λ v fits. refl };
}

impl<'a> ValueOrd for BitStringRef<'a> {
    ghost use Rattle.std.specs.Prelude.{◌∷◌};
    ghost use Rattle.der_core.specs.Order.{content_order};

    ghost value_order = { content_order (λ v. v.unused_bits ∷ v.raw.now) };

    fn value_cmp(&self, other: &Self) -> Result<Ordering, Error> {
        Ok(self.cmp(other))
    }
}

impl BitString {
    ghost use Rattle.std.specs.Prelude.{◌≡◌};
    ghost use Rattle.der_core.specs.Decode.{FromDerOwned, ReadsTagged};
    ghost use Rattle.der_core.specs.Tags.{bit_string_tag};
    ghost use Rattle.der_small.specs.Bits.{BitsContent};
    ghost use Rattle.der_small.specs.BitString.{plain_bits_ref, plain_bits};

    /// Reads one bit string and copies it: `Malformed` where the bytes begin with none, `TrailingData` where they have more behind it,
    /// `OutOfMemory`.
    pub fn from_der(alloc: Global, bytes: &[u8]) -> Result<BitString, Error>
        ensures { FromDerOwned plain_bits (ReadsTagged bit_string_tag BitsContent) bytes.now result }
    {
        BitStringRef::from_der(bytes)?.ref_to_owned(alloc)
    }

    /// How many low bits of the last octet are no part of the string.
    pub fn unused_bits(&self) -> u8
        ensures { result ≡ (plain_bits self.now).unused_bits }
    {
        self.unused_bits
    }

    /// The octets, the last one with its unused bits.
    pub fn raw_bytes(&self) -> &[u8]
        ensures { result.now ≡ (plain_bits self.now).octets }
    {
        &self.raw
    }

    /// The same string in borrowed bytes.
    pub fn owned_to_ref(&self) -> BitStringRef<'_>
        ensures { plain_bits_ref result ≡ plain_bits self.now }
    {
        BitStringRef {
            unused_bits: self.unused_bits,
            raw: &self.raw,
        }
    }
}

impl FixedTag for BitString {
    ghost use Rattle.der_core.specs.Tags.{bit_string_tag, tag_3};

    ghost tag = { bit_string_tag };

    ghost tag_is_valid = { tag_3 };

    const TAG: u8 = Tag::BIT_STRING;

    fn tag_byte() -> u8 {
        Self::TAG
    }
}

impl EncodeValue for BitString {
    ghost use Rattle.std.specs.Prelude.{◌∷◌};

    ghost content = { λ v. v.unused_bits ∷ v.raw.items };

    fn value_len(&self) -> Result<Length, Error> {
        self.owned_to_ref().value_len()
    }

    fn encode_value<W: Writer>(&self, writer: &mut W) -> Result<(), Error> {
        self.owned_to_ref().encode_value(writer)
    }
}

impl ValueOrd for BitString {
    ghost use Rattle.std.specs.Prelude.{◌∷◌};
    ghost use Rattle.der_core.specs.Order.{content_order};

    ghost value_order = { content_order (λ v. v.unused_bits ∷ v.raw.items) };

    fn value_cmp(&self, other: &Self) -> Result<Ordering, Error> {
        self.owned_to_ref().value_cmp(&other.owned_to_ref())
    }
}
