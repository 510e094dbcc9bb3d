//! Values of any tag.
ghost use Rattle.std.specs.Prelude.{◌<◌, ◌^◌, ℕ, length};

use crate::encode::{encode_tagged, tagged_len};
use crate::{
    Choice, Cursor, Decode, DecodeValue, Encode, EncodeValue, Error, FixedTag, Lawful, Length, Tag,
    Writer,
};
use std::alloc::Global;

/// A value of any tag, in borrowed bytes. Its content is not read: take `decode_as` for that.
#[derive(Clone, Copy, Debug, PartialEq, Eq, PartialOrd, Ord, Hash)]
pub struct AnyRef<'a> {
    tag: Tag,
    value: &'a [u8],
    ghost small: { length value.now < 2 ^ 32 },
}

/// A value of any tag, with bytes of its own.
#[derive(Debug, Drop, PartialEq, Eq, PartialOrd, Ord, Hash)]
pub struct Any {
    tag: Tag,
    value: Vec<u8>,
    ghost small: { length value.items < 2 ^ 32 },
}

impl<'a> AnyRef<'a> {
    ghost use Rattle.std.specs.Prelude.{◌≡◌, ◌≢◌, ◌<◌, ◌≤◌, ◌^◌, ◌↔◌, [], length, IfOk, IfErr, IsTrue, MatchResult};
    ghost use Rattle.der_core.specs.Any.{plain_ref, plain_any};
    ghost use Rattle.der_core.specs.Decode.{DecodedAs};
    ghost use Rattle.der_core.specs.Tag.{byte_of};
    ghost use Rattle.der_core.specs.Tags.{null_tag};

    /// A value of this tag and content: `Overlength` from 2^32 bytes of content on. One of nearly 2^32 bytes can be made, but not written: its
    /// header counts there.
    pub fn new(tag: Tag, value: &'a [u8]) -> Result<AnyRef<'a>, Error>
        ensures value { IfOk result (λ v. plain_ref v ≡ record { tag = byte_of tag; content = value.now }) }
        ensures fits { IfOk result (λ v. length value.now < 2 ^ 32) }
        ensures overlength { IfErr result (λ e. (e ≡ Error.Overlength) × (2 ^ 32 ≤ length value.now)) }
    {
        if value.len() >= 0x1_0000_0000 {
            return Err(Error::Overlength);
        }
        Ok(AnyRef { tag, value })
    }

    pub(crate) fn from_parts(tag: Tag, value: &'a [u8]) -> Self
        requires { length value.now < 2 ^ 32 }
        ensures { plain_ref result ≡ record { tag = byte_of tag; content = value.now } }
    {
        AnyRef { tag, value }
    }

    /// The tag that it was read with.
    pub fn tag(&self) -> Tag
        ensures { byte_of result ≡ (plain_ref self.now).tag }
    {
        self.tag
    }

    /// The content.
    pub fn value(&self) -> &'a [u8]
        ensures { result.now ≡ (plain_ref self.now).content }
    {
        self.value
    }

    /// Whether it is NULL.
    pub fn is_null(&self) -> bool
        ensures { IsTrue result ↔ (plain_ref self.now ≡ record { tag = null_tag; content = [] }) }
    {
        self.tag.byte() == Tag::NULL && self.value.is_empty()
    }

    /// Reads the content as a value of a type that has one tag: `TagUnexpected` where this value has another tag, `Malformed` where the content
    /// is that of no value of the type.
    pub fn decode_as<T: DecodeValue<'a> + FixedTag>(&self) -> Result<T, Error>
        ensures { DecodedAs T.tag T.HasContent (plain_ref self.now).tag (plain_ref self.now).content result }
    {
        let expected = Tag::from_valid(T::tag_byte());
        if self.tag != expected {
            return Err(Error::TagUnexpected {
                expected,
                actual: self.tag,
            });
        }
        let mut cursor = Cursor::new(self.value);
        T::decode_value(&mut cursor)
    }

    /// The same value with bytes of its own, for when the input doesn't live long enough. `OutOfMemory` alone refuses it.
    pub fn ref_to_owned(&self, alloc: Global) -> Result<Any, Error>
        ensures { MatchResult result (λ v. plain_any v ≡ plain_ref self.now) (λ e. e ≡ Error.OutOfMemory) }
    {
        Ok(Any {
            tag: self.tag,
            value: Vec::from_slice(alloc, self.value)?,
        })
    }
}

impl<'a> Decode<'a> for AnyRef<'a> {
    ghost use Rattle.der_core.specs.Decode.{ReadsAny, ReadsAny-one_value};

    ghost Reads = { λ b v. ReadsAny b v.tag.byte v.value.now };

    ghost one_value = { λ b v r. ReadsAny-one_value b v.tag.byte v.value.now v.tag.valid r };

    fn decode(cursor: &mut Cursor<'a>) -> Result<Self, Error> {
        cursor.read_value()
    }
}

impl<'a> EncodeValue for AnyRef<'a> {
    ghost content = { λ v. v.value.now };

    fn value_len(&self) -> Result<Length, Error> {
        Ok(Length::new(self.value.len() as u32))
    }

    fn encode_value<W: Writer>(&self, writer: &mut W) -> Result<(), Error> {
        writer.write(self.value)
    }
}

impl<'a> Encode for AnyRef<'a> {
    ghost use Rattle.der_core.specs.Der.{encode};
    ghost use Rattle.der_core.specs.Encode.{encode_one_value};

    ghost encoding = { λ v. encode v.tag.byte v.value.now };

    ghost one_value = { λ v fits. encode_one_value v.tag.byte v.value.now v.tag.valid fits };

    fn encoded_len(&self) -> Result<Length, Error> {
        tagged_len(self)
    }

    fn encode<W: Writer>(&self, writer: &mut W) -> Result<(), Error> {
        encode_tagged(self.tag, self, writer)
    }
}

impl<'a> Lawful<'a> for AnyRef<'a> {
    ghost use Rattle.der_core.specs.Laws.{any_reads_encoding, any_encoding_reads};

    ghost reads_encoding = { λ b v r. any_reads_encoding b v.tag.byte v.value.now r };

    ghost encoding_reads = { λ v fits. any_encoding_reads v.tag.byte v.value.now fits };
}

impl<'a> Choice<'a> for AnyRef<'a> {
    ghost use Rattle.std.specs.Prelude.{◌≡◌, true, refl};

    ghost CanDecode = { λ _. true };

    ghost begins = { λ _ _ _ _. refl };

    fn can_decode(_tag: Tag) -> bool
        ensures { result ≡ true }
    {
        true
    }
}

impl Any {
    ghost use Rattle.std.specs.Prelude.{◌≡◌, ◌<◌, ◌≤◌, ◌^◌, ◌↔◌, [], length, IfOk, IfErr, IsTrue, MatchResult};
    ghost use Rattle.der_core.specs.Any.{plain_ref, plain_any, ReadsPlain, EncodedFrom};
    ghost use Rattle.der_core.specs.Decode.{FromDerOwned, DecodedAs};
    ghost use Rattle.der_core.specs.Tag.{byte_of};
    ghost use Rattle.der_core.specs.Tags.{null_tag};

    /// Reads one value of any tag and copies it: `Malformed` where the bytes begin with no value, `TrailingData` where they have more behind it,
    /// `OutOfMemory`.
    pub fn from_der(alloc: Global, bytes: &[u8]) -> Result<Any, Error>
        ensures { FromDerOwned plain_any ReadsPlain bytes.now result }
    {
        AnyRef::from_der(bytes)?.ref_to_owned(alloc)
    }

    /// The value that another type's value is written as: `Overlength` where that would have 2^32 bytes or more, `OutOfMemory`.
    pub fn encode_from<T: Encode>(alloc: Global, value: &T) -> Result<Any, Error>
        ensures { EncodedFrom (T.encoding value.now) result }
    {
        let bytes = value.to_der(alloc)?;
        let mut cursor = Cursor::new(&bytes);
        cursor.read_value()?.ref_to_owned(alloc)
    }

    /// The same value in borrowed bytes, which has the calls that take no memory.
    pub fn owned_to_ref(&self) -> AnyRef<'_>
        ensures { plain_ref result ≡ plain_any self.now }
    {
        AnyRef::from_parts(self.tag, &self.value)
    }

    /// The tag that it was read with.
    pub fn tag(&self) -> Tag
        ensures { byte_of result ≡ (plain_any self.now).tag }
    {
        self.tag
    }

    /// The content.
    pub fn value(&self) -> &[u8]
        ensures { result.now ≡ (plain_any self.now).content }
    {
        &self.value
    }

    /// Reads the content as a value of a type that has one tag, and refuses as `AnyRef::decode_as` does.
    pub fn decode_as<'a, T: DecodeValue<'a> + FixedTag>(&'a self) -> Result<T, Error>
        ensures { DecodedAs T.tag T.HasContent (plain_any self.now).tag (plain_any self.now).content result }
    {
        self.owned_to_ref().decode_as()
    }

    /// Whether it is NULL.
    pub fn is_null(&self) -> bool
        ensures { IsTrue result ↔ (plain_any self.now ≡ record { tag = null_tag; content = [] }) }
    {
        self.owned_to_ref().is_null()
    }
}

impl EncodeValue for Any {
    ghost content = { λ v. v.value.items };

    fn value_len(&self) -> Result<Length, Error> {
        self.owned_to_ref().value_len()
    }

    fn encode_value<W: Writer>(&self, writer: &mut W) -> Result<(), Error> {
        self.owned_to_ref().encode_value(writer)
    }
}

impl Encode for Any {
    ghost use Rattle.der_core.specs.Der.{encode};
    ghost use Rattle.der_core.specs.Encode.{encode_one_value};

    ghost encoding = { λ v. encode v.tag.byte v.value.items };

    ghost one_value = { λ v fits. encode_one_value v.tag.byte v.value.items v.tag.valid fits };

    fn encoded_len(&self) -> Result<Length, Error> {
        tagged_len(self)
    }

    fn encode<W: Writer>(&self, writer: &mut W) -> Result<(), Error> {
        encode_tagged(self.tag, self, writer)
    }
}
