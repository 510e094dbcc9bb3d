//! Texts.
ghost use Rattle.std.specs.Prelude.{◌<◌, ◌^◌, ℕ, length};
ghost use Rattle.std.specs.Str.{IsUtf8};

use der_core::{
    Cursor, DecodeValue, EncodeValue, Error, FixedTag, LawfulValue, Length, Tag, ValueOrd, Writer,
};
use std::cmp::Ordering;
use std::str;

/// A text in UTF-8, in borrowed bytes (X.690, 8.23).
#[derive(Clone, Copy, Debug, PartialEq, Eq, PartialOrd, Ord, Hash)]
pub struct Utf8Ref<'a> {
    text: &'a str,
    ghost small: { length text.now < 2 ^ 32 },
    ghost utf8: { ∥ IsUtf8 text.now ∥₁ },
}

impl<'a> Utf8Ref<'a> {
    ghost use Rattle.std.specs.Prelude.{◌≡◌, ◌<◌, ◌≤◌, ◌^◌, length, IfOk, IfErr, OnOk};
    ghost use Rattle.der_small.specs.Utf8.{text_ref};

    /// A text as a value: `Overlength` from 2^32 bytes on.
    pub fn new(text: &'a str) -> Result<Self, Error>
        ensures value { IfOk result (λ v. text_ref v ≡ text.now) }
        ensures fits { OnOk result (length text.now < 2 ^ 32) }
        ensures overlength { IfErr result (λ e. (e ≡ Error.Overlength) × (2 ^ 32 ≤ length text.now)) }
    {
        if text.len() >= 0x1_0000_0000 {
            return Err(Error::Overlength);
        }
        Ok(Utf8Ref { text })
    }

    /// The text.
    pub fn as_str(&self) -> &'a str
        ensures { result.now ≡ text_ref self.now }
    {
        self.text
    }
}

impl<'a> FixedTag for Utf8Ref<'a> {
    ghost use Rattle.std.specs.Prelude.{◌≡◌};
    ghost use Rattle.der_core.specs.Tags.{utf8_tag, tag_12};

    ghost tag = { utf8_tag };

    ghost tag_is_valid = { tag_12 };

    const TAG: u8 = Tag::UTF8_STRING;

    fn tag_byte() -> u8
        ensures { result ≡ utf8_tag }
    {
        Self::TAG
    }
}

impl<'a> DecodeValue<'a> for Utf8Ref<'a> {
    ghost use Rattle.std.specs.Prelude.{◌≡◌};

    ghost HasContent = { λ b v. v.text.now ≡ b };

    fn decode_value(cursor: &mut Cursor<'a>) -> Result<Self, Error> {
        let Ok(text) = str::from_utf8(cursor.rest()) else {
            return Err(Error::Malformed);
        };
        let Ok(value) = Utf8Ref::new(text) else {
            return Err(Error::Malformed);
        };
        cursor.take_rest();
        Ok(value)
    }
}

impl<'a> EncodeValue for Utf8Ref<'a> {
    ghost content = { λ v. v.text.now };

    fn value_len(&self) -> Result<Length, Error> {
        Ok(Length::new(self.text.len() as u32))
    }

    fn encode_value<W: Writer>(&self, writer: &mut W) -> Result<(), Error> {
        writer.write(self.text.as_bytes())
    }
}

impl<'a> LawfulValue<'a> for Utf8Ref<'a> {
    ghost use Rattle.std.specs.Prelude.{refl};
    ghost use Rattle.std.proofs.Common.{sym};

    ghost reads_content = { λ b v h. sym h };

    ghost content_reads = { λ v fits. refl };
}

impl<'a> ValueOrd for Utf8Ref<'a> {
    ghost use Rattle.der_core.specs.Order.{content_order};

    ghost value_order = { content_order (λ v. v.text.now) };

    fn value_cmp(&self, other: &Self) -> Result<Ordering, Error> {
        Ok(self.text.as_bytes().cmp(other.text.as_bytes()))
    }
}
