//! Numbers of one byte, as integers.
ghost use Rattle.std.specs.Prelude.{◌≡◌, ◌<◌};
ghost use Rattle.der_core.specs.Integer.{integer_content};
ghost use Rattle.der_core.specs.Order.{content_order};
ghost use Rattle.der_core.specs.Tags.{integer_tag, tag_2};

use crate::{Cursor, DecodeValue, EncodeValue, Error, FixedTag, Length, Tag, ValueOrd, Writer};
use std::cmp::Ordering;

impl FixedTag for u8 {
    ghost tag = { integer_tag };

    ghost tag_is_valid = { tag_2 };

    const TAG: u8 = Tag::INTEGER;

    fn tag_byte() -> u8 {
        Self::TAG
    }
}

impl<'a> DecodeValue<'a> for u8 {
    ghost HasContent = { λ b n. (b ≡ integer_content n) × (n < 256) };

    fn decode_value(cursor: &mut Cursor<'a>) -> Result<Self, Error> {
        let n = match cursor.rest() {
            [n] if *n < 128 => *n,
            [0, n] if *n >= 128 => *n,
            _ => return Err(Error::Malformed),
        };
        cursor.take_rest();
        Ok(n)
    }
}

impl EncodeValue for u8 {
    ghost content = { integer_content };

    fn value_len(&self) -> Result<Length, Error> {
        if *self < 128 {
            Ok(Length::new(1))
        } else {
            Ok(Length::new(2))
        }
    }

    fn encode_value<W: Writer>(&self, writer: &mut W) -> Result<(), Error> {
        if *self < 128 {
            writer.write(&[*self])
        } else {
            writer.write(&[0, *self])
        }
    }
}

impl ValueOrd for u8 {
    ghost value_order = { content_order integer_content };

    fn value_cmp(&self, other: &Self) -> Result<Ordering, Error> {
        if *self < 128 {
            if *other < 128 {
                Ok([*self].cmp(&[*other]))
            } else {
                Ok([*self].as_slice().cmp([0, *other].as_slice()))
            }
        } else if *other < 128 {
            Ok([0, *self].as_slice().cmp([*other].as_slice()))
        } else {
            Ok([0, *self].as_slice().cmp([0, *other].as_slice()))
        }
    }
}
