//! Writing a SEQUENCE OF.
ghost use Rattle.std.specs.Prelude.{◌≡◌};
ghost use Rattle.std.specs.List.{flat_map};
ghost use Rattle.der_core.specs.Tags.{sequence_tag, tag_48};

use der_small::{Encode, EncodeValue, Error, FixedTag, Length, Result, Tag, Writer};

/// The values of a slice as a SEQUENCE OF (X.690, 8.10).
#[derive(Drop)]
pub struct SequenceOf<'s, T>(pub &'s [T]);

impl<'s, T> FixedTag for SequenceOf<'s, T> {
    ghost tag = { sequence_tag };

    ghost tag_is_valid = { tag_48 };

    const TAG: u8 = Tag::SEQUENCE;

    fn tag_byte() -> u8
        ensures { result ≡ sequence_tag }
    {
        Tag::SEQUENCE
    }
}

impl<'s, T: Encode> EncodeValue for SequenceOf<'s, T> {
    ghost content = { λ v. flat_map T.encoding v.0.now };

    fn value_len(&self) -> Result<Length> {
        let mut len: u32 = 0;
        for value in self.0 {
            let more = value.encoded_len()?;
            let Some(sum) = len.checked_add(more.get()) else {
                return Err(Error::Overlength);
            };
            len = sum;
        }
        Ok(Length::new(len))
    }

    fn encode_value<W: Writer>(&self, writer: &mut W) -> Result<()> {
        let _ = self.value_len()?;
        for value in self.0 {
            value.encode(writer)?;
        }
        Ok(())
    }
}
