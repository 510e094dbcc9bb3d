//! Writing.
ghost use Rattle.std.specs.Prelude.{◌≡◌, ◌++◌, ◌+◌, ◌∷◌, [], ◌<◌, ◌≤◌, ◌^◌, ℕ, List, length, take, IfOk, MatchResult};
ghost use Rattle.der_core.specs.Der.{IsValue, encode, length_bytes};
ghost use Rattle.der_core.specs.Tag.{byte_of};
ghost use Rattle.der_core.specs.Encode.{Wrote, LengthOf, ToDer, encode_one_value};

use crate::writer::VecWriter;
use crate::{Error, FixedTag, Length, Tag, Writer};
use std::alloc::Global;

/// What is written as the content of a value.
pub trait EncodeValue {
    ghost content: { Self → List ℕ };

    /// The length of the content: `Overlength` from 2^32 bytes on.
    fn value_len(&self) -> Result<Length, Error>
        ensures { LengthOf (content self.now) result };

    /// Writes the content: `Overlength` where it has 2^32 bytes or more. A refusal of the writer is passed on as it was, and after any error the
    /// writer was given a first part of the content at most.
    fn encode_value<W: Writer>(&self, writer: &mut W) -> Result<(), Error>
        ensures wrote { Wrote W.HasTold W.refusals W.last_refusal writer.old writer.new (content self.now) result }
        ensures count { W.refusals writer.old ≤ W.refusals writer.new }
        ensures same_borrow { W.borrow writer.new ≡ W.borrow writer.old };
}

/// What is written with its tag and length.
pub trait Encode {
    ghost encoding: { Self → List ℕ };

    /// The length of the encoding, header included: `Overlength` from 2^32 bytes on.
    fn encoded_len(&self) -> Result<Length, Error>
        ensures { LengthOf (encoding self.now) result };

    /// Writes the encoding: `Overlength` where it would have 2^32 bytes or more. A refusal of the writer is passed on as it was, and after any
    /// error the writer was given a first part of the encoding at most.
    fn encode<W: Writer>(&self, writer: &mut W) -> Result<(), Error>
        ensures wrote { Wrote W.HasTold W.refusals W.last_refusal writer.old writer.new (encoding self.now) result }
        ensures count { W.refusals writer.old ≤ W.refusals writer.new }
        ensures same_borrow { W.borrow writer.new ≡ W.borrow writer.old };

    // The encoding is one value of the profile.
    ghost one_value: { (v : Self) → length (encoding v) < 2 ^ 32 → IsValue (encoding v) };

    /// The encoding, in a vector of its own: `Overlength` where it would have 2^32 bytes or more, `OutOfMemory`.
    final fn to_der(&self, alloc: Global) -> Result<Vec<u8>, Error>
        ensures { ToDer (encoding self.now) result }
    {
        let _ = self.encoded_len()?;
        let mut writer = VecWriter::behind(Vec::new(alloc));
        self.encode(&mut writer)?;
        Ok(writer.bytes)
    }
}

/// The tag and the length, which are the first bytes of the array, and how many they are.
#[tactic(auto, using(crate::specs::LengthLaws::length_bytes_1, crate::specs::LengthLaws::length_bytes_2, crate::specs::LengthLaws::length_bytes_3, crate::specs::LengthLaws::length_bytes_4, crate::specs::LengthLaws::length_bytes_5))]
fn header(tag: u8, n: u32) -> ([u8; 6], usize)
    ensures bytes { take result.1 result.0 ≡ tag ∷ [] ++ length_bytes n }
    ensures count { result.1 ≡ 1 + length (length_bytes n) }
    ensures len { result.1 ≤ 6 }
{
    let a = (n / 16777216) as u8;
    let b = (n / 65536 % 256) as u8;
    let c = (n / 256 % 256) as u8;
    let d = (n % 256) as u8;
    if n < 128 {
        ([tag, d, 0, 0, 0, 0], 2)
    } else if n < 256 {
        ([tag, 129, d, 0, 0, 0], 3)
    } else if n < 65536 {
        ([tag, 130, (n / 256) as u8, d, 0, 0], 4)
    } else if n < 16777216 {
        ([tag, 131, (n / 65536) as u8, c, d, 0], 5)
    } else {
        ([tag, 132, a, b, c, d], 6)
    }
}

/// The length of a value, header and content.
fn with_header(n: Length) -> Result<Length, Error>
    ensures { MatchResult result (λ k. (k ≡ 1 + length (length_bytes n) + n) × (n < 4294967290)) (λ e. (e ≡ Error.Overlength) × (4294967290 ≤ n)) }
{
    let n = n.get();
    if n >= 4294967290 {
        return Err(Error::Overlength);
    }
    let (_, len) = header(0, n);
    Ok(Length::new(len as u32 + n))
}

impl<T: EncodeValue + FixedTag> Encode for T {
    ghost encoding = { λ v. encode T.tag (T.content v) };

    ghost one_value = { λ v fits. encode_one_value T.tag (T.content v) T.tag_is_valid fits };

    fn encoded_len(&self) -> Result<Length, Error> {
        tagged_len(self)
    }

    fn encode<W: Writer>(&self, writer: &mut W) -> Result<(), Error> {
        encode_tagged(Tag::from_valid(T::tag_byte()), self, writer)
    }
}

/// Writes the value of this tag whose content is that of another value, as an implicit tag asks (X.690, 8.14). It refuses as `Encode::encode` does.
pub fn encode_tagged<T: EncodeValue, W: Writer>(
    tag: Tag,
    value: &T,
    writer: &mut W,
) -> Result<(), Error>
    ensures wrote { Wrote W.HasTold W.refusals W.last_refusal writer.old writer.new (encode (byte_of tag) (T.content value.now)) result }
    ensures count { W.refusals writer.old ≤ W.refusals writer.new }
    ensures same_borrow { W.borrow writer.new ≡ W.borrow writer.old }
{
    let n = value.value_len()?;
    let _ = with_header(n)?;
    let (bytes, len) = header(tag.byte(), n.get());
    writer.write(&bytes[..len])?;
    value.encode_value(writer)
}

/// The length of a value of that content, header included: `Overlength` from 2^32 bytes on. It is the same for each tag.
pub fn tagged_len<T: EncodeValue>(value: &T) -> Result<Length, Error>
    ensures { (tag : ℕ) → LengthOf (encode tag (T.content value.now)) result }
{
    with_header(value.value_len()?)
}
