//! Reading.
ghost use Rattle.std.specs.Prelude.{◌≡◌, ◌++◌, ℕ, List, [], length, IfOk, IfErr, OnOk, OnErr, ◌<◌, ◌^◌, ◌∷◌, ◌==◌, Bool, true};
ghost use Rattle.der_core.specs.Decode.{Front, NoFront, FromDer, ReadsTagged, ReadsTagged-one_value};
ghost use Rattle.der_core.specs.Der.{IsTag, IsValue};
ghost use Rattle.der_core.specs.Laws.{tagged_reads_encoding, tagged_encoding_reads, tagged_begins};
ghost use Rattle.der_core.specs.Tag.{byte_of};

use crate::cursor::any_at;
use crate::{Cursor, Encode, EncodeValue, Error, Tag};

/// A type whose values all have one tag (X.690, 8.1.2).
pub trait FixedTag {
    ghost tag: { ℕ };

    ghost tag_is_valid: { IsTag tag };

    const TAG: u8;

    /// The tag, for generic code: contracts see what this call answers, and nothing of `TAG`. An
    /// implementation answers `Self::TAG`, which ties the two; where its block has type parameters,
    /// whose constants the toolchain does not evaluate, both name one constant of `Tag`.
    fn tag_byte() -> u8
        ensures { result ≡ tag };
}

/// What is read from the content of a value.
pub trait DecodeValue<'a>: Sized + Drop {
    ghost HasContent: { List ℕ → Self → Type 0 };

    /// Takes all that is left, which is the content (`Cursor::take_rest`). `Malformed` where it is the content of no value; then it stays there.
    fn decode_value(cursor: &mut Cursor<'a>) -> Result<Self, Error>
        ensures value { IfOk result (λ v. HasContent cursor.old v) }
        ensures malformed { IfErr result (λ e. e ≡ Error.Malformed) }
        ensures none { OnErr result ((v : Self) → HasContent cursor.old v → ⊥) }
        ensures taken { OnOk result (cursor.new ≡ []) }
        ensures kept { OnErr result (cursor.new ≡ cursor.old) };
}

/// What is read with its tag and length.
pub trait Decode<'a>: Sized + Drop {
    ghost Reads: { List ℕ → Self → Type 0 };

    /// Takes an encoding from the front of what is left. `Malformed` where none stands there; then all of it stays.
    fn decode(cursor: &mut Cursor<'a>) -> Result<Self, Error>
        ensures value { IfOk result (Front Reads cursor.old cursor.new) }
        ensures malformed { IfErr result (λ e. e ≡ Error.Malformed) }
        ensures none { OnErr result (NoFront Reads cursor.old) }
        ensures kept { OnErr result (cursor.new ≡ cursor.old) };

    // Each encoding is one value of the profile.
    ghost one_value: { (b : List ℕ) (v : Self) → Reads b v → IsValue b };

    /// Reads all of the bytes as one value: `Malformed` where they begin with none, `TrailingData` where they have more behind it.
    final fn from_der(bytes: &'a [u8]) -> Result<Self, Error>
        ensures { FromDer Reads bytes.now result }
    {
        let mut cursor = Cursor::new(bytes);
        let value = Self::decode(&mut cursor)?;
        let remaining = cursor.rest().len();
        if remaining == 0 {
            return Ok(value);
        }
        Err(Error::TrailingData {
            decoded: bytes.len() - remaining,
            remaining,
        })
    }
}

/// What is read from a content exactly where that content would be written.
pub trait LawfulValue<'a>: DecodeValue<'a> + EncodeValue {
    // What is read is the content of what was read.
    ghost reads_content: { (b : List ℕ) (v : Self) → Self.HasContent b v → b ≡ Self.content v };

    // Each content is read.
    ghost content_reads: { (v : Self) → length (Self.content v) < 2 ^ 32 → Self.HasContent (Self.content v) v };
}

/// What is read exactly where it would be written so.
pub trait Lawful<'a>: Decode<'a> + Encode {
    // What is read is the encoding of what was read.
    ghost reads_encoding: { (b : List ℕ) (v : Self) → Self.Reads b v → b ≡ Self.encoding v };

    // Each encoding is read.
    ghost encoding_reads: { (v : Self) → length (Self.encoding v) < 2 ^ 32 → Self.Reads (Self.encoding v) v };
}

/// What is chosen by its tag.
pub trait Choice<'a>: Lawful<'a> {
    ghost CanDecode: { ℕ → Bool };

    /// Whether a value of this tag can be one of the type.
    fn can_decode(tag: Tag) -> bool
        ensures { result ≡ CanDecode (byte_of tag) };

    // Each encoding begins with a tag of the choice.
    ghost begins: { (tag : ℕ) (rest : List ℕ) (v : Self) → Self.Reads (tag ∷ rest) v → CanDecode tag ≡ true };
}

impl<'a, T: DecodeValue<'a> + FixedTag> Decode<'a> for T {
    ghost Reads = { ReadsTagged T.tag T.HasContent };

    ghost one_value = { λ b v r. ReadsTagged-one_value T.tag T.HasContent b v T.tag_is_valid r };

    fn decode(cursor: &mut Cursor<'a>) -> Result<Self, Error> {
        let Some((any, rest)) = any_at(cursor.rest()) else {
            return Err(Error::Malformed);
        };
        if any.tag().byte() != T::tag_byte() {
            return Err(Error::Malformed);
        }
        let mut content = Cursor::new(any.value());
        let value = T::decode_value(&mut content)?;
        *cursor = Cursor::new(rest);
        Ok(value)
    }
}

impl<'a, T: LawfulValue<'a> + FixedTag> Lawful<'a> for T {
    ghost reads_encoding = { λ b v r. tagged_reads_encoding T.tag T.HasContent T.content T.reads_content b v r };

    ghost encoding_reads = { λ v fits. tagged_encoding_reads T.tag T.HasContent T.content T.content_reads v fits };
}

impl<'a, T: LawfulValue<'a> + FixedTag> Choice<'a> for T {
    ghost CanDecode = { λ tag. tag == T.tag };

    ghost begins = { λ tag rest v r. tagged_begins T.tag T.HasContent tag rest v r };

    fn can_decode(tag: Tag) -> bool {
        tag.byte() == T::tag_byte()
    }
}
