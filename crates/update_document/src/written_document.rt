//! Writing a document.
ghost use Rattle.std.specs.Prelude.{◌≡◌, ◌++◌, ◌≤◌, option_map};
ghost use Rattle.std.specs.List.{flat_map};
ghost use Rattle.der_core.specs.Encode.{LengthOf, Wrote};
ghost use Rattle.der_core.specs.Tags.{tag_48};
ghost use Rattle.der_small.specs.Utf8.{text_ref};
ghost use Rattle.update_document.specs.Spelling.{fields_behind, reason_der};

use crate::SequenceOf;
use crate::document::REASON;
use der_core::{
    Encode, EncodeValue, Error, FixedTag, Length, Tag, Writer, encode_tagged, tagged_len,
};
use der_small::Utf8Ref;

/// A document that is written of its list of entries, its bundles and its reason, whatever these are.
#[derive(Drop)]
pub struct WrittenDocument<'d, L, B> {
    /// The list of entries, as one value: a `SequenceOf`, or a list whose entries were written before.
    pub entries: &'d L,

    /// The bundles, in order.
    pub bundles: &'d [B],

    /// The reason, where there is one.
    pub reason: Option<Utf8Ref<'d>>,
}

impl<'d, L, B> FixedTag for WrittenDocument<'d, L, B> {
    ghost tag = { 48 };

    ghost tag_is_valid = { tag_48 };

    const TAG: u8 = Tag::SEQUENCE;

    fn tag_byte() -> u8
        ensures { result ≡ 48 }
    {
        Tag::SEQUENCE
    }
}

impl<'d, L: Encode, B: Encode> EncodeValue for WrittenDocument<'d, L, B> {
    ghost content = { λ d. L.encoding d.entries.now ++ fields_behind (flat_map B.encoding d.bundles.now) (option_map text_ref d.reason) };

    fn value_len(&self) -> Result<Length, Error> {
        let entries = self.entries.encoded_len()?;
        let bundles = SequenceOf(self.bundles).encoded_len()?;
        let reason = reason_len(&self.reason)?;
        entries.checked_add(bundles)?.checked_add(reason)
    }

    fn encode_value<W: Writer>(&self, writer: &mut W) -> Result<(), Error> {
        let _ = self.value_len()?;
        self.entries.encode(writer)?;
        SequenceOf(self.bundles).encode(writer)?;
        encode_reason(&self.reason, writer)
    }
}

// The length of the field of a reason, where there is one.
fn reason_len(reason: &Option<Utf8Ref<'_>>) -> Result<Length, Error>
    ensures { LengthOf (reason_der (option_map text_ref reason.now)) result }
{
    match reason {
        None => Ok(Length::new(0)),
        Some(text) => tagged_len(text),
    }
}

// Writes the field of a reason, where there is one.
fn encode_reason<W: Writer>(reason: &Option<Utf8Ref<'_>>, writer: &mut W) -> Result<(), Error>
    ensures wrote { Wrote W.HasTold W.refusals W.last_refusal writer.old writer.new (reason_der (option_map text_ref reason.now)) result }
    ensures count { W.refusals writer.old ≤ W.refusals writer.new }
    ensures same_borrow { W.borrow writer.new ≡ W.borrow writer.old }
{
    match reason {
        None => Ok(()),
        Some(text) => encode_tagged(Tag::from_valid(REASON), text, writer),
    }
}
