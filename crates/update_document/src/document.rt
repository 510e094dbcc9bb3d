//! Reading a document.
ghost use Rattle.std.specs.Prelude.{◌≡◌, ◌++◌, ◌<◌, ◌^◌, ◌⊎◌, ◌↔◌, ℕ, List, Option as Maybe, length, option_map, IfOk, IfErr, IfSome, IfNone, IsErrOf, OnErr};
ghost use Rattle.der_core.specs.Der.{encode};
ghost use Rattle.der_core.specs.Decode.{FromDerOwned};
ghost use Rattle.der_small.specs.Utf8.{text_ref};
ghost use Rattle.update_document.specs.Document.{DocumentContent, DocumentOf, IsReasonText, ReadsDocument, ReadsReason};
ghost use Rattle.update_document.specs.DocumentFields.{document_of};

use crate::decode_all;
use der_core::{Decode, Error, Tag, field_at};
use der_small::Utf8Ref;
use std::alloc::Global;
use std::str;

/// The tag of a reason, whose content is that of a UTF8String.
pub(crate) const REASON: u8 = 0x80;

/// The lists and the reason of a document.
#[derive(Drop)]
pub struct DocumentFields<'a, E, B> {
    /// The entries, in order.
    pub entries: Vec<E>,

    /// The bundles, in order.
    pub bundles: Vec<B>,

    /// The reason, where there is one.
    pub reason: Option<Utf8Ref<'a>>,
}

// The content of the sequence at the front, and what follows it.
fn sequence_at(bytes: &[u8]) -> Option<(&[u8], &[u8])>
    ensures value { IfSome result (λ f. bytes.now ≡ encode 48 f.0.now ++ f.1.now) }
    ensures fits { IfSome result (λ f. length (encode 48 f.0.now) < 2 ^ 32) }
    ensures none { IfNone result ((content rest : List ℕ) → length (encode 48 content) < 2 ^ 32 → bytes.now ≡ encode 48 content ++ rest → ⊥) }
{
    field_at(Tag::from_valid(Tag::SEQUENCE), bytes)
}

// The content of the field of a reason at the front, and what follows it.
fn reason_at(bytes: &[u8]) -> Option<(&[u8], &[u8])>
    ensures value { IfSome result (λ f. bytes.now ≡ encode 128 f.0.now ++ f.1.now) }
    ensures fits { IfSome result (λ f. length (encode 128 f.0.now) < 2 ^ 32) }
    ensures none { IfNone result ((content rest : List ℕ) → length (encode 128 content) < 2 ^ 32 → bytes.now ≡ encode 128 content ++ rest → ⊥) }
{
    field_at(Tag::from_valid(REASON), bytes)
}

// The text of a reason.
fn reason_text(content: &[u8]) -> Option<Utf8Ref<'_>>
    ensures some { IfSome result (λ text. (text_ref text ≡ content.now) × IsReasonText content.now) }
    ensures none { IfNone result (IsReasonText content.now → ⊥) }
{
    if content.is_empty() || content.len() > 255 {
        return None;
    }
    let Ok(text) = str::from_utf8(content) else {
        return None;
    };
    Utf8Ref::new(text).ok()
}

// The reason, where there is one.
fn reason_in(bytes: &[u8]) -> Result<Option<Utf8Ref<'_>>, Error>
    ensures value { IfOk result (λ reason. ReadsReason (option_map text_ref reason) bytes.now) }
    ensures malformed { IfErr result (λ e. e ≡ Error.Malformed) }
    ensures none { OnErr result ((reason : Maybe (List ℕ)) → ReadsReason reason bytes.now → ⊥) }
{
    if bytes.is_empty() {
        return Ok(None);
    }
    let Some((content, rest)) = reason_at(bytes) else {
        return Err(Error::Malformed);
    };
    if !rest.is_empty() {
        return Err(Error::Malformed);
    }
    let Some(text) = reason_text(content) else {
        return Err(Error::Malformed);
    };
    Ok(Some(text))
}

/// Reads the content of a document, whatever its entries and its bundles are.
fn read_content<'a, E: Decode<'a>, B: Decode<'a>>(
    alloc: Global,
    content: &'a [u8],
) -> Result<DocumentFields<'a, E, B>, Error>
    ensures value { IfOk result (λ d. DocumentContent E.Reads B.Reads content.now (document_of d).entries (document_of d).bundles (document_of d).reason) }
    ensures none { IsErrOf result Error.Malformed → (d : DocumentOf E B) → DocumentContent E.Reads B.Reads content.now d.entries d.bundles d.reason → ⊥ }
    ensures causes { IfErr result (λ e. (e ≡ Error.Malformed) ⊎ (e ≡ Error.OutOfMemory)) }
{
    let Some((identities, after)) = sequence_at(content) else {
        return Err(Error::Malformed);
    };
    let Some((bundles, after)) = sequence_at(after) else {
        return Err(Error::Malformed);
    };
    let Ok(reason) = reason_in(after) else {
        return Err(Error::Malformed);
    };
    let entries = decode_all::<E>(alloc, identities)?;
    let bundles = decode_all::<B>(alloc, bundles)?;
    Ok(DocumentFields {
        entries,
        bundles,
        reason,
    })
}

/// Reads all of the bytes as one document, whatever its entries and its bundles are: `Malformed` where they begin with none, `TrailingData`
/// where they have more behind it, `OutOfMemory`.
pub fn read_document<'a, E: Decode<'a>, B: Decode<'a>>(
    alloc: Global,
    bytes: &'a [u8],
) -> Result<DocumentFields<'a, E, B>, Error>
    ensures { FromDerOwned document_of (ReadsDocument E.Reads B.Reads) bytes.now result }
{
    let Some((content, rest)) = sequence_at(bytes) else {
        return Err(Error::Malformed);
    };
    let document = read_content(alloc, content)?;
    if rest.is_empty() {
        return Ok(document);
    }
    Err(Error::TrailingData {
        decoded: bytes.len() - rest.len(),
        remaining: rest.len(),
    })
}
