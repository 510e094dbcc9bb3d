//! Making an update of parts that break no rule: its document is written around its entries.
ghost use Rattle.std.specs.Prelude.{◌≡◌, ◌++◌, ◌<◌, ◌^◌, length, map, option_map, string_bytes, IfOk, IfErr, IfSome};
ghost use Rattle.std.specs.List.{flat_map};
ghost use Rattle.der_core.specs.Any.{plain_ref};
ghost use Rattle.der_core.specs.Der.{encode};
ghost use Rattle.der_small.specs.Utf8.{text_ref};
ghost use Rattle.update_document.specs.Document.{IsReasonText};
ghost use Rattle.update_document.specs.Spelling.{bundle_der, fields_written};
ghost use Rattle.identity_update.specs.Assembled.{document_of};
ghost use Rattle.identity_update.specs.Kept.{IsReason};
ghost use Rattle.identity_update.specs.LawfulParts.{AreLawfulParts, update_of};
ghost use Rattle.identity_update.specs.Place.{FoundAt, part};
ghost use Rattle.identity_update.specs.Places.{Ends};

use crate::bundle::BundleParts;
use crate::bundle_rules::CheckedBundles;
use crate::error::UpdateError;
use crate::kept::KeptEntries;
use crate::place::Place;
use crate::places::{before, len_of};
use crate::update::Update;
use der_core::{AnyRef, Encode, EncodeValue, Tag, VecWriter};
use der_small::Utf8Ref;
use std::alloc::Global;
use update_document::WrittenDocument;

/// Parts that break no rule, before their document is written.
#[derive(Drop)]
pub(crate) struct LawfulParts {
    pub(crate) entries: KeptEntries,
    pub(crate) bundles: CheckedBundles,
    pub(crate) reason: Option<String>,
}

/// The reason in memory of its own.
pub(crate) fn own_reason(
    alloc: Global,
    reason: &Option<Utf8Ref<'_>>,
) -> Result<Option<String>, UpdateError>
    ensures ok { IfOk result (λ own. option_map string_bytes own ≡ option_map text_ref reason.now) }
    ensures memory { IfErr result (λ e. e ≡ UpdateError.OutOfMemory) }
{
    match reason {
        None => Ok(None),
        Some(text) => Ok(Some(String::from_str(alloc, text.as_str())?)),
    }
}

fn lent_reason(reason: &Option<String>) -> Option<Utf8Ref<'_>>
    requires { IfSome (option_map string_bytes reason.now) IsReasonText }
    ensures { option_map text_ref result ≡ option_map string_bytes reason.now }
{
    match reason {
        None => None,
        Some(own) => {
            let Ok(text) = Utf8Ref::new(own.as_str()) else {
                unreachable!()
            };
            Some(text)
        }
    }
}

// The list whose entries were written before.
fn list_of(written: &[u8]) -> AnyRef<'_>
    requires { length written.now < 2 ^ 32 }
    ensures { plain_ref result ≡ record { tag = 48; content = written.now } }
{
    let Ok(list) = AnyRef::new(Tag::from_valid(Tag::SEQUENCE), written) else {
        unreachable!()
    };
    list
}

// The document of these entries, bundles and reason, in the room of a vector whose bytes are let go.
fn write_document(
    room: Vec<u8>,
    written: &[u8],
    bundles: &[BundleParts],
    reason: Option<Utf8Ref<'_>>,
) -> Result<Vec<u8>, UpdateError>
    requires { length (document_of written.now bundles.now reason) < 2 ^ 32 }
    ensures value { IfOk result (λ document. document.items ≡ document_of written.now bundles.now reason.entry) }
    ensures memory { IfErr result (λ e. e ≡ UpdateError.OutOfMemory) }
{
    let mut bytes = room;
    bytes.clear();
    let mut writer = VecWriter::behind(bytes);
    let document = WrittenDocument {
        entries: &list_of(written),
        bundles,
        reason,
    };
    let Ok(()) = document.encode(&mut writer) else {
        return Err(UpdateError::OutOfMemory);
    };
    Ok(writer.bytes)
}

// Where the encodings of the entries stand in the document.
fn entries_at(
    document: &[u8],
    written: &[u8],
    bundles: &[BundleParts],
    reason: Option<Utf8Ref<'_>>,
) -> Place
    requires is { document.now ≡ document_of written.now bundles.now reason }
    requires small { length document.now < 2 ^ 32 }
    ensures { FoundAt document.now result written.now }
{
    let list = list_of(written);
    let fields = WrittenDocument {
        entries: &list,
        bundles,
        reason,
    };
    let Ok(content) = fields.value_len() else {
        unreachable!()
    };
    before(
        document.len() as u32,
        content.get() - len_of(&list),
        written.len(),
    )
}

// Where the reason stands in the document.
fn reason_at(document: &[u8], reason: &Option<Utf8Ref<'_>>) -> Option<Place>
    requires small { length document.now < 2 ^ 32 }
    requires ends { IfSome (option_map text_ref reason.now) (λ text. Ends text document.now) }
    ensures value { option_map (part document.now) result ≡ option_map text_ref reason.now }
    ensures within { IfSome result (IsReason document.now) }
{
    match reason {
        None => None,
        Some(text) => Some(before(document.len() as u32, 0, text.as_str().len())),
    }
}

/// The update of parts that break no rule. Its document is written in the room of a vector whose bytes are let go.
pub(crate) fn assemble(parts: LawfulParts, room: Vec<u8>) -> Result<Update, UpdateError>
    requires { AreLawfulParts parts }
    ensures value { IfOk result (λ u. u ≡ update_of parts) }
    ensures memory { IfErr result (λ e. e ≡ UpdateError.OutOfMemory) }
{
    let LawfulParts {
        entries: kept,
        bundles,
        reason: own,
    } = parts;
    let KeptEntries { written, entries } = kept;
    let CheckedBundles { parts: listed, set } = bundles;
    let reason = lent_reason(&own);
    let document = write_document(room, &written, &listed, reason)?;
    let identities = entries_at(&document, &written, &listed, reason);
    let reason = reason_at(&document, &reason);
    Ok(Update {
        document,
        identities,
        entries,
        bundles: listed,
        set,
        reason,
    })
}
