//! The rules of parts in their order.
ghost use Rattle.std.specs.Prelude.{◌≡◌, Ok, Err, map, option_map, IfOk, IfErr, IfSome};
ghost use Rattle.std.specs.List.{AllByRecursion};
ghost use Rattle.der_small.specs.Utf8.{text_ref};
ghost use Rattle.update_document.specs.Document.{IsReasonText};
ghost use Rattle.identity_update.specs.Assembled.{assembled};
ghost use Rattle.identity_update.specs.Checked.{checked_entry};
ghost use Rattle.identity_update.specs.Lawful.{HasCanonicalId};
ghost use Rattle.identity_update.specs.PartsVerdict.{fits_check, parts_verdict, reason_check};
ghost use Rattle.identity_update.specs.Verdict.{IsRefusal};

use crate::assembly::{LawfulParts, assemble, own_reason};
use crate::bundle::BundleParts;
use crate::bundle_rules::{CheckedBundles, check_key_sets};
use crate::entry::CheckedEntry;
use crate::entry_rules::{check_pairs, check_purpose};
use crate::error::UpdateError;
use crate::members::check_members;
use crate::update::Update;
use der_core::Encode;
use der_small::Utf8Ref;
use std::alloc::Global;
use update_document::{SequenceOf, WrittenDocument};

/// A reason has 1 to 255 bytes.
pub(crate) fn check_reason(reason: &str) -> Result<Utf8Ref<'_>, UpdateError>
    ensures ok { IfOk result (λ text. (text_ref text ≡ reason.now) × (reason_check reason.now ≡ Ok tt)) }
    ensures text { IfOk result (λ text. IsReasonText (text_ref text)) }
    ensures err { IfErr result (λ e. reason_check reason.now ≡ Err e) }
{
    if reason.is_empty() || reason.len() > 255 {
        return Err(UpdateError::Document(der_core::Error::Malformed));
    }
    let Ok(text) = Utf8Ref::new(reason) else {
        unreachable!()
    };
    Ok(text)
}

// The document of the parts has fewer than 2^32 bytes.
fn check_fits(
    entries: &[CheckedEntry<'_>],
    bundles: &[BundleParts],
    reason: Option<Utf8Ref<'_>>,
) -> Result<(), UpdateError>
    ensures { result ≡ fits_check (assembled entries.now bundles.now reason.entry) }
{
    let list = SequenceOf(entries);
    let document = WrittenDocument {
        entries: &list,
        bundles,
        reason,
    };
    match document.encoded_len() {
        Ok(_) => Ok(()),
        Err(_) => Err(UpdateError::Document(der_core::Error::Overlength)),
    }
}

/// The update of the parts, or the first rule that they break.
#[tactic(auto, unfolding(crate::specs::PartsVerdict::parts_verdict))]
pub(crate) fn judge_parts(
    alloc: Global,
    entries: Vec<CheckedEntry<'_>>,
    bundles: Vec<BundleParts>,
    reason: Option<Utf8Ref<'_>>,
) -> Result<Update, UpdateError>
    requires ids { AllByRecursion HasCanonicalId (map checked_entry entries.items) }
    requires reason { IfSome (option_map text_ref reason) IsReasonText }
    ensures value { IfOk result (λ u. parts_verdict (assembled entries.entry.items bundles.items reason.entry) ≡ Ok u) }
    ensures refusal { IfErr result (IsRefusal (parts_verdict (assembled entries.entry.items bundles.items reason.entry))) }
{
    check_fits(&entries, &bundles, reason)?;
    check_purpose(&entries, &reason)?;
    let entries = check_pairs(alloc, entries)?;
    let set = check_key_sets(alloc, &bundles)?;
    check_members(&set, &entries.entries)?;
    let reason = own_reason(alloc, &reason)?;
    let parts = LawfulParts {
        entries,
        bundles: CheckedBundles {
            parts: bundles,
            set,
        },
        reason,
    };
    assemble(parts, Vec::new(alloc))
}
