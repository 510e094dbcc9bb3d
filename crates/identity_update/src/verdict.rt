//! The rules in their order.
ghost use Rattle.std.specs.Prelude.{◌≡◌, ◌<◌, ◌^◌, Ok, length, IfOk, IfErr, IfSome};
ghost use Rattle.update_document.specs.Document.{IsReasonText};
ghost use Rattle.update_document.specs.Refs.{written_update};
ghost use Rattle.update_document.specs.Spelling.{document_der};
ghost use Rattle.identity_update.specs.LawfulParts.{AreLawfulParts, update_of};
ghost use Rattle.identity_update.specs.Verdict.{IsRefusal, verdict};

use crate::assembly::{LawfulParts, own_reason};
use crate::bundle_rules::check_bundles;
use crate::entry_rules::{check_entries, check_purpose};
use crate::error::UpdateError;
use crate::members::check_members;
use std::alloc::Global;
use update_document::UpdateFields;

/// The parts of the update that a document writes, or the first rule that it breaks. The entries are written into a vector of so much room.
#[tactic(auto, unfolding(crate::specs::Verdict::verdict))]
pub(crate) fn judge(
    alloc: Global,
    document: UpdateFields<'_>,
    room: usize,
) -> Result<LawfulParts, UpdateError>
    requires fits { length (document_der (written_update document)) < 2 ^ 32 }
    requires reason { IfSome (written_update document).reason IsReasonText }
    ensures value { IfOk result (λ parts. verdict (written_update document.entry) ≡ Ok (update_of parts)) }
    ensures lawful { IfOk result AreLawfulParts }
    ensures refusal { IfErr result (IsRefusal (verdict (written_update document.entry))) }
{
    let UpdateFields {
        entries,
        bundles,
        reason,
    } = document;
    check_purpose(&entries, &reason)?;
    let entries = check_entries(alloc, entries, room)?;
    let bundles = check_bundles(alloc, &bundles)?;
    check_members(&bundles.set, &entries.entries)?;
    let reason = own_reason(alloc, &reason)?;
    Ok(LawfulParts {
        entries,
        bundles,
        reason,
    })
}
