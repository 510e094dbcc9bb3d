//! The key set of a bundle document.
ghost use Rattle.std.specs.Prelude.{◌≡◌, ◌≢◌, ◌≤◌, ◌<◌, ◌↔◌, IfOk, length};
ghost use Rattle.bundle_document.specs.Reading.{document_of};
ghost use Rattle.bundle_selection.specs.Selection.{Selects, selected_status, selected_text};
ghost use Rattle.command_line.specs.Outcome.{Calm, HasSize, IsCalm, IsUntouched, Within, streams_of};
ghost use Rattle.command_line.specs.declared.status.Status.{Status};

use crate::refusal::refusal_text;
use bundle_document::BundleDocument;
use command_line::Status;
use identity_io::{LIMIT, Sink, Source, read_all, write_all};
use std::alloc::{AllocError, Global};

// What is printed of a document, and the status that goes with it.
#[derive(Drop)]
struct Answer {
    printed: Vec<u8>,
    status: Status,
}

fn answer_to(alloc: Global, json: &[u8]) -> Result<Answer, AllocError>
    ensures printed { IfOk result (λ a. a.printed.items ≡ selected_text (document_of json.now)) }
    ensures status { IfOk result (λ a. selected_status (document_of json.now) ≡ a.status) }
{
    match BundleDocument::read(alloc, json) {
        Ok(document) => Ok(Answer {
            printed: Vec::from_slice(alloc, document.jwks())?,
            status: Status::Done,
        }),
        Err(error) => Ok(Answer {
            printed: refusal_text(alloc, &error)?.into_bytes(),
            status: Status::Refused,
        }),
    }
}

/// Reads a bundle document of up to `LIMIT` bytes to its end, and writes its key set without a line ending, or the
/// line of its refusal. There are no words: any word is `Usage`. Nothing is written before the answer is whole.
pub fn select<S: Source, K: Sink>(
    alloc: Global,
    words: &[String],
    input: &mut S,
    out: &mut K,
) -> Status
    ensures usage { result ≡ Status.Usage ↔ (0 < length words.now) }
    ensures not_begun { result ≡ Status.Usage → (input.new ≡ input.old) × (out.new ≡ out.old) }
    ensures selects { result ≢ Status.Usage → Selects
        (streams_of S.left S.faults K.written K.faults input.old out.old)
        (streams_of S.left S.faults K.written K.faults input.new out.new) result }
    ensures size { HasSize LIMIT (S.left input.old) result }
    ensures untouched { IsUntouched result (out.new ≡ out.old) }
    ensures calm { length words.now ≡ 0 → Calm (S.faults input.old) (S.faults input.new) → Calm (K.faults out.old) (K.faults out.new)
        → Within LIMIT (S.left input.old) → IsCalm result }
    ensures later { (S.faults input.old ≤ S.faults input.new) × (K.faults out.old ≤ K.faults out.new) }
{
    if !words.is_empty() {
        return Status::Usage;
    }
    let json = match read_all(alloc, input) {
        Ok(json) => json,
        Err(error) => return Status::from(error),
    };
    let Ok(answer) = answer_to(alloc, &json) else {
        return Status::OutOfMemory;
    };
    match write_all(out, &answer.printed) {
        Ok(()) => answer.status,
        Err(_) => Status::SinkFailed,
    }
}
