//! The line of a refusal.
ghost use Rattle.std.specs.Prelude.{◌≡◌, ◌≢◌, IfOk, string_bytes};
ghost use Rattle.bundle_selection.specs.Refusal.{document_line};

use bundle_document::DocumentError;
use refusal_lines::json_text;
use std::alloc::{AllocError, Global};

/// The line of a refused document. Want of memory has none.
pub(crate) fn refusal_text(alloc: Global, error: &DocumentError) -> Result<String, AllocError>
    ensures line { IfOk result (λ text. string_bytes text ≡ document_line error.now) }
    ensures rule { IfOk result (λ _. error.now ≢ DocumentError.OutOfMemory) }
{
    match error {
        DocumentError::Deserialize(cause) => {
            format!(in alloc; "refused: {}\n", json_text(cause))
        }
        DocumentError::Sequence => format!(in alloc; "refused: bad sequence\n"),
        DocumentError::RefreshHint => format!(in alloc; "refused: bad refresh hint\n"),
        DocumentError::MissingKeyId { key } => {
            format!(in alloc; "refused: key {key}: missing key ID\n")
        }
        DocumentError::OutOfMemory => Err(AllocError),
    }
}
