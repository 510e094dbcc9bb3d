//! The line of a broken rule.
ghost use Rattle.std.specs.Prelude.{◌≡◌, IfOk, string_bytes};
ghost use Rattle.pack_program.specs.Refusal.{IsRule, pack_line};

use pack_update::PackError;
use refusal_lines::{id_text, refusal_text};
use std::alloc::{AllocError, Global};

/// The line of a broken rule. A fault of the disk and want of memory have none.
pub(crate) fn pack_text(alloc: Global, error: &PackError) -> Result<String, AllocError>
    ensures line { IfOk result (λ text. string_bytes text ≡ pack_line error.now) }
    ensures rule { IfOk result (λ _. IsRule error.now) }
{
    match error {
        PackError::Width => format!(in alloc; "refused: width\n"),
        PackError::Manifest(cause) => format!(in alloc; "refused: manifest: {cause}\n"),
        PackError::Subject { entry, cause } => {
            format!(in alloc; "refused: entry {entry}: subject: {}\n", id_text(cause))
        }
        PackError::KeyFile { entry, cause } => {
            format!(in alloc; "refused: entry {entry}: key file: {cause}\n")
        }
        PackError::PublicFile { entry, cause } => {
            format!(in alloc; "refused: entry {entry}: public file: {cause}\n")
        }
        PackError::NoPublicKey { entry } => {
            format!(in alloc; "refused: entry {entry}: no public key\n")
        }
        PackError::Domain { bundle, cause } => {
            format!(in alloc; "refused: bundle {bundle}: domain: {}\n", id_text(cause))
        }
        PackError::JwksFile { bundle, cause } => {
            format!(in alloc; "refused: bundle {bundle}: key set file: {cause}\n")
        }
        PackError::Update(error) => refusal_text(alloc, error),
        PackError::Fault => Err(AllocError),
        PackError::OutOfMemory => Err(AllocError),
    }
}
