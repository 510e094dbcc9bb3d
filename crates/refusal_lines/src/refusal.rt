//! The line of a refusal.
ghost use Rattle.std.specs.Prelude.{◌≡◌, ◌≢◌, IfOk, string_bytes};
ghost use Rattle.refusal_lines.specs.Refusal.{id_rule, json_rule, keys_rule, refusal_line};

use identity_update::UpdateError;
use spiffe_bundle::JwtBundleError;
use spiffe_id::SpiffeIdError;
use spiffe_json::JsonError;
use std::alloc::{AllocError, Global};

/// What is wrong with a SPIFFE ID or a trust domain, in the words of a refusal's line.
pub fn id_text(cause: &SpiffeIdError) -> &'static str
    ensures { result.now ≡ id_rule cause.now }
{
    match cause {
        SpiffeIdError::Empty => "empty",
        SpiffeIdError::MissingTrustDomain => "trust domain missing",
        SpiffeIdError::WrongScheme => "wrong scheme",
        SpiffeIdError::BadTrustDomainChar => "bad trust domain character",
        SpiffeIdError::BadPathSegmentChar => "bad path character",
        SpiffeIdError::EmptySegment => "empty segment",
        SpiffeIdError::DotSegment => "dot segment",
        SpiffeIdError::TrailingSlash => "trailing slash",
        SpiffeIdError::SpiffeIdTooLong { max: _ } => "SPIFFE ID too long",
        SpiffeIdError::TrustDomainTooLong { max: _ } => "trust domain too long",
        SpiffeIdError::OutOfMemory => "out of memory",
    }
}

/// What is wrong with a JSON text, in the words of a refusal's line.
pub fn json_text(cause: &JsonError) -> &'static str
    ensures { result.now ≡ json_rule cause.now }
{
    match cause {
        JsonError::Syntax => "invalid JSON",
        JsonError::Number => "number not allowed",
        JsonError::Keys => "no keys array",
        JsonError::Shape => "bad shape",
    }
}

fn keys_text(cause: &JwtBundleError) -> &'static str
    ensures { result.now ≡ keys_rule cause.now }
{
    match cause {
        JwtBundleError::MissingKeyId => "missing key ID",
        JwtBundleError::Deserialize(cause) => json_text(cause),
        JwtBundleError::OutOfMemory => "out of memory",
    }
}

/// The line of a refusal. Want of memory has none, and takes the way of one: `AllocError`, as where there is no memory for the line.
pub fn refusal_text(alloc: Global, error: &UpdateError) -> Result<String, AllocError>
    ensures line { IfOk result (λ text. string_bytes text ≡ refusal_line error.now) }
    ensures rule { IfOk result (λ _. error.now ≢ UpdateError.OutOfMemory) }
{
    match error {
        UpdateError::RevisionsUsedUp => format!(in alloc; "refused: revisions used up\n"),
        UpdateError::Text(cause) => format!(in alloc; "refused: text: {cause}\n"),
        UpdateError::Document(cause) => format!(in alloc; "refused: document: {cause}\n"),
        UpdateError::MissingRequiredField => {
            format!(in alloc; "refused: document: no identity\n")
        }
        UpdateError::WithdrawalWithEntries => {
            format!(in alloc; "refused: document: withdrawal with identities\n")
        }
        UpdateError::Subject { entry, cause } => {
            format!(in alloc; "refused: entry {entry}: subject: {}\n", id_text(cause))
        }
        UpdateError::AlgorithmMismatch { entry } => {
            format!(in alloc; "refused: entry {entry}: algorithms differ\n")
        }
        UpdateError::PublicKeyMismatch { entry } => {
            format!(in alloc; "refused: entry {entry}: public keys differ\n")
        }
        UpdateError::Domain { bundle, cause } => {
            format!(in alloc; "refused: bundle {bundle}: domain: {}\n", id_text(cause))
        }
        UpdateError::Authorities { bundle, cause } => {
            format!(in alloc;
                "refused: bundle {bundle}: authorities: {}\n",
                keys_text(cause)
            )
        }
        UpdateError::MissingBundle { entry } => {
            format!(in alloc; "refused: entry {entry}: no bundle\n")
        }
        UpdateError::OutOfMemory => Err(AllocError),
    }
}
