use crate::checks::{good, same, same_bytes, same_text};
use crate::samples::{REPORT, SAMPLE};
use command_line::Status;
use identity_io::{MemorySink, MemorySource};
use identity_source::UpdateError;
use refusal_lines::refusal_text;
use spiffe_bundle::JwtBundleError;
use spiffe_id::SpiffeIdError;
use spiffe_json::JsonError;
use std::alloc::Global;
use std::process::Abort;
use tool_commands::report;

// What waits for nobody answers the same.
#[test]
fn report_without_a_source(rt: HostRuntime) {
    let mut room = [0u8; 200];
    let mut input = MemorySource::new(SAMPLE.as_bytes(), &[], 7);
    let mut out = MemorySink::new(&mut room, &[], 5);
    let status = report(rt.alloc(), 64, &mut input, &mut out);
    same(&rt, "status", &status, &Status::Done);
    same_bytes(&rt, "report", out.written(), REPORT.as_bytes());
}

// That the line of the refusal is this one.
fn refused(rt: &impl Abort, alloc: Global, error: UpdateError, line: &str) {
    let found = good(rt, "memory", refusal_text(alloc, &error));
    let wanted = good(rt, "memory", format!(in alloc; "refused: {line}\n"));
    same_text(rt, "refusal", &found, &wanted);
}

// The lines that no other test shows, by the table in `docs/FORMATS.md`.
#[test]
fn refusals(rt: HostRuntime) {
    for (error, line) in [
        (UpdateError::RevisionsUsedUp, "revisions used up"),
        (
            UpdateError::WithdrawalWithEntries,
            "document: withdrawal with identities",
        ),
        (
            UpdateError::AlgorithmMismatch { entry: 3 },
            "entry 3: algorithms differ",
        ),
        (
            UpdateError::PublicKeyMismatch { entry: 12 },
            "entry 12: public keys differ",
        ),
        (
            UpdateError::Authorities {
                bundle: 1,
                cause: JwtBundleError::MissingKeyId,
            },
            "bundle 1: authorities: missing key ID",
        ),
        (
            UpdateError::MissingBundle { entry: 0 },
            "entry 0: no bundle",
        ),
    ] {
        refused(&rt, rt.alloc(), error, line);
    }
}

#[test]
fn causes_of_names(rt: HostRuntime) {
    for (cause, text) in [
        (SpiffeIdError::Empty, "empty"),
        (SpiffeIdError::MissingTrustDomain, "trust domain missing"),
        (SpiffeIdError::WrongScheme, "wrong scheme"),
        (
            SpiffeIdError::BadTrustDomainChar,
            "bad trust domain character",
        ),
        (SpiffeIdError::BadPathSegmentChar, "bad path character"),
        (SpiffeIdError::EmptySegment, "empty segment"),
        (SpiffeIdError::DotSegment, "dot segment"),
        (SpiffeIdError::TrailingSlash, "trailing slash"),
        (
            SpiffeIdError::TrustDomainTooLong { max: 255 },
            "trust domain too long",
        ),
    ] {
        let line = good(
            &rt,
            "memory",
            format!(in rt.alloc(); "entry 7: subject: {text}"),
        );
        refused(
            &rt,
            rt.alloc(),
            UpdateError::Subject { entry: 7, cause },
            &line,
        );
    }
}

#[test]
fn causes_of_key_sets(rt: HostRuntime) {
    for (cause, text) in [
        (JsonError::Syntax, "invalid JSON"),
        (JsonError::Number, "number not allowed"),
        (JsonError::Keys, "no keys array"),
    ] {
        let cause = JwtBundleError::Deserialize(cause);
        let line = good(
            &rt,
            "memory",
            format!(in rt.alloc(); "bundle 0: authorities: {text}"),
        );
        refused(
            &rt,
            rt.alloc(),
            UpdateError::Authorities { bundle: 0, cause },
            &line,
        );
    }
}
