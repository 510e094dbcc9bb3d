//! Verification over the state that a reader of the identity source has now.
ghost use Rattle.std.specs.Prelude.{◌≡◌, ℕ, List, Option, Ok, map, string_bytes, IfOk, IfErr};
ghost use Rattle.identity_update.specs.BundleMap.{bundle_map};
ghost use Rattle.spiffe_bundle.specs.JwtBundleSet.{find_bundle};
ghost use Rattle.identity_source.specs.History.{EndsWith};
ghost use Rattle.identity_source.specs.Reader.{PlainReader, Renewed};
ghost use Rattle.identity_verify.specs.Decoding.{IsDecoding};
ghost use Rattle.identity_verify.specs.Verdict.{IsVerifyRefusal, verdict};
ghost use Rattle.identity_verify.specs.Current.{state_of, state_answer};

use crate::backend::Backend;
use crate::error::VerifyError;
use crate::verify::parse_and_validate;
use identity_source::{IdentityReader, Snapshot};
use spiffe_token::JwtSvid;
use std::alloc::Global;
use std::convert::Infallible;

/// A token that is verified, and the state that verified it.
#[derive(Drop)]
pub struct Verified<'r> {
    /// The state of the source.
    pub state: &'r Snapshot,
    /// The token.
    pub svid: JwtSvid,
}

/// Why a token isn't verified, and the state that judged it.
#[derive(Drop)]
pub struct Rejected<'r> {
    /// The state of the source.
    pub state: &'r Snapshot,
    /// The first rule that breaks, or want of memory.
    pub cause: VerifyError<Infallible>,
}

/// Judges a token by a state that the reader gives: the verdict is that of the one whole state that is handed out
/// with it, the last of the list that one call of `current` gives the reader.
///
/// It errs as [`parse_and_validate`] does, but never with `BundleSourceError`, since a state has an answer for each trust
/// domain. The time is in nanoseconds from 1970-01-01T00:00:00Z on. No clause says what the reader is afterwards: who goes
/// on to tell it of receipts calls [`parse_and_validate`] over `reader.current()`.
pub fn verify_current<'r, K: Backend>(
    alloc: Global,
    reader: &'r mut IdentityReader,
    token: &str,
    expected_audience: &[String],
    now: i128,
    backend: &K,
) -> Result<Verified<'r>, Rejected<'r>>
    ensures read { (n : PlainReader) × Renewed reader.old n × EndsWith n.list (state_of result) }
    ensures ok { (decode : List ℕ → Option (List ℕ)) → IsDecoding decode
        → IfOk result (λ v. verdict decode (state_answer v.state.now) (K.answer backend.now) token.now (map string_bytes expected_audience.now) now
        ≡ Ok v.svid) }
    ensures err { (decode : List ℕ → Option (List ℕ)) → IsDecoding decode
        → IfErr result (λ r. IsVerifyRefusal (verdict decode (state_answer r.state.now) (K.answer backend.now) token.now
        (map string_bytes expected_audience.now) now) r.cause) }
{
    let state = reader.current();
    match parse_and_validate(alloc, token, state, expected_audience, now, backend) {
        Ok(svid) => Ok(Verified { state, svid }),
        Err(cause) => Err(Rejected { state, cause }),
    }
}
