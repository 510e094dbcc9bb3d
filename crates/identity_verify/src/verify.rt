//! Verification over a source of bundles.
ghost use Rattle.std.specs.Prelude.{◌≡◌, ℕ, List, Option, Ok, Err, nat_eq, option_map, map, string_bytes, IfOk, IfErr};
ghost use Rattle.std.specs.Arc.{arc_value};
ghost use Rattle.identity_verify.specs.VerifyError.{IsRefusal};
ghost use Rattle.identity_verify.specs.Decoding.{IsDecoding};
ghost use Rattle.identity_verify.specs.Verdict.{IsVerifyRefusal, bundle_rule, key_id_rule, jwk_rules, judged, signature_rule, is_expected, has_audience};
ghost use Rattle.identity_verify.specs.Verdict.{audience_rule, begin_rule, window_rule, claims_rules, signed_rules, authority_for, parts_verdict, verdict};
ghost use Rattle.spiffe_token.specs.Parts.{parts_value};

use crate::backend::{Backend, Signature};
use crate::decoding::decode;
use crate::error::{JwtVerificationError, JwtVerificationErrorKind, VerifyError};
use crate::key_parts::check_authority;
use crate::key_use::check_supported;
use crate::token::{check_time, message_of, read_parts};
use spiffe_bundle::{BundleSource, JwtAuthority, JwtBundle};
use spiffe_id::TrustDomain;
use spiffe_json::{ReadError, read_json};
use spiffe_token::{JwtAlg, JwtSvid, JwtSvidError, Parts, split_parts};
use std::alloc::Global;
use std::sync::Arc;

const NANOSECONDS: i128 = 1_000_000_000;

fn failed<E>(kind: JwtVerificationErrorKind) -> VerifyError<E>
    ensures { result ≡ VerifyError.InvalidToken kind }
{
    VerifyError::InvalidToken(JwtVerificationError::new(kind))
}

fn check_judged<E>(found: Signature) -> Result<(), VerifyError<E>>
    ensures { result ≡ judged found }
{
    match found {
        Signature::Good => Ok(()),
        Signature::Bad => Err(failed(JwtVerificationErrorKind::InvalidSignature)),
        Signature::Unusable => Err(failed(JwtVerificationErrorKind::Other)),
    }
}

fn check_audience<E>(expected: &[String], audiences: &[String]) -> Result<(), VerifyError<E>>
    ensures { result ≡ audience_rule (map string_bytes expected.now) (map string_bytes audiences.now) }
{
    if has_audience(expected, audiences) {
        return Ok(());
    }
    Err(failed(JwtVerificationErrorKind::AudienceMismatch))
}

fn has_audience(expected: &[String], audiences: &[String]) -> bool
    ensures { result ≡ has_audience (map string_bytes expected.now) (map string_bytes audiences.now) }
{
    for audience in audiences {
        if is_expected(expected, audience.as_str()) {
            return true;
        }
    }
    false
}

fn is_expected(expected: &[String], audience: &str) -> bool
    ensures { result ≡ is_expected (map string_bytes expected.now) audience.now }
{
    for e in expected {
        if e.as_str() == audience {
            return true;
        }
    }
    false
}

fn check_window<E>(now: i128, expiry: i64, begins: Option<i128>) -> Result<(), VerifyError<E>>
    ensures { result ≡ window_rule now expiry begins }
{
    if i128::from(expiry) * NANOSECONDS <= now {
        return Err(failed(JwtVerificationErrorKind::Expired));
    }
    match begins {
        Some(begins) if now < begins => Err(failed(JwtVerificationErrorKind::NotYetValid)),
        _ => Ok(()),
    }
}

// The token's audiences and its times.
fn check_claims<E: Drop>(
    svid: &JwtSvid,
    begins: Option<i128>,
    expected: &[String],
    now: i128,
) -> Result<(), VerifyError<E>>
    ensures { result ≡ claims_rules (map string_bytes expected.now) now svid.now begins }
{
    check_audience(expected, svid.audience())?;
    check_window(now, svid.expiry(), begins)
}

// The backend's answer to the signature.
fn check_signature<E: Drop, K: Backend>(
    alloc: Global,
    backend: &K,
    alg: JwtAlg,
    jwk_json: &[u8],
    message: &[u8],
    signature: &str,
) -> Result<(), VerifyError<E>>
    ensures ok { (decode : List ℕ → Option (List ℕ)) → IsDecoding decode
        → IfOk result (λ u. signature_rule {E = E} (K.answer backend.now alg jwk_json.now message.now) (decode signature.now) ≡ Ok u) }
    ensures err { (decode : List ℕ → Option (List ℕ)) → IsDecoding decode
        → IfErr result (λ e. IsRefusal (signature_rule (K.answer backend.now alg jwk_json.now message.now) (decode signature.now)) e) }
{
    match decode(alloc, signature)? {
        Some(octets) => check_judged(backend.verify(alg, jwk_json, message, &octets)),
        None => Err(failed(JwtVerificationErrorKind::Other)),
    }
}

fn find_bundle<'b, B: BundleSource<Item = JwtBundle>>(
    alloc: Global,
    bundles: &'b B,
    domain: &TrustDomain,
) -> Result<&'b Arc<JwtBundle>, VerifyError<B::Error>>
where
    B::Error: Drop,
    ensures ok { IfOk result (λ b. bundle_rule domain.now (B.answer bundles.now domain.now) ≡ Ok (arc_value b.now)) }
    ensures err { IfErr result (λ e. IsRefusal (bundle_rule domain.now (B.answer bundles.now domain.now)) e) }
{
    match bundles.bundle_for_trust_domain(domain) {
        Ok(Some(bundle)) => Ok(bundle),
        Ok(None) => Err(VerifyError::BundleNotFound(domain.copy(alloc)?)),
        Err(cause) => Err(VerifyError::BundleSourceError(cause)),
    }
}

fn find_authority<'b, E: Drop>(
    alloc: Global,
    bundle: &'b JwtBundle,
    key_id: &str,
) -> Result<&'b Arc<JwtAuthority>, VerifyError<E>>
    ensures ok { IfOk result (λ a. key_id_rule {E = E} key_id.now bundle.now ≡ Ok (arc_value a.now)) }
    ensures err { IfErr result (λ e. IsVerifyRefusal (key_id_rule key_id.now bundle.now) e) }
{
    match bundle.find_jwt_authority(key_id) {
        Some(authority) => Ok(authority),
        None => Err(VerifyError::AuthorityNotFound(String::from_str(alloc, key_id)?)),
    }
}

// The authority that the token names.
#[tactic(auto, unfolding(crate::specs::Verdict::authority_for))]
fn authority_for<'b, B: BundleSource<Item = JwtBundle>>(
    alloc: Global,
    bundles: &'b B,
    svid: &JwtSvid,
) -> Result<&'b Arc<JwtAuthority>, VerifyError<B::Error>>
where
    B::Error: Drop,
    ensures ok { IfOk result (λ a. authority_for (B.answer bundles.now) svid.now ≡ Ok (arc_value a.now)) }
    ensures err { IfErr result (λ e. IsVerifyRefusal (authority_for (B.answer bundles.now) svid.now) e) }
{
    check_supported(svid.alg())?;
    let bundle = find_bundle(alloc, bundles, svid.spiffe_id().trust_domain())?;
    find_authority(alloc, bundle, svid.key_id())
}

fn check_jwk<E: Drop>(
    alloc: Global,
    alg: JwtAlg,
    authority: &JwtAuthority,
) -> Result<(), VerifyError<E>>
    ensures ok { (decode : List ℕ → Option (List ℕ)) → IsDecoding decode
        → IfOk result (λ u. jwk_rules {E = E} decode alg authority.now.jwk_json ≡ Ok u) }
    ensures err { (decode : List ℕ → Option (List ℕ)) → IsDecoding decode
        → IfErr result (λ e. IsRefusal (jwk_rules decode alg authority.now.jwk_json) e) }
{
    match read_json(alloc, authority.jwk_json()) {
        Ok(value) => check_authority(alloc, alg, &value),
        Err(ReadError::OutOfMemory) => Err(VerifyError::OutOfMemory),
        Err(ReadError::Json(_)) => unreachable!(),
    }
}

// The authority is a key that made the signature.
#[tactic(auto, unfolding(crate::specs::Verdict::signed_rules))]
fn check_signed<E: Drop, K: Backend>(
    alloc: Global,
    backend: &K,
    authority: &JwtAuthority,
    alg: JwtAlg,
    message: &[u8],
    signature: &str,
) -> Result<(), VerifyError<E>>
    ensures ok { (decode : List ℕ → Option (List ℕ)) → IsDecoding decode
        → IfOk result (λ u. signed_rules {E = E} decode (K.answer backend.now) authority.now alg message.now signature.now ≡ Ok u) }
    ensures err { (decode : List ℕ → Option (List ℕ)) → IsDecoding decode
        → IfErr result (λ e. IsRefusal (signed_rules decode (K.answer backend.now) authority.now alg message.now signature.now) e) }
{
    check_jwk(alloc, alg, authority)?;
    check_signature(
        alloc,
        backend,
        alg,
        authority.jwk_json(),
        message,
        signature,
    )
}

#[tactic(auto, unfolding(crate::specs::Verdict::parts_verdict))]
fn verify_parts<B: BundleSource<Item = JwtBundle>, K: Backend>(
    alloc: Global,
    token: &str,
    parts: &Parts<'_>,
    bundles: &B,
    expected_audience: &[String],
    now: i128,
    backend: &K,
) -> Result<JwtSvid, VerifyError<B::Error>>
where
    B::Error: Drop,
    ensures ok { (decode : List ℕ → Option (List ℕ)) → IsDecoding decode
        → IfOk result (λ s. parts_verdict decode (B.answer bundles.now) (K.answer backend.now) token.now (map string_bytes expected_audience.now) now
        (parts_value parts.now) ≡ Ok s) }
    ensures err { (decode : List ℕ → Option (List ℕ)) → IsDecoding decode
        → IfErr result (λ e. IsVerifyRefusal
        (parts_verdict decode (B.answer bundles.now) (K.answer backend.now) token.now (map string_bytes expected_audience.now) now (parts_value parts.now)) e) }
{
    let (svid, begins) = read_parts(alloc, token, parts)?;
    let authority = authority_for(alloc, bundles, &svid)?;
    let message = message_of(token, parts);
    check_signed(
        alloc,
        backend,
        authority,
        svid.alg(),
        message,
        parts.signature,
    )?;
    check_claims(&svid, begins, expected_audience, now)?;
    Ok(svid)
}

/// Judges a token by the bundles of a source, at a time in nanoseconds from 1970-01-01T00:00:00Z on.
///
/// Its audiences must have one of the expected ones among them. The token is trusted as far as the backend is.
///
/// It errs with the first rule that breaks, of the time `now`, the text, header and claims, the authority that the token
/// names, its key, the signature, the audience and the token's time, as the variants of [`VerifyError`] say, and with
/// `OutOfMemory` where memory is refused.
#[tactic(auto, unfolding(crate::specs::Verdict::verdict))]
pub fn parse_and_validate<B: BundleSource<Item = JwtBundle>, K: Backend>(
    alloc: Global,
    token: &str,
    bundles: &B,
    expected_audience: &[String],
    now: i128,
    backend: &K,
) -> Result<JwtSvid, VerifyError<B::Error>>
where
    B::Error: Drop,
    ensures ok { (decode : List ℕ → Option (List ℕ)) → IsDecoding decode
        → IfOk result (λ s. verdict decode (B.answer bundles.now) (K.answer backend.now) token.now (map string_bytes expected_audience.now) now ≡ Ok s) }
    ensures err { (decode : List ℕ → Option (List ℕ)) → IsDecoding decode
        → IfErr result (λ e. IsVerifyRefusal (verdict decode (B.answer bundles.now) (K.answer backend.now) token.now
        (map string_bytes expected_audience.now) now) e) }
{
    check_time(now)?;
    let Some(parts) = split_parts(token) else {
        return Err(VerifyError::Token(JwtSvidError::InvalidJwtFormat));
    };
    verify_parts(
        alloc,
        token,
        &parts,
        bundles,
        expected_audience,
        now,
        backend,
    )
}
