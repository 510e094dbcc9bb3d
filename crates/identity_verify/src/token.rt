//! The rules of a token's text.
ghost use Rattle.std.specs.Prelude.{◌≡◌, ◌≤◌, ℕ, List, Option, Ok, Err, option_map, is_some, length, IfOk, IfErr};
ghost use Rattle.spiffe_json.specs.Json.{json_of};
ghost use Rattle.spiffe_token.specs.Parts.{parts_value};
ghost use Rattle.identity_verify.specs.VerifyError.{IsRefusal};
ghost use Rattle.identity_verify.specs.Decoding.{IsDecoding};
ghost use Rattle.identity_verify.specs.TokenRules.{time_rule, message_of, is_syntax, claims_rule, json_rules, parts_rules, octets_of};

use crate::decoding::decode_part;
use crate::error::VerifyError;
use crate::jose_header::check_header;
use spiffe_json::{JsonError, ReadError, read_json};
use spiffe_token::{JwtSvid, JwtSvidError, Parts};
use std::alloc::{AllocError, Global};
use token_time::{not_before, quiet};

// The end of the year 9999, in nanoseconds.
const MAX_TIME: i128 = 253_402_300_799_999_999_999;

/// Whether a token can be judged at this time.
pub(crate) fn check_time<E>(now: i128) -> Result<(), VerifyError<E>>
    ensures { result ≡ time_rule now }
{
    if now < 0 || now > MAX_TIME {
        return Err(VerifyError::InvalidVerificationTime);
    }
    Ok(())
}

/// What was signed: the token's bytes before the second dot.
pub(crate) fn message_of<'t>(token: &'t str, parts: &Parts<'_>) -> &'t [u8]
    ensures { result.now ≡ message_of token.now (parts_value parts.now) }
{
    let len = token.len().saturating_sub(parts.signature.len());
    &token.as_bytes()[..len.saturating_sub(1)]
}

fn octets_of(alloc: Global, parts: &Parts<'_>) -> Result<Option<(Vec<u8>, Vec<u8>)>, AllocError>
    ensures { (decode : List ℕ → Option (List ℕ)) → IsDecoding decode
        → IfOk result (λ o. option_map (λ p. (p.0.items, p.1.items)) o ≡ octets_of decode (parts_value parts.now)) }
{
    let Some(header) = decode_part(alloc, parts.header)? else {
        return Ok(None);
    };
    let Some(claims) = decode_part(alloc, parts.claims)? else {
        return Ok(None);
    };
    Ok(Some((header, claims)))
}

/// The token, and the time that it is valid from.
#[tactic(auto, unfolding(crate::specs::TokenRules::parts_rules))]
pub(crate) fn read_parts<E: Drop>(
    alloc: Global,
    token: &str,
    parts: &Parts<'_>,
) -> Result<(JwtSvid, Option<i128>), VerifyError<E>>
    ensures ok { (decode : List ℕ → Option (List ℕ)) → IsDecoding decode
        → IfOk result (λ p. parts_rules {E = E} decode token.now (parts_value parts.now) ≡ Ok p) }
    ensures err { (decode : List ℕ → Option (List ℕ)) → IsDecoding decode
        → IfErr result (λ e. IsRefusal (parts_rules decode token.now (parts_value parts.now)) e) }
{
    match octets_of(alloc, parts)? {
        Some((header, claims)) => read_json_parts(alloc, token, &header, &claims),
        None => Err(VerifyError::Token(JwtSvidError::InvalidBase64)),
    }
}

fn is_syntax(broken: JsonError) -> bool
    ensures { result ≡ is_syntax broken }
{
    matches!(broken, JsonError::Syntax)
}

// Whether the bytes are JSON, whatever numbers stand in it.
fn is_json(alloc: Global, bytes: &[u8]) -> Result<bool, AllocError>
    ensures { IfOk result (λ b. b ≡ is_some (json_of bytes.now)) }
{
    let broken = match read_json(alloc, bytes) {
        Ok(_value) => return Ok(true),
        Err(ReadError::Json(broken)) => broken,
        Err(ReadError::OutOfMemory) => return Err(AllocError),
    };
    Ok(!is_syntax(broken))
}

fn check_claims<E: Drop>(alloc: Global, claims: &[u8]) -> Result<(), VerifyError<E>>
    ensures ok { IfOk result (λ u. claims_rule {E = E} claims.now ≡ Ok u) }
    ensures err { IfErr result (λ e. IsRefusal (claims_rule claims.now) e) }
{
    if is_json(alloc, claims)? {
        return Ok(());
    }
    Err(VerifyError::Token(JwtSvidError::InvalidJson(JsonError::Syntax)))
}

#[tactic(auto, unfolding(crate::specs::TokenRules::json_rules))]
fn read_json_parts<E: Drop>(
    alloc: Global,
    token: &str,
    header: &[u8],
    claims: &[u8],
) -> Result<(JwtSvid, Option<i128>), VerifyError<E>>
    ensures ok { IfOk result (λ p. json_rules {E = E} token.now header.now claims.now ≡ Ok p) }
    ensures err { IfErr result (λ e. IsRefusal (json_rules token.now header.now claims.now) e) }
{
    check_header(alloc, header)?;
    check_claims(alloc, claims)?;
    let svid = JwtSvid::from_parts(alloc, token, header, &quiet(alloc, claims)?)?;
    match not_before(alloc, claims)? {
        Some(time) => Ok((svid, time)),
        None => Err(VerifyError::InvalidNotBefore),
    }
}
