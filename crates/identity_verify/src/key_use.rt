//! What an authority may be used for.
ghost use Rattle.std.specs.Prelude.{◌≡◌, Ok, Err, Some, map, is_some, codes, option_map, option_and_then, IfOk, IfErr};
ghost use Rattle.std.specs.List.{list_any};
ghost use Rattle.serde_json.specs.Find.{get, as_str, as_array};
ghost use Rattle.serde_json.specs.View.{view, items_view};
ghost use Rattle.spiffe_token.specs.Claims.{texts_of};
ghost use Rattle.identity_verify.specs.VerifyError.{IsRefusal};
ghost use Rattle.identity_verify.specs.Authority.{supported_rule, authority_alg, alg_rule, use_rule, stands_in, has_repeats, is_of_encryption};
ghost use Rattle.identity_verify.specs.Authority.{operations_rule, key_ops_rule, use_rules};

use crate::error::{Field, VerifyError};
use serde_json::Value;
use spiffe_token::JwtAlg;
use std::alloc::{AllocError, Global};

/// Whether tokens of the algorithm are verified.
pub(crate) fn check_supported<E>(alg: JwtAlg) -> Result<(), VerifyError<E>>
    ensures { result ≡ supported_rule alg }
{
    if alg == JwtAlg::ES512 {
        return Err(VerifyError::BackendUnsupportedAlgorithm(JwtAlg::ES512));
    }
    Ok(())
}

#[tactic(auto, unfolding(crate::specs::Authority::authority_alg))]
fn authority_alg(name: &str) -> Option<JwtAlg>
    ensures { result ≡ authority_alg name.now }
{
    match name {
        "RS256" => Some(JwtAlg::RS256),
        "RS384" => Some(JwtAlg::RS384),
        "RS512" => Some(JwtAlg::RS512),
        "ES256" => Some(JwtAlg::ES256),
        "ES384" => Some(JwtAlg::ES384),
        "PS256" => Some(JwtAlg::PS256),
        "PS384" => Some(JwtAlg::PS384),
        "PS512" => Some(JwtAlg::PS512),
        _ => None,
    }
}

fn named_alg(value: &Value) -> Option<JwtAlg>
    ensures { result ≡ option_and_then authority_alg (as_str (view value.now)) }
{
    match value.as_str() {
        Some(name) => authority_alg(name),
        None => None,
    }
}

fn check_alg<E>(token: JwtAlg, member: Option<&Value>) -> Result<(), VerifyError<E>>
    ensures { result ≡ alg_rule token (option_map (λ v. view v.now) member.entry) }
{
    let Some(value) = member else {
        return Ok(());
    };
    let Some(authority) = named_alg(value) else {
        return Err(VerifyError::InvalidAuthorityMetadata(Field::Alg));
    };
    if authority == token {
        return Ok(());
    }
    Err(VerifyError::AuthorityAlgorithmMismatch { authority, token })
}

fn check_use<E>(member: Option<&Value>) -> Result<(), VerifyError<E>>
    ensures { result ≡ use_rule (option_map (λ v. view v.now) member.entry) }
{
    let Some(value) = member else {
        return Ok(());
    };
    match value.as_str() {
        None => Err(VerifyError::InvalidAuthorityMetadata(Field::Use)),
        Some("sig") | Some("jwt-svid") => Ok(()),
        Some(_) => Err(VerifyError::UnsupportedAuthorityPurpose),
    }
}

// The texts that the elements are, if all of them are texts.
fn texts<'v>(alloc: Global, items: &'v [Value]) -> Result<Option<Vec<&'v str>>, AllocError>
    ensures { IfOk result (λ o. option_map (λ v. map (λ t. t.now) v.items) o ≡ texts_of (items_view items.now)) }
{
    let mut texts = Vec::new(alloc);
    for item in items {
        let Some(text) = item.as_str() else {
            return Ok(None);
        };
        texts.push(text)?;
    }
    Ok(Some(texts))
}

fn stands_in(texts: &[&str], text: &str) -> bool
    ensures { result ≡ stands_in (map (λ t. t.now) texts.now) text.now }
{
    for t in texts {
        if *t == text {
            return true;
        }
    }
    false
}

fn has_repeats(texts: &[&str]) -> bool
    ensures { result ≡ has_repeats (map (λ t. t.now) texts.now) }
{
    let mut rest = texts;
    'texts: while let [text, more @ ..] = rest {
        if stands_in(more, text) {
            return true;
        }
        rest = more;
    }
    false
}

fn is_of_encryption(operation: &str) -> bool
    ensures { result ≡ is_of_encryption operation.now }
{
    matches!(
        operation,
        "encrypt" | "decrypt" | "wrapKey" | "unwrapKey" | "deriveKey" | "deriveBits"
    )
}

fn has_encryption(operations: &[&str]) -> bool
    ensures { result ≡ list_any is_of_encryption (map (λ t. t.now) operations.now) }
{
    for operation in operations {
        if is_of_encryption(operation) {
            return true;
        }
    }
    false
}

fn check_operations<E>(has_use: bool, operations: &[&str]) -> Result<(), VerifyError<E>>
    ensures { result ≡ operations_rule has_use (Some (map (λ t. t.now) operations.now)) }
{
    if has_repeats(operations) || (has_use && has_encryption(operations)) {
        return Err(VerifyError::InvalidAuthorityMetadata(Field::KeyOps));
    }
    if stands_in(operations, "verify") {
        return Ok(());
    }
    Err(VerifyError::AuthorityVerificationNotPermitted)
}

fn operations<'v>(alloc: Global, value: &'v Value) -> Result<Option<Vec<&'v str>>, AllocError>
    ensures { IfOk result (λ o. option_map (λ v. map (λ t. t.now) v.items) o ≡ option_and_then texts_of (as_array (view value.now))) }
{
    match value.as_array() {
        Some(items) => texts(alloc, items),
        None => Ok(None),
    }
}

fn check_key_ops<E: Drop>(
    alloc: Global,
    has_use: bool,
    member: Option<&Value>,
) -> Result<(), VerifyError<E>>
    ensures ok { IfOk result (λ u. key_ops_rule {E = E} has_use (option_map (λ v. view v.now) member.entry) ≡ Ok u) }
    ensures err { IfErr result (λ e. IsRefusal (key_ops_rule has_use (option_map (λ v. view v.now) member.entry)) e) }
{
    let Some(value) = member else {
        return Ok(());
    };
    match operations(alloc, value)? {
        Some(operations) => check_operations(has_use, &operations),
        None => Err(VerifyError::InvalidAuthorityMetadata(Field::KeyOps)),
    }
}

/// Whether an authority of this JSON may verify tokens of the algorithm.
#[tactic(auto, unfolding(crate::specs::Authority::use_rules))]
pub(crate) fn check_use_rules<E: Drop>(
    alloc: Global,
    alg: JwtAlg,
    value: &Value,
) -> Result<(), VerifyError<E>>
    ensures ok { IfOk result (λ u. use_rules {E = E} alg (view value.now) ≡ Ok u) }
    ensures err { IfErr result (λ e. IsRefusal (use_rules alg (view value.now)) e) }
{
    check_alg(alg, value.get("alg"))?;
    check_use(value.get("use"))?;
    check_key_ops(alloc, value.get("use").is_some(), value.get("key_ops"))
}
