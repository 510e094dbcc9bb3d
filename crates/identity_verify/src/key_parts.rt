//! The key that an authority's JSON writes.
ghost use Rattle.std.specs.Prelude.{◌≡◌, ℕ, List, Option, Ok, Err, codes, nat_lt, if◌then◌else◌, option_map, option_and_then, IfOk, IfErr};
ghost use Rattle.serde_json.specs.Find.{get, as_str};
ghost use Rattle.serde_json.specs.View.{view};
ghost use Rattle.spiffe_id.specs.Rules.{map_ok};
ghost use Rattle.identity_verify.specs.VerifyError.{IsRefusal};
ghost use Rattle.identity_verify.specs.Decoding.{IsDecoding};
ghost use Rattle.identity_verify.specs.Authority.{text_rule, component, key_type_rule, is_curve, curve_of, size_of, curve_rule, coordinate_rule};
ghost use Rattle.identity_verify.specs.Authority.{curve_key_rules, rsa_octets, rsa_component, bits_of, strength_rule, rsa_key_rules, key_rules};
ghost use Rattle.identity_verify.specs.Authority.{authority_rules};

use crate::decoding::decode;
use crate::error::{Field, VerifyError};
use crate::key_use::check_use_rules;
use serde_json::Value;
use spiffe_token::JwtAlg;
use std::alloc::Global;

const MIN_MODULUS_BITS: usize = 2048;

fn text_at<'v, E>(field: Field, member: Option<&'v Value>) -> Result<&'v str, VerifyError<E>>
    ensures { map_ok (λ t. t.now) result ≡ text_rule field (option_map (λ v. view v.now) member.entry) }
{
    let Some(value) = member else {
        return Err(VerifyError::InvalidAuthorityMetadata(field));
    };
    match value.as_str() {
        Some(text) => Ok(text),
        None => Err(VerifyError::InvalidAuthorityMetadata(field)),
    }
}

// The bytes that a member stands for.
fn component<E: Drop>(
    alloc: Global,
    field: Field,
    member: Option<&Value>,
) -> Result<Vec<u8>, VerifyError<E>>
    ensures ok { (decode : List ℕ → Option (List ℕ)) → IsDecoding decode
        → IfOk result (λ v. component {E = E} decode field (option_map (λ w. view w.now) member.entry) ≡ Ok v.items) }
    ensures err { (decode : List ℕ → Option (List ℕ)) → IsDecoding decode
        → IfErr result (λ e. IsRefusal (component decode field (option_map (λ w. view w.now) member.entry)) e) }
{
    let text = text_at(field, member)?;
    match decode(alloc, text)? {
        Some(octets) => Ok(octets),
        None => Err(VerifyError::InvalidAuthorityKeyComponent(field)),
    }
}

fn check_key_type<E: Drop>(key_type: &str, member: Option<&Value>) -> Result<(), VerifyError<E>>
    ensures { result ≡ key_type_rule key_type.now (option_map (λ v. view v.now) member.entry) }
{
    let text = text_at(Field::Kty, member)?;
    if text == key_type {
        return Ok(());
    }
    Err(VerifyError::InvalidAuthorityMetadata(Field::Kty))
}

fn is_curve(text: &str) -> bool
    ensures { result ≡ is_curve text.now }
{
    matches!(text, "P-256" | "P-384" | "P-521" | "Ed25519")
}

fn curve_of(is_384: bool) -> &'static str
    ensures { result.now ≡ curve_of is_384 }
{
    if is_384 { "P-384" } else { "P-256" }
}

fn size_of(is_384: bool) -> usize
    ensures { result ≡ size_of is_384 }
{
    if is_384 { 48 } else { 32 }
}

fn check_curve<E: Drop>(
    alg: JwtAlg,
    is_384: bool,
    member: Option<&Value>,
) -> Result<(), VerifyError<E>>
    ensures { result ≡ curve_rule alg is_384 (option_map (λ v. view v.now) member.entry) }
{
    let text = text_at(Field::Crv, member)?;
    if !is_curve(text) {
        return Err(VerifyError::InvalidAuthorityMetadata(Field::Crv));
    }
    if text == curve_of(is_384) {
        return Ok(());
    }
    Err(VerifyError::AuthorityCurveMismatch(alg))
}

fn check_coordinate<E: Drop>(
    alloc: Global,
    size: usize,
    field: Field,
    member: Option<&Value>,
) -> Result<(), VerifyError<E>>
    ensures ok { (decode : List ℕ → Option (List ℕ)) → IsDecoding decode
        → IfOk result (λ u. coordinate_rule {E = E} decode size field (option_map (λ w. view w.now) member.entry) ≡ Ok u) }
    ensures err { (decode : List ℕ → Option (List ℕ)) → IsDecoding decode
        → IfErr result (λ e. IsRefusal (coordinate_rule decode size field (option_map (λ w. view w.now) member.entry)) e) }
{
    let octets = component(alloc, field, member)?;
    if octets.len() == size {
        return Ok(());
    }
    Err(VerifyError::InvalidAuthorityKeyComponent(field))
}

#[tactic(auto, unfolding(crate::specs::Authority::curve_key_rules))]
fn check_curve_key<E: Drop>(
    alloc: Global,
    alg: JwtAlg,
    is_384: bool,
    value: &Value,
) -> Result<(), VerifyError<E>>
    ensures ok { (decode : List ℕ → Option (List ℕ)) → IsDecoding decode
        → IfOk result (λ u. curve_key_rules {E = E} decode alg is_384 (view value.now) ≡ Ok u) }
    ensures err { (decode : List ℕ → Option (List ℕ)) → IsDecoding decode
        → IfErr result (λ e. IsRefusal (curve_key_rules decode alg is_384 (view value.now)) e) }
{
    check_key_type("EC", value.get("kty"))?;
    check_curve(alg, is_384, value.get("crv"))?;
    check_coordinate(alloc, size_of(is_384), Field::X, value.get("x"))?;
    check_coordinate(alloc, size_of(is_384), Field::Y, value.get("y"))
}

fn check_octets<E>(field: Field, octets: &[u8]) -> Result<(), VerifyError<E>>
    ensures { map_ok (λ _. octets.now) result ≡ rsa_octets field octets.now }
{
    match octets {
        [] | [0] => Err(VerifyError::InvalidAuthorityKeyComponent(field)),
        [0, ..] => Err(VerifyError::NonCanonicalRsaComponent(field)),
        _ => Ok(()),
    }
}

fn rsa_component<E: Drop>(
    alloc: Global,
    field: Field,
    member: Option<&Value>,
) -> Result<Vec<u8>, VerifyError<E>>
    ensures ok { (decode : List ℕ → Option (List ℕ)) → IsDecoding decode
        → IfOk result (λ v. rsa_component {E = E} decode field (option_map (λ w. view w.now) member.entry) ≡ Ok v.items) }
    ensures err { (decode : List ℕ → Option (List ℕ)) → IsDecoding decode
        → IfErr result (λ e. IsRefusal (rsa_component decode field (option_map (λ w. view w.now) member.entry)) e) }
{
    let octets = component(alloc, field, member)?;
    check_octets(field, &octets)?;
    Ok(octets)
}

fn check_bits<E>(bits: usize) -> Result<(), VerifyError<E>>
    ensures { result ≡ (if nat_lt bits 2048 then Err (VerifyError.WeakRsaAuthority bits) else Ok tt) }
{
    if bits < MIN_MODULUS_BITS {
        return Err(VerifyError::WeakRsaAuthority(bits));
    }
    Ok(())
}

fn check_strength<E>(modulus: &[u8]) -> Result<(), VerifyError<E>>
    ensures { result ≡ strength_rule modulus.now }
{
    match modulus {
        [] => check_bits(0),
        [first, rest @ ..] if rest.len() <= MIN_MODULUS_BITS => {
            check_bits(8 * rest.len() + 8_u32.saturating_sub(first.leading_zeros()) as usize)
        }
        _ => Ok(()),
    }
}

#[tactic(auto, unfolding(crate::specs::Authority::rsa_key_rules))]
fn check_rsa_key<E: Drop>(alloc: Global, value: &Value) -> Result<(), VerifyError<E>>
    ensures ok { (decode : List ℕ → Option (List ℕ)) → IsDecoding decode → IfOk result (λ u. rsa_key_rules {E = E} decode (view value.now) ≡ Ok u) }
    ensures err { (decode : List ℕ → Option (List ℕ)) → IsDecoding decode → IfErr result (λ e. IsRefusal (rsa_key_rules decode (view value.now)) e) }
{
    check_key_type("RSA", value.get("kty"))?;
    let modulus = rsa_component(alloc, Field::N, value.get("n"))?;
    rsa_component(alloc, Field::E, value.get("e"))?;
    check_strength(&modulus)
}

fn check_key<E: Drop>(alloc: Global, alg: JwtAlg, value: &Value) -> Result<(), VerifyError<E>>
    ensures ok { (decode : List ℕ → Option (List ℕ)) → IsDecoding decode → IfOk result (λ u. key_rules {E = E} decode alg (view value.now) ≡ Ok u) }
    ensures err { (decode : List ℕ → Option (List ℕ)) → IsDecoding decode → IfErr result (λ e. IsRefusal (key_rules decode alg (view value.now)) e) }
{
    match alg {
        JwtAlg::ES256 => check_curve_key(alloc, alg, false, value),
        JwtAlg::ES384 => check_curve_key(alloc, alg, true, value),
        _ => check_rsa_key(alloc, value),
    }
}

/// Whether an authority of this JSON is a key that verifies tokens of the algorithm.
#[tactic(auto, unfolding(crate::specs::Authority::authority_rules))]
pub(crate) fn check_authority<E: Drop>(
    alloc: Global,
    alg: JwtAlg,
    value: &Value,
) -> Result<(), VerifyError<E>>
    ensures ok { (decode : List ℕ → Option (List ℕ)) → IsDecoding decode → IfOk result (λ u. authority_rules {E = E} decode alg (view value.now) ≡ Ok u) }
    ensures err { (decode : List ℕ → Option (List ℕ)) → IsDecoding decode → IfErr result (λ e. IsRefusal (authority_rules decode alg (view value.now)) e) }
{
    check_use_rules(alloc, alg, value)?;
    check_key(alloc, alg, value)
}
