//! The header of a token.
ghost use Rattle.std.specs.Prelude.{◌≡◌, ◌&&◌, Ok, Err, map, nat_eq, codes, string_bytes, is_some, option_map, IfOk, IfErr};
ghost use Rattle.std.specs.List.{list_all};
ghost use Rattle.serde_json.specs.Find.{get};
ghost use Rattle.serde_json.specs.View.{view};
ghost use Rattle.spiffe_json.specs.Json.{whole_json};
ghost use Rattle.spiffe_token.specs.Header.{optional_text};
ghost use Rattle.spiffe_token.specs.Members.{member_of, members_of};
ghost use Rattle.identity_verify.specs.VerifyError.{IsRefusal};
ghost use Rattle.identity_verify.specs.JoseHeader.{is_header_name, has_few_members, is_absent_or_text, has_header_values, header_json, header_shape};
ghost use Rattle.identity_verify.specs.JoseHeader.{header_rule};

use crate::error::VerifyError;
use serde_json::Value;
use spiffe_json::{JsonError, ReadError, read_json};
use spiffe_token::{Member, is_once, top_members};
use std::alloc::Global;

fn is_header_name(member: &Member) -> bool
    ensures { result ≡ is_header_name (member_of member.now) }
{
    matches!(member.name.as_str(), "alg" | "kid" | "typ")
}

fn are_header_names(members: &[Member]) -> bool
    ensures { result ≡ list_all is_header_name (map member_of members.now) }
{
    for member in members {
        if !is_header_name(member) {
            return false;
        }
    }
    true
}

fn has_few_members<E>(alloc: Global, header: &[u8]) -> Result<bool, VerifyError<E>>
    ensures ok { IfOk result (λ few. few ≡ has_few_members (members_of header.now)) }
    ensures err { IfErr result (λ e. e ≡ VerifyError.OutOfMemory) }
{
    match top_members(alloc, header)? {
        Some(members) => Ok(
            are_header_names(&members)
                && is_once(&members, "alg")
                && is_once(&members, "kid")
                && is_once(&members, "typ"),
        ),
        None => Ok(false),
    }
}

fn is_absent_or_text(member: Option<&Value>) -> bool
    ensures { result ≡ is_absent_or_text (option_map (λ v. view v.now) member.entry) }
{
    match member {
        None => true,
        Some(value) => value.as_str().is_some(),
    }
}

fn is_optional_text(member: Option<&Value>) -> bool
    ensures { result ≡ is_some (optional_text (option_map (λ v. view v.now) member.entry)) }
{
    matches!(member, None | Some(Value::Null) | Some(Value::String(_)))
}

fn has_header_values(value: &Value) -> bool
    ensures { result ≡ has_header_values (view value.now) }
{
    value.get("alg").and_then(Value::as_str).is_some()
        && is_optional_text(value.get("kid"))
        && is_absent_or_text(value.get("typ"))
}

fn header_json<E>(alloc: Global, header: &[u8]) -> Result<Value, VerifyError<E>>
    ensures ok { IfOk result (λ v. whole_json header.now ≡ Ok (view v)) }
    ensures err { IfErr result (λ e. IsRefusal (header_json (whole_json header.now)) e) }
{
    match read_json(alloc, header) {
        Ok(value) => Ok(value),
        Err(ReadError::Json(broken)) => Err(VerifyError::InvalidJoseHeader(broken)),
        Err(ReadError::OutOfMemory) => Err(VerifyError::OutOfMemory),
    }
}

/// Whether the bytes are a header in which nothing else stands than `alg`, `kid` and `typ`.
#[tactic(auto, unfolding(crate::specs::JoseHeader::header_rule))]
pub(crate) fn check_header<E: Drop>(alloc: Global, header: &[u8]) -> Result<(), VerifyError<E>>
    ensures ok { IfOk result (λ u. header_rule {E = E} header.now ≡ Ok u) }
    ensures err { IfErr result (λ e. IsRefusal (header_rule header.now) e) }
{
    let value = header_json(alloc, header)?;
    if has_few_members(alloc, header)? && has_header_values(&value) {
        return Ok(());
    }
    Err(VerifyError::InvalidJoseHeader(JsonError::Shape))
}
