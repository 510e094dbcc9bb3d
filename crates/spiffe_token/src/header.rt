//! Headers of tokens.
ghost use Rattle.std.specs.Prelude.{◌≡◌, List, Ok, option_and_then, IfOk, IfErr, map, option_map, count_by, nat_eq, codes, string_bytes};
ghost use Rattle.std.specs.Option.{ok_or};
ghost use Rattle.std.specs.Cmp.Lexicographic.{pointwise};
ghost use Rattle.serde_json.specs.Find.{get, as_str};
ghost use Rattle.serde_json.specs.View.{view};
ghost use Rattle.spiffe_id.specs.Rules.{map_ok};
ghost use Rattle.spiffe_token.specs.JwtSvidError.{IsRefusal};
ghost use Rattle.spiffe_token.specs.Members.{member_of, members_of};
ghost use Rattle.spiffe_token.specs.Header.{stand_once, optional_text, header_in, header_shape, typ_check, key_of};

use crate::error::JwtSvidError;
use crate::jwt_alg::JwtAlg;
use crate::members::{is_once, top_members};
use serde_json::Value;
use spiffe_json::JsonError;
use std::alloc::Global;

/// The members of a header that are looked at, as texts of its JSON value.
#[derive(Drop)]
pub(crate) struct Header<'v> {
    alg: &'v str,
    typ: Option<&'v str>,
    kid: Option<&'v str>,
}

// Whether the text is an object in which each of the names stands at most once.
pub(crate) fn stand_once(
    alloc: Global,
    json: &[u8],
    a: &str,
    b: &str,
    c: &str,
) -> Result<bool, JwtSvidError>
    ensures ok { IfOk result (λ once. once ≡ stand_once a.now b.now c.now (members_of json.now)) }
    ensures err { IfErr result (λ e. e ≡ JwtSvidError.OutOfMemory) }
{
    match top_members(alloc, json)? {
        Some(members) => Ok(is_once(&members, a) && is_once(&members, b) && is_once(&members, c)),
        None => Ok(false),
    }
}

pub(crate) fn text_at<'v>(value: &'v Value, name: &str) -> Option<&'v str>
    ensures { option_map (λ t. t.now) result ≡ option_and_then as_str (get name.now (view value.now)) }
{
    value.get(name).and_then(Value::as_str)
}

fn optional_text<'v>(value: &'v Value, name: &str) -> Option<Option<&'v str>>
    ensures { option_map (λ o. option_map (λ t. t.now) o) result ≡ optional_text (get name.now (view value.now)) }
{
    match value.get(name) {
        None | Some(Value::Null) => Some(None),
        Some(Value::String(text)) => Some(Some(text.as_str())),
        Some(_) => None,
    }
}

impl<'v> Header<'v> {
    ghost use Rattle.spiffe_token.specs.HeaderOf.{header_value};

    fn of(value: &'v Value) -> Option<Header<'v>>
        ensures { option_map header_value result ≡ header_in (view value.now) }
    {
        let alg = text_at(value, "alg")?;
        let typ = optional_text(value, "typ")?;
        let kid = optional_text(value, "kid")?;
        Some(Header { alg, typ, kid })
    }

    /// The header that a JSON value is, which was read from the bytes.
    pub(crate) fn read(
        alloc: Global,
        json: &[u8],
        value: &'v Value,
    ) -> Result<Header<'v>, JwtSvidError>
        ensures ok { IfOk result (λ h. header_shape (members_of json.now) (view value.now) ≡ Ok (header_value h)) }
        ensures err { IfErr result (IsRefusal (header_shape (members_of json.now) (view value.now))) }
    {
        if !stand_once(alloc, json, "alg", "typ", "kid")? {
            return Err(JwtSvidError::InvalidJson(JsonError::Shape));
        }
        Header::of(value).ok_or(JwtSvidError::InvalidJson(JsonError::Shape))
    }

    /// The algorithm and the key ID that it names.
    pub(crate) fn key(&self) -> Result<(JwtAlg, &'v str), JwtSvidError>
        ensures { map_ok (λ p. (p.0, p.1.now)) result ≡ key_of (header_value self.now) }
    {
        check_typ(self.typ)?;
        let alg = JwtAlg::parse(self.alg).ok_or(JwtSvidError::UnsupportedAlgorithm)?;
        let kid = self.kid.ok_or(JwtSvidError::MissingKeyId)?;
        Ok((alg, kid))
    }
}

fn check_typ(typ: Option<&str>) -> Result<(), JwtSvidError>
    ensures { result ≡ typ_check (option_map (λ t. t.now) typ.entry) }
{
    match typ {
        None | Some("JWT") | Some("JOSE") => Ok(()),
        Some(_) => Err(JwtSvidError::InvalidTyp),
    }
}
