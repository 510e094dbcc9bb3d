//! Claims of tokens.
ghost use Rattle.std.specs.Prelude.{◌≡◌, ◌≤◌, [], ◌∷◌, length, Ok, Some, IfOk, IfErr, IfSome, map, nat_eq, option_map, option_and_then, codes, string_bytes};
ghost use Rattle.std.specs.Cmp.{partial_equiv_from_equiv};
ghost use Rattle.std.specs.Cmp.Lexicographic.{pointwise};
ghost use Rattle.serde_json.specs.Find.{get};
ghost use Rattle.serde_json.specs.View.{view, items_view};
ghost use Rattle.spiffe_token.specs.JwtSvidError.{IsRefusal};
ghost use Rattle.spiffe_token.specs.Members.{members_of};
ghost use Rattle.spiffe_token.specs.Claims.{texts_of, if_few, audience_of, claims_in, claims_shape, claims_eq, claims_equiv};

use crate::error::JwtSvidError;
use crate::header::{stand_once, text_at};
use serde_json::Value;
use spiffe_json::JsonError;
use std::alloc::{AllocError, Global};
use std::marker::Model;

const MAX_AUDIENCES: usize = 32;

/// The claims of a token that every JWT-SVID has (JWT-SVID, section 3). All others are left out.
#[derive(Debug, Drop)]
pub struct Claims {
    sub: String,
    aud: Vec<String>,
    exp: i64,
}

impl Model for Claims {
    ghost use Rattle.std.specs.Prelude.{◌≤◌, length, map, string_bytes};
    ghost use Rattle.spiffe_token.specs.Claims.{ClaimsSet};

    ghost Value = { ClaimsSet };

    ghost view = { λ c. record { sub = string_bytes c.sub; aud = map string_bytes c.aud.items; exp = c.exp } };

    ghost invariant = { λ c. (1 ≤ length c.aud.items) × (length c.aud.items ≤ 32) };
}

impl Claims {
    /// The subject (RFC 7519, section 4.1.2), which is a SPIFFE ID in the claims of a [`crate::JwtSvid`].
    pub fn sub(&self) -> &str
        ensures { result.now ≡ self.now.sub }
    {
        self.sub.as_str()
    }

    /// The audiences (RFC 7519, section 4.1.3) in their order.
    pub fn aud(&self) -> &[String]
        ensures audiences { map string_bytes result.now ≡ self.now.aud }
        ensures some { 1 ≤ length result.now }
        ensures few { length result.now ≤ 32 }
    {
        self.aud.as_slice()
    }

    /// When the token expires (RFC 7519, section 4.1.4), in seconds from 1970-01-01T00:00:00Z on.
    pub fn exp(&self) -> i64
        ensures { result ≡ self.now.exp }
    {
        self.exp
    }

    /// A copy in memory of its own. `OutOfMemory` alone refuses it.
    pub fn try_clone(&self, alloc: Global) -> Result<Self, JwtSvidError>
        ensures ok { IfOk result (λ c. c ≡ self.now) }
        ensures err { IfErr result (λ e. e ≡ JwtSvidError.OutOfMemory) }
    {
        let sub = String::from_str(alloc, self.sub.as_str())?;
        let aud = copy_all(alloc, self.aud.as_slice())?;
        let exp = self.exp;
        Ok(Claims { sub, aud, exp })
    }

    /// The claims that a JSON value is, which was read from the bytes.
    pub(crate) fn read(alloc: Global, json: &[u8], value: &Value) -> Result<Self, JwtSvidError>
        ensures ok { IfOk result (λ c. claims_shape (members_of json.now) (view value.now) ≡ Ok c) }
        ensures err { IfErr result (IsRefusal (claims_shape (members_of json.now) (view value.now))) }
    {
        if !stand_once(alloc, json, "sub", "aud", "exp")? {
            return Err(JwtSvidError::InvalidJson(JsonError::Shape));
        }
        match Claims::of(alloc, value)? {
            Some(claims) => Ok(claims),
            None => Err(JwtSvidError::InvalidJson(JsonError::Shape)),
        }
    }

    fn of(alloc: Global, value: &Value) -> Result<Option<Self>, AllocError>
        ensures { IfOk result (λ o. o ≡ claims_in (view value.now)) }
    {
        let Some(sub) = text_at(value, "sub") else {
            return Ok(None);
        };
        let Some(aud) = audience_at(alloc, value)? else {
            return Ok(None);
        };
        let Some(exp) = value.get("exp").and_then(Value::as_i64) else {
            return Ok(None);
        };
        let sub = String::from_str(alloc, sub)?;
        Ok(Some(Claims { sub, aud, exp }))
    }
}

fn audience_at(alloc: Global, value: &Value) -> Result<Option<Vec<String>>, AllocError>
    ensures value { IfOk result (λ o. option_map (λ v. map string_bytes v.items) o ≡ option_and_then audience_of (get (codes "aud") (view value.now))) }
    ensures count { IfOk result (λ o. IfSome o (λ v. (1 ≤ length v.items) × (length v.items ≤ 32))) }
{
    match value.get("aud") {
        Some(aud) => audience_of(alloc, aud),
        None => Ok(None),
    }
}

fn audience_of(alloc: Global, value: &Value) -> Result<Option<Vec<String>>, AllocError>
    ensures value { IfOk result (λ o. option_map (λ v. map string_bytes v.items) o ≡ audience_of (view value.now)) }
    ensures count { IfOk result (λ o. IfSome o (λ v. (1 ≤ length v.items) × (length v.items ≤ 32))) }
{
    match value {
        Value::String(text) => one_text(alloc, text.as_str()),
        Value::Array(items) => few_texts(alloc, items),
        _ => Ok(None),
    }
}

fn one_text(alloc: Global, text: &str) -> Result<Option<Vec<String>>, AllocError>
    ensures value { IfOk result (λ o. option_map (λ v. map string_bytes v.items) o ≡ Some (text.now ∷ [])) }
    ensures count { IfOk result (λ o. IfSome o (λ v. (1 ≤ length v.items) × (length v.items ≤ 32))) }
{
    let text = String::from_str(alloc, text)?;
    let mut texts = Vec::new(alloc);
    texts.push(text)?;
    Ok(Some(texts))
}

fn few_texts(alloc: Global, items: &[Value]) -> Result<Option<Vec<String>>, AllocError>
    ensures value { IfOk result (λ o. option_map (λ v. map string_bytes v.items) o ≡ option_and_then if_few (texts_of (items_view items.now))) }
    ensures count { IfOk result (λ o. IfSome o (λ v. (1 ≤ length v.items) × (length v.items ≤ 32))) }
{
    match all_texts(alloc, items)? {
        Some(texts) if texts.len() >= 1 && texts.len() <= MAX_AUDIENCES => Ok(Some(texts)),
        _ => Ok(None),
    }
}

fn all_texts(alloc: Global, items: &[Value]) -> Result<Option<Vec<String>>, AllocError>
    ensures { IfOk result (λ o. option_map (λ v. map string_bytes v.items) o ≡ texts_of (items_view items.now)) }
{
    let mut texts = Vec::new(alloc);
    for item in items {
        let Some(text) = item.as_str() else {
            return Ok(None);
        };
        let text = String::from_str(alloc, text)?;
        texts.push(text)?;
    }
    Ok(Some(texts))
}

fn copy_all(alloc: Global, texts: &[String]) -> Result<Vec<String>, AllocError>
    ensures { IfOk result (λ v. map string_bytes v.items ≡ map string_bytes texts.now) }
{
    let mut copies = Vec::new(alloc);
    for text in texts {
        let copy = String::from_str(alloc, text.as_str())?;
        copies.push(copy)?;
    }
    Ok(copies)
}

fn same_texts(a: &[String], b: &[String]) -> bool
    ensures { result ≡ pointwise (pointwise nat_eq) (map string_bytes a.now) (map string_bytes b.now) }
{
    a == b
}

impl PartialEq for Claims {
    ghost eq = { claims_eq };

    ghost laws = { partial_equiv_from_equiv claims_equiv };

    fn eq(&self, other: &Self) -> bool {
        self.sub == other.sub
            && same_texts(self.aud.as_slice(), other.aud.as_slice())
            && self.exp == other.exp
    }
}

impl Eq for Claims {
    ghost laws = { claims_equiv };
}
