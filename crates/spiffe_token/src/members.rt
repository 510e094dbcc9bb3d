//! The members of the one object that a JSON text is.
ghost use Rattle.std.specs.Prelude.{◌≡◌, length, map, option_map, IfOk, IfErr, count_by, nat_eq, string_bytes};
ghost use Rattle.std.specs.Cmp.Lexicographic.{pointwise};
ghost use Rattle.spiffe_token.specs.Header.{is_once};
ghost use Rattle.spiffe_token.specs.RawMembers.{raw_of};
ghost use Rattle.spiffe_token.specs.Members.{text_of, named, all_named, members_of, member_of};

use crate::error::JwtSvidError;
use crate::member_name::resolve;
use crate::raw_members::{RawMember, raw_members};
use std::alloc::{AllocError, Global};

/// A member of an object: its name, and the places in the text where its value begins and ends.
#[derive(Debug, Drop)]
pub struct Member {
    /// The name, with its escapes resolved.
    pub name: String,
    /// How many bytes stand before the value.
    pub start: usize,
    /// How many bytes stand before the end of the value.
    pub end: usize,
}

/// The members of a JSON object (RFC 8259, section 4) in the order of its text, each of them where a name
/// stands more than once.
///
/// `None` tells that the text isn't the form of an object: values are told apart, but not judged. Read the
/// text with `spiffe_json::read_json` for that; of equal names it keeps the last alone.
#[tactic(auto, unfolding(crate::specs::Members::members_of))]
pub fn top_members(alloc: Global, json: &[u8]) -> Result<Option<Vec<Member>>, JwtSvidError>
    ensures ok { IfOk result (λ o. option_map (λ v. map member_of v.items) o ≡ members_of json.now) }
    ensures err { IfErr result (λ e. e ≡ JwtSvidError.OutOfMemory) }
{
    match raw_members(alloc, json)? {
        Some(raws) => Ok(all_named(alloc, &raws)?),
        None => Ok(None),
    }
}

/// Whether a name stands at most once among the members of an object.
pub fn is_once(members: &[Member], name: &str) -> bool
    ensures { result ≡ is_once (map member_of members.now) name.now }
{
    count_named(members, name) < 2
}

fn count_named(members: &[Member], name: &str) -> usize
    ensures { result ≡ count_by (λ m. pointwise nat_eq (string_bytes m.name) name.now) members.now }
{
    members.iter().filter(|m| m.name.as_str() == name).count()
}

fn all_named(alloc: Global, raws: &[RawMember<'_>]) -> Result<Option<Vec<Member>>, AllocError>
    ensures { IfOk result (λ o. option_map (λ v. map member_of v.items) o ≡ all_named (map raw_of raws.now)) }
{
    let mut members = Vec::new(alloc);
    for raw in raws {
        let Some(member) = named(alloc, raw)? else {
            return Ok(None);
        };
        members.push(member)?;
    }
    Ok(Some(members))
}

fn named(alloc: Global, raw: &RawMember<'_>) -> Result<Option<Member>, AllocError>
    ensures { IfOk result (λ o. option_map member_of o ≡ named (raw_of raw.now)) }
{
    let Some(bytes) = resolve(alloc, raw.name)? else {
        return Ok(None);
    };
    let Some(name) = text_of(bytes) else {
        return Ok(None);
    };
    Ok(Some(Member {
        name,
        start: raw.start,
        end: raw.end,
    }))
}

fn text_of(bytes: Vec<u8>) -> Option<String>
    ensures { option_map string_bytes result ≡ text_of bytes.items }
{
    match String::from_utf8(bytes) {
        Ok(text) => Some(text),
        Err(_) => None,
    }
}
