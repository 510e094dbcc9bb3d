//! The members of an object with their names as they are written.
ghost use Rattle.std.specs.Prelude.{◌≡◌, ◌<◌, ◌≤◌, length, map, option_map, IfSome, IfOk};
ghost use Rattle.spiffe_token.specs.RawMembers.{name_part, member_part, what_follows, members_from, inside, raw_members, raw_of, follows_of, IsShorter};

use crate::blanks::{is_at_end, skip_blanks, strip};
use crate::value::{split_string, split_value};
use std::alloc::{AllocError, Global};

/// A member: its name as it is written, and the places where its value begins and ends.
#[derive(Drop)]
pub(crate) struct RawMember<'a> {
    pub(crate) name: &'a [u8],
    pub(crate) start: usize,
    pub(crate) end: usize,
}

#[derive(Drop)]
pub(crate) enum Follows<'a> {
    Another(&'a [u8]),
    End,
    NoObject,
}

// The name at the front, and what is left from the value on.
fn split_name(bytes: &[u8]) -> Option<(&[u8], &[u8])>
    ensures value { option_map (λ p. (p.0.now, p.1.now)) result ≡ name_part bytes.now }
    ensures shorter { IfSome result (λ p. length p.1.now < length bytes.now) }
{
    let rest = strip(bytes, b'"')?;
    let (name, rest) = split_string(rest)?;
    let rest = strip(skip_blanks(rest), b':')?;
    Some((name, skip_blanks(rest)))
}

#[tactic(auto, unfolding(crate::specs::RawMembers::member_part))]
fn split_member(
    alloc: Global,
    total: usize,
    bytes: &[u8],
) -> Result<Option<(RawMember<'_>, &[u8])>, AllocError>
    requires { length bytes.now ≤ total }
    ensures value { IfOk result (λ o. option_map (λ p. (raw_of p.0, p.1.now)) o ≡ member_part total bytes.now) }
    ensures shorter { IfOk result (λ o. IfSome o (λ p. length p.1.now < length bytes.now)) }
{
    let Some((name, value)) = split_name(bytes) else {
        return Ok(None);
    };
    let start = total - value.len();
    let Some((len, rest)) = split_value(alloc, value)? else {
        return Ok(None);
    };
    let end = start + len;
    Ok(Some((RawMember { name, start, end }, rest)))
}

fn what_follows(bytes: &[u8]) -> Follows<'_>
    ensures value { follows_of result ≡ what_follows bytes.now }
    ensures shorter { IsShorter result (length bytes.now) }
{
    match bytes {
        [b',', more @ ..] => Follows::Another(skip_blanks(more)),
        [b'}', more @ ..] if is_at_end(more) => Follows::End,
        _ => Follows::NoObject,
    }
}

fn members_from<'a>(
    alloc: Global,
    total: usize,
    first: &'a [u8],
) -> Result<Option<Vec<RawMember<'a>>>, AllocError>
    requires { length first.now ≤ total }
    ensures { IfOk result (λ o. option_map (λ v. map raw_of v.items) o
        ≡ members_from (length first.now) total first.now) }
{
    let mut found = Vec::new(alloc);
    let mut rest = first;
    'members: loop {
        let front = split_member(alloc, total, rest)?;
        let Some((member, after)) = front else {
            return Ok(None);
        };
        found.push(member)?;
        match what_follows(after) {
            Follows::Another(next) => rest = next,
            Follows::End => return Ok(Some(found)),
            Follows::NoObject => return Ok(None),
        }
    }
}

fn inside<'a>(
    alloc: Global,
    total: usize,
    bytes: &'a [u8],
) -> Result<Option<Vec<RawMember<'a>>>, AllocError>
    requires { length bytes.now ≤ total }
    ensures { IfOk result (λ o. option_map (λ v. map raw_of v.items) o ≡ inside total bytes.now) }
{
    match strip(bytes, b'}') {
        Some(rest) => {
            if is_at_end(rest) {
                return Ok(Some(Vec::new(alloc)));
            }
            Ok(None)
        }
        None => members_from(alloc, total, bytes),
    }
}

pub(crate) fn raw_members<'a>(
    alloc: Global,
    json: &'a [u8],
) -> Result<Option<Vec<RawMember<'a>>>, AllocError>
    ensures { IfOk result (λ o. option_map (λ v. map raw_of v.items) o ≡ raw_members json.now) }
{
    let Some(rest) = strip(skip_blanks(json), b'{') else {
        return Ok(None);
    };
    inside(alloc, json.len(), skip_blanks(rest))
}
