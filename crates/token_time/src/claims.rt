//! The time `nbf` among claims.
ghost use Rattle.std.specs.Prelude.{◌≡◌, ◌<◌, take, drop, map, count_by, nat_eq, codes, string_bytes, option_map, Some, IfOk, IfErr};
ghost use Rattle.std.specs.List.{find};
ghost use Rattle.spiffe_token.specs.Members.{member_of, members_of};
ghost use Rattle.token_time.specs.Quiet.{is_not_before, begins_number, piece, is_time, quiet_from, quiet, time_at, not_before_in, not_before_of};

use crate::time::nanoseconds;
use spiffe_token::{JwtSvidError, Member, is_once, top_members};
use std::alloc::{AllocError, Global};

const NOT_BEFORE: &str = "nbf";

fn text_from(text: &[u8], from: usize) -> &[u8]
    ensures { result.now ≡ drop from text.now }
{
    match text.get(from..) {
        Some(rest) => rest,
        None => &[],
    }
}

fn text_front(text: &[u8], len: usize) -> &[u8]
    ensures { result.now ≡ take len text.now }
{
    match text.get(..len) {
        Some(front) => front,
        None => text,
    }
}

fn piece(text: &[u8], from: usize, until: usize) -> &[u8]
    ensures { result.now ≡ piece text.now from until }
{
    text_front(text_from(text, from), until.saturating_sub(from))
}

fn begins_number(text: &[u8]) -> bool
    ensures { result ≡ begins_number text.now }
{
    match text {
        [b, ..] => *b == b'-' || b.is_ascii_digit(),
        [] => false,
    }
}

fn is_not_before(member: &Member) -> bool
    ensures { result ≡ is_not_before (member_of member.now) }
{
    member.name.as_str() == NOT_BEFORE
}

fn is_time(text: &[u8], member: &Member) -> bool
    ensures { result ≡ is_time text.now (member_of member.now) }
{
    is_not_before(member) && begins_number(text_from(text, member.start))
}

fn without_times(alloc: Global, text: &[u8], members: &[Member]) -> Result<Vec<u8>, AllocError>
    ensures { IfOk result (λ v. v.items ≡ quiet_from text.now 0 (map member_of members.now)) }
{
    let mut kept = Vec::new(alloc);
    let mut from = 0;
    for member in members {
        if is_time(text, member) {
            kept.extend_from_slice(piece(text, from, member.start))?;
            kept.push(b'0')?;
            from = member.end;
        }
    }
    kept.extend_from_slice(text_from(text, from))?;
    Ok(kept)
}

/// The claims with `0` for each value of a member `nbf` at their top that begins with `-` or a digit.
///
/// A token's `nbf` may be a number that isn't whole (RFC 7519, section 2), which no other member may be. `OutOfMemory` alone refuses it.
#[tactic(auto, unfolding(crate::specs::Quiet::quiet))]
pub fn quiet(alloc: Global, claims: &[u8]) -> Result<Vec<u8>, JwtSvidError>
    ensures ok { IfOk result (λ v. v.items ≡ quiet claims.now) }
    ensures err { IfErr result (λ e. e ≡ JwtSvidError.OutOfMemory) }
{
    match top_members(alloc, claims)? {
        Some(members) => Ok(without_times(alloc, claims, &members)?),
        None => Ok(Vec::from_slice(alloc, claims)?),
    }
}

fn first_place(members: &[Member]) -> Option<&Member>
    ensures { option_map (λ m. member_of m.now) result ≡ find is_not_before (map member_of members.now) }
{
    for member in members {
        if is_not_before(member) {
            return Some(member);
        }
    }
    None
}

fn not_before_in(text: &[u8], members: &[Member]) -> Option<Option<i128>>
    ensures { result ≡ not_before_in text.now (Some (map member_of members.now)) }
{
    if !is_once(members, "nbf") {
        return None;
    }
    match first_place(members) {
        Some(member) => {
            let time = nanoseconds(piece(text, member.start, member.end))?;
            Some(Some(time))
        }
        None => Some(None),
    }
}

/// The time `nbf` of claims in nanoseconds, if they have one. `None` in its place tells that `nbf` stands twice,
/// or that its value isn't a time as [`nanoseconds`] takes it. `OutOfMemory` alone refuses it.
#[tactic(auto, unfolding(crate::specs::Quiet::not_before_of))]
pub fn not_before(alloc: Global, claims: &[u8]) -> Result<Option<Option<i128>>, JwtSvidError>
    ensures ok { IfOk result (λ o. o ≡ not_before_of claims.now) }
    ensures err { IfErr result (λ e. e ≡ JwtSvidError.OutOfMemory) }
{
    match top_members(alloc, claims)? {
        Some(members) => Ok(not_before_in(claims, &members)),
        None => Ok(Some(None)),
    }
}
