//! The path of a SPIFFE ID and its segments.
ghost use Rattle.std.specs.Prelude.{◌≡◌, ◌+◌, ◌^◌, ◌<◌, ◌≤◌, Ok, IfOk, IfSome, map, length, nat_le, string_bytes};
ghost use Rattle.std.specs.List.{slice_split, position, before_first};
ghost use Rattle.spiffe_id.specs.TrustDomain.{is_slash};
ghost use Rattle.spiffe_id.specs.Path.{segment_check, path_segments_check, path_check, segments_check, joined};
ghost use Rattle.spiffe_id.specs.SpiffeId.{path_from};

use crate::error::SpiffeIdError;
use crate::trust_domain::are_name_bytes;
use std::alloc::{AllocError, Global};

fn find_slash(bytes: &[u8]) -> Option<usize>
    ensures first { result ≡ position is_slash bytes.now }
    ensures room { IfSome result (λ i. i + 1 < 2 ^ 64) }
{
    bytes.iter().position(|b| *b == b'/')
}

// What stands before the path, and the path.
pub(crate) fn split_path(rest: &str) -> (&str, &str)
    ensures before { result.0.now ≡ before_first is_slash rest.now }
    ensures path { result.1.now ≡ path_from rest.now }
{
    match find_slash(rest.as_bytes()) {
        Some(end) => rest.split_at(end),
        None => (rest, ""),
    }
}

fn validate_segment(segment: &[u8], if_empty: SpiffeIdError) -> Result<(), SpiffeIdError>
    ensures { result ≡ segment_check if_empty segment.now }
{
    if segment.is_empty() {
        return Err(if_empty);
    }
    if segment == b".".as_slice() || segment == b"..".as_slice() {
        return Err(SpiffeIdError::DotSegment);
    }
    if !are_name_bytes(segment) {
        return Err(SpiffeIdError::BadPathSegmentChar);
    }
    Ok(())
}

fn validate_path_segments(segments: &[u8]) -> Result<(), SpiffeIdError>
    ensures { result ≡ path_segments_check (slice_split is_slash segments.now) }
{
    let mut rest = segments;
    'segments: while let Some(end) = find_slash(rest) {
        validate_segment(&rest[..end], SpiffeIdError::EmptySegment)?;
        rest = &rest[end + 1..];
    }
    validate_segment(rest, SpiffeIdError::TrailingSlash)
}

pub(crate) fn validate_path(path: &[u8]) -> Result<(), SpiffeIdError>
    ensures { result ≡ path_check path.now }
{
    match path {
        [] => Ok(()),
        [_, segments @ ..] => validate_path_segments(segments),
    }
}

// A slash is no character of a segment, so a segment never hides two.
pub(crate) fn validate_segments(segments: &[String]) -> Result<(), SpiffeIdError>
    ensures { result ≡ segments_check (map string_bytes segments.now) }
{
    for segment in segments {
        validate_segment(segment.as_bytes(), SpiffeIdError::EmptySegment)?;
    }
    Ok(())
}

// Whether the path of the segments takes at most `room` bytes.
pub(crate) fn joined_fits(segments: &[String], room: usize) -> bool
    requires { room ≤ 2048 }
    ensures { result ≡ nat_le (length (joined (map string_bytes segments.now))) room }
{
    let mut left = room;
    for segment in segments {
        if segment.len() >= left {
            return false;
        }
        left -= segment.len() + 1;
    }
    true
}

pub(crate) fn joined(alloc: Global, segments: &[String]) -> Result<String, AllocError>
    ensures { IfOk result (λ s. string_bytes s ≡ joined (map string_bytes segments.now)) }
{
    let mut path = String::new(alloc);
    for segment in segments {
        path.push('/')?;
        path.push_str(segment.as_str())?;
    }
    Ok(path)
}
