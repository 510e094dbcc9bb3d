//! Names of members, with their escapes resolved.
ghost use Rattle.std.specs.Prelude.{◌≡◌, ◌<◌, ◌≤◌, ◌++◌, ℕ, List, length, option_map, Some, None, IfSome, IfOk, MatchOption};
ghost use Rattle.spiffe_token.specs.MemberNames.{hex, hex4, is_high, is_low, low_half, unicode, short, escape, unit, resolve};

use crate::blanks::strip;
use std::alloc::{AllocError, Global};

fn hex(b: u8) -> Option<u32>
    ensures value { result ≡ hex b }
    ensures small { IfSome result (λ d. d < 16) }
{
    (b as char).to_digit(16)
}

fn hex4(bytes: &[u8]) -> Option<(u32, &[u8])>
    ensures value { option_map (λ p. (p.0, p.1.now)) result ≡ hex4 bytes.now }
    ensures small { IfSome result (λ p. p.0 < 65536) }
    ensures shorter { IfSome result (λ p. length p.1.now < length bytes.now) }
{
    match bytes {
        [a, b, c, d, rest @ ..] => {
            let a = hex(*a)?;
            let b = hex(*b)?;
            let c = hex(*c)?;
            let d = hex(*d)?;
            Some((((a * 16 + b) * 16 + c) * 16 + d, rest))
        }
        _ => None,
    }
}

fn low_half(high: u32, bytes: &[u8]) -> Option<(char, &[u8])>
    requires above { 55296 ≤ high }
    requires below { high < 56320 }
    ensures value { option_map (λ p. (p.0, p.1.now)) result ≡ low_half high bytes.now }
    ensures shorter { IfSome result (λ p. length p.1.now < length bytes.now) }
{
    let rest = strip(bytes, b'\\')?;
    let rest = strip(rest, b'u')?;
    let (low, rest) = hex4(rest)?;
    if low < 0xdc00 || low >= 0xe000 {
        return None;
    }
    let c = char::from_u32(0x10000 + (high - 0xd800) * 1024 + (low - 0xdc00))?;
    Some((c, rest))
}

fn unicode(bytes: &[u8]) -> Option<(char, &[u8])>
    ensures value { option_map (λ p. (p.0, p.1.now)) result ≡ unicode bytes.now }
    ensures shorter { IfSome result (λ p. length p.1.now < length bytes.now) }
{
    let (unit, rest) = hex4(bytes)?;
    if unit >= 0xd800 && unit < 0xdc00 {
        return low_half(unit, rest);
    }
    let c = char::from_u32(unit)?;
    Some((c, rest))
}

fn short(b: u8) -> Option<char>
    ensures { result ≡ short b }
{
    match b {
        b'"' | b'\\' | b'/' => Some(b as char),
        b'b' => Some('\u{8}'),
        b'f' => Some('\u{c}'),
        b'n' => Some('\n'),
        b'r' => Some('\r'),
        b't' => Some('\t'),
        _ => None,
    }
}

fn escape(bytes: &[u8]) -> Option<(char, &[u8])>
    ensures value { option_map (λ p. (p.0, p.1.now)) result ≡ escape bytes.now }
    ensures shorter { IfSome result (λ p. length p.1.now < length bytes.now) }
{
    match bytes {
        [] => None,
        [b'u', rest @ ..] => unicode(rest),
        [b, rest @ ..] => {
            let c = short(*b)?;
            Some((c, rest))
        }
    }
}

// Adds what the first byte or escape stands for, and gives what follows it.
fn push_unit<'a>(out: &mut Vec<u8>, bytes: &'a [u8]) -> Result<Option<&'a [u8]>, AllocError>
    ensures { IfOk result (λ o. MatchOption o (unit bytes.now ≡ None)
        (λ r. (length r.now < length bytes.now) × ((u : List ℕ) × (unit bytes.now ≡ Some (u, r.now))
        × (out.new.items ≡ out.old.items ++ u)))) }
{
    let [first, more @ ..] = bytes else {
        return Ok(None);
    };
    if *first != b'\\' {
        out.push(*first)?;
        return Ok(Some(more));
    }
    let Some((c, rest)) = escape(more) else {
        return Ok(None);
    };
    let mut buffer = [0u8; 4];
    let encoded = c.encode_utf8(&mut buffer);
    out.extend_from_slice(encoded.as_bytes())?;
    Ok(Some(rest))
}

// The name, or none where it has an escape that JSON has not.
pub(crate) fn resolve(alloc: Global, content: &[u8]) -> Result<Option<Vec<u8>>, AllocError>
    ensures { IfOk result (λ o. option_map (λ v. v.items) o ≡ resolve (length content.now) content.now) }
{
    let mut out = Vec::new(alloc);
    let mut rest = content;
    'units: while !rest.is_empty() {
        match push_unit(&mut out, rest)? {
            Some(next) => rest = next,
            None => return Ok(None),
        }
    }
    Ok(Some(out))
}
