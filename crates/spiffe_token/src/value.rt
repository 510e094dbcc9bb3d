//! Where the strings and values of an object's members end.
ghost use Rattle.std.specs.Prelude.{◌≡◌, ◌<◌, ◌≤◌, [], length, reverse, Some, None, IfSome, IfOk, option_map, if◌then◌else◌};
ghost use Rattle.spiffe_token.specs.Strings.{place_after, ends_string, string_from, string_part};
ghost use Rattle.spiffe_token.specs.Values.{is_same, closed, open_after, nested, ends_value, value_from, value_part};

use crate::blanks::kept_len;
use std::alloc::{AllocError, Global};

/// A kind of brackets.
#[derive(Clone, Copy)]
pub(crate) enum Bracket {
    Square,
    Curly,
}

/// Whether a byte stands in a string, and there behind a backslash that escapes it.
#[derive(Clone, Copy)]
pub(crate) enum Place {
    Outside,
    Quoted,
    Escaped,
}

impl Place {
    fn after(self, byte: u8) -> Place
        ensures { result ≡ place_after self byte }
    {
        match self {
            Place::Outside if byte == b'"' => Place::Quoted,
            Place::Outside => Place::Outside,
            Place::Quoted if byte == b'"' => Place::Outside,
            Place::Quoted if byte == b'\\' => Place::Escaped,
            Place::Quoted | Place::Escaped => Place::Quoted,
        }
    }

    fn ends_string(self, byte: u8) -> bool
        ensures { result ≡ ends_string self byte }
    {
        matches!(self, Place::Quoted) && byte == b'"'
    }
}

impl Bracket {
    fn is_same(self, other: Bracket) -> bool
        ensures { result ≡ is_same self other }
    {
        match (self, other) {
            (Bracket::Square, Bracket::Square) | (Bracket::Curly, Bracket::Curly) => true,
            _ => false,
        }
    }
}

fn string_len(bytes: &[u8]) -> Option<usize>
    ensures value { result ≡ string_from Place.Quoted bytes.now }
    ensures within { IfSome result (λ n. n < length bytes.now) }
{
    let mut place = Place::Quoted;
    for (i, b) in bytes.iter().enumerate() {
        if place.ends_string(*b) {
            return Some(i);
        }
        place = place.after(*b);
    }
    None
}

// A string behind its opening quote, and what follows its closing quote.
pub(crate) fn split_string(bytes: &[u8]) -> Option<(&[u8], &[u8])>
    ensures value { option_map (λ p. (p.0.now, p.1.now)) result ≡ string_part bytes.now }
    ensures shorter { IfSome result (λ p. length p.1.now < length bytes.now) }
{
    let n = string_len(bytes)?;
    let (content, rest) = bytes.split_at(n);
    Some((content, &rest[1..]))
}

// Closes the innermost open bracket, or answers that it isn't of this kind.
fn close(brackets: &mut Vec<Bracket>, kind: Bracket) -> bool
    ensures { closed kind (reverse brackets.old.items) ≡ (if result then Some (reverse brackets.new.items) else None) }
{
    match brackets.pop() {
        Some(innermost) => kind.is_same(innermost),
        None => false,
    }
}

// Opens or closes the bracket that the byte may be, or answers that it closes none.
fn nest(brackets: &mut Vec<Bracket>, byte: u8) -> Result<bool, AllocError>
    ensures { IfOk result (λ nests. open_after (reverse brackets.old.items) byte
        ≡ (if nests then Some (reverse brackets.new.items) else None)) }
{
    match byte {
        b'[' => brackets.push(Bracket::Square)?,
        b'{' => brackets.push(Bracket::Curly)?,
        b']' => return Ok(close(brackets, Bracket::Square)),
        b'}' => return Ok(close(brackets, Bracket::Curly)),
        _ => {}
    }
    Ok(true)
}

fn nest_at(brackets: &mut Vec<Bracket>, place: Place, byte: u8) -> Result<bool, AllocError>
    ensures { IfOk result (λ nests. nested (reverse brackets.old.items) place byte
        ≡ (if nests then Some (reverse brackets.new.items) else None)) }
{
    match place {
        Place::Outside => nest(brackets, byte),
        Place::Quoted | Place::Escaped => Ok(true),
    }
}

fn ends_value(brackets: &[Bracket], place: Place, byte: u8) -> bool
    ensures { result ≡ ends_value (reverse brackets.now) place byte }
{
    match place {
        Place::Outside => brackets.is_empty() && (byte == b',' || byte == b'}'),
        Place::Quoted | Place::Escaped => false,
    }
}

fn value_len(alloc: Global, bytes: &[u8]) -> Result<Option<usize>, AllocError>
    ensures value { IfOk result (λ o. o ≡ value_from [] Place.Outside bytes.now) }
    ensures within { IfOk result (λ o. IfSome o (λ n. n < length bytes.now)) }
{
    let mut brackets = Vec::new(alloc);
    let mut place = Place::Outside;
    for (i, b) in bytes.iter().enumerate() {
        if ends_value(&brackets, place, *b) {
            return Ok(Some(i));
        }
        if !nest_at(&mut brackets, place, *b)? {
            return Ok(None);
        }
        place = place.after(*b);
    }
    Ok(None)
}

// The length of the value at the front without the blanks at its end, and what is left from the byte that ends it.
pub(crate) fn split_value(alloc: Global, bytes: &[u8]) -> Result<Option<(usize, &[u8])>, AllocError>
    ensures value { IfOk result (λ o. option_map (λ p. (p.0, p.1.now)) o ≡ value_part bytes.now) }
    ensures within { IfOk result (λ o. IfSome o (λ p. p.0 ≤ length bytes.now)) }
    ensures shorter { IfOk result (λ o. IfSome o (λ p. length p.1.now ≤ length bytes.now)) }
{
    let Some(n) = value_len(alloc, bytes)? else {
        return Ok(None);
    };
    let kept = kept_len(&bytes[..n]);
    if kept == 0 {
        return Ok(None);
    }
    Ok(Some((kept, &bytes[n..])))
}
