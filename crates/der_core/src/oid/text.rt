//! Reading the text of an object identifier.
ghost use Rattle.std.specs.Prelude.{◌≡◌, ◌++◌, ◌∷◌, [], ◌+◌, ◌-◌, ◌*◌, ◌/◌, ◌<◌, ◌≤◌, ◌^◌, ℕ, List, length, min, take, IfSome, IfNone};
ghost use Rattle.std.specs.Bool.{OnTrue, OnFalse};
ghost use Rattle.std.specs.Fmt.{decimal};
ghost use Rattle.der_core.specs.Oid.{IsOidContent, EndsDigits, oid_text, subidentifier_bytes, first_arc, second_arc};

use crate::header::first_byte;
use arrayvec::ArrayVec;

/// The content that a text stands for.
pub(crate) fn content_of(text: &[u8]) -> Option<Content>
    ensures found { IfSome result (λ content. IsOidContent content.items) }
    ensures text { IfSome result (λ content. oid_text content.items ≡ text.now) }
    ensures none { IfNone result ((content : List ℕ) → IsOidContent content → oid_text content ≡ text.now → ⊥) }
{
    let (first, rest) = number_at(text)?;
    let (second, mut rest) = next_number(rest)?;
    let mut content = Content::new();
    if !push(&mut content, joined(first, second)?) {
        return None;
    }
    while !rest.is_empty() {
        let (number, after) = next_number(rest)?;
        if !push(&mut content, number) {
            return None;
        }
        rest = after;
    }
    Some(content)
}

/// The decimal number at the front, without leading zeros, and what follows it.
fn number_at(text: &[u8]) -> Option<(u32, &[u8])>
    ensures found { IfSome result (λ found. text.now ≡ decimal found.0 ++ found.1.now) }
    ensures small { IfSome result (λ found. found.0 < 2 ^ 32) }
    ensures ended { IfSome result (λ found. EndsDigits found.1.now) }
    ensures none { IfNone result ((n : ℕ) (rest : List ℕ) → n < 2 ^ 32 → EndsDigits rest → text.now ≡ decimal n ++ rest → ⊥) }
{
    if text.is_empty() || !is_digit(text[0]) {
        return None;
    }
    if text[0] == b'0' {
        return if text.len() > 1 && is_digit(text[1]) {
            None
        } else {
            Some((0, &text[1..]))
        };
    }
    let mut number: u64 = 0;
    for (i, byte) in text.iter().enumerate() {
        if !is_digit(*byte) {
            return Some((number as u32, &text[i..]));
        }
        number = number * 10 + u64::from(*byte - b'0');
        if number >= 0x1_0000_0000 {
            return None;
        }
    }
    Some((number as u32, &text[text.len()..]))
}

fn is_digit(byte: u8) -> bool
    ensures digit { OnTrue result ((48 ≤ byte) × (byte ≤ 57)) }
    ensures other { OnFalse result (48 ≤ byte → byte ≤ 57 → ⊥) }
{
    byte >= b'0' && byte <= b'9'
}

/// The number behind a dot, and what follows it.
fn next_number(text: &[u8]) -> Option<(u32, &[u8])>
    ensures found { IfSome result (λ found. text.now ≡ 46 ∷ (decimal found.0 ++ found.1.now)) }
    ensures small { IfSome result (λ found. found.0 < 2 ^ 32) }
    ensures ended { IfSome result (λ found. EndsDigits found.1.now) }
    ensures none { IfNone result ((n : ℕ) (rest : List ℕ) → n < 2 ^ 32 → EndsDigits rest → text.now ≡ 46 ∷ (decimal n ++ rest) → ⊥) }
{
    match first_byte(text) {
        Some((b'.', rest)) => number_at(rest),
        _ => None,
    }
}

/// The first subidentifier, of the first two arcs.
fn joined(first: u32, second: u32) -> Option<u32>
    ensures first { IfSome result (λ n. first ≡ first_arc n) }
    ensures second { IfSome result (λ n. second ≡ second_arc n) }
    ensures small { IfSome result (λ n. n < 2 ^ 32) }
    ensures none { IfNone result ((n : ℕ) → n < 2 ^ 32 → first ≡ first_arc n → second ≡ second_arc n → ⊥) }
{
    if first > 2 || (first < 2 && second >= 40) {
        return None;
    }
    (first * 40).checked_add(second)
}

/// A content in the making: at most 39 bytes.
pub(crate) type Content = ArrayVec<u8, 39>;

/// Adds a subidentifier, where there is room.
fn push(content: &mut Content, n: u32) -> bool
    ensures pushed { OnTrue result (content.new.items ≡ content.old.items ++ subidentifier_bytes n) }
    ensures room { OnTrue result (length content.new.items ≤ 39) }
    ensures full { OnFalse result (39 < length content.old.items + length (subidentifier_bytes n)) }
{
    let (bytes, count) = spelling(n);
    content.try_extend_from_slice(&bytes[..count]).is_ok()
}

/// A subidentifier in the fewest bytes, which are the first of the array, and how many they are.
#[tactic(auto, using(crate::proofs::Subidentifiers::spelling_1, crate::proofs::Subidentifiers::spelling_2, crate::proofs::Subidentifiers::spelling_3, crate::proofs::Subidentifiers::spelling_4, crate::proofs::Subidentifiers::spelling_5))]
fn spelling(n: u32) -> ([u8; 5], usize)
    ensures bytes { take result.1 result.0 ≡ subidentifier_bytes n }
    ensures len { result.1 ≤ 5 }
{
    let a = (n / 268435456) as u8;
    let b = (n / 2097152 % 128) as u8;
    let c = (n / 16384 % 128) as u8;
    let d = (n / 128 % 128) as u8;
    let e = (n % 128) as u8;
    if n < 128 {
        ([e, 0, 0, 0, 0], 1)
    } else if n < 16384 {
        ([128 + d, e, 0, 0, 0], 2)
    } else if n < 2097152 {
        ([128 + c, 128 + d, e, 0, 0], 3)
    } else if n < 268435456 {
        ([128 + b, 128 + c, 128 + d, e, 0], 4)
    } else {
        ([128 + a, 128 + b, 128 + c, 128 + d, e], 5)
    }
}
