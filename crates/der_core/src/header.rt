//! The header of a value.
ghost use Rattle.std.specs.Prelude.{◌≡◌, ◌∷◌, [], MatchOption, option_map};
ghost use Rattle.der_core.specs.Header.{read_tag, read_length, one_byte, two_bytes, three_bytes, four_bytes};
ghost use Rattle.der_core.specs.Tag.{byte_of};

use crate::Tag;

/// The first byte, and what follows it.
pub(crate) fn first_byte(bytes: &[u8]) -> Option<(u8, &[u8])>
    ensures { MatchOption result (bytes.now ≡ []) (λ p. bytes.now ≡ p.0 ∷ p.1.now) }
{
    if bytes.is_empty() {
        None
    } else {
        Some((bytes[0], &bytes[1..]))
    }
}

/// The tag at the front, and what follows it.
pub(crate) fn tag_at(bytes: &[u8]) -> Option<(Tag, &[u8])>
    ensures { option_map (λ found. (byte_of found.0, found.1.now)) result ≡ read_tag bytes.now }
{
    let (first, rest) = first_byte(bytes)?;
    let tag = Tag::new(first)?;
    Some((tag, rest))
}

/// The length at the front, and what follows it.
pub(crate) fn length_at(bytes: &[u8]) -> Option<(u32, &[u8])>
    ensures { option_map (λ found. (found.0, found.1.now)) result ≡ read_length bytes.now }
{
    let (first, rest) = first_byte(bytes)?;
    if first < 128 {
        Some((u32::from(first), rest))
    } else if first == 129 {
        of_one(rest)
    } else if first == 130 {
        of_two(rest)
    } else if first == 131 {
        of_three(rest)
    } else if first == 132 {
        of_four(rest)
    } else {
        None
    }
}

fn of_one(bytes: &[u8]) -> Option<(u32, &[u8])>
    ensures { option_map (λ found. (found.0, found.1.now)) result ≡ one_byte bytes.now }
{
    let (a, rest) = first_byte(bytes)?;
    if a < 128 {
        return None;
    }
    Some((u32::from(a), rest))
}

fn of_two(bytes: &[u8]) -> Option<(u32, &[u8])>
    ensures { option_map (λ found. (found.0, found.1.now)) result ≡ two_bytes bytes.now }
{
    let (a, rest) = first_byte(bytes)?;
    let (b, rest) = first_byte(rest)?;
    if a == 0 {
        return None;
    }
    Some((u32::from(a) * 256 + u32::from(b), rest))
}

fn of_three(bytes: &[u8]) -> Option<(u32, &[u8])>
    ensures { option_map (λ found. (found.0, found.1.now)) result ≡ three_bytes bytes.now }
{
    let (a, rest) = first_byte(bytes)?;
    let (b, rest) = first_byte(rest)?;
    let (c, rest) = first_byte(rest)?;
    if a == 0 {
        return None;
    }
    Some((
        u32::from(a) * 65536 + u32::from(b) * 256 + u32::from(c),
        rest,
    ))
}

fn of_four(bytes: &[u8]) -> Option<(u32, &[u8])>
    ensures { option_map (λ found. (found.0, found.1.now)) result ≡ four_bytes bytes.now }
{
    let (a, rest) = first_byte(bytes)?;
    let (b, rest) = first_byte(rest)?;
    let (c, rest) = first_byte(rest)?;
    let (d, rest) = first_byte(rest)?;
    if a == 0 {
        return None;
    }
    Some((
        u32::from(a) * 16777216 + u32::from(b) * 65536 + u32::from(c) * 256 + u32::from(d),
        rest,
    ))
}
