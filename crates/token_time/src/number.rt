//! JSON numbers, taken apart.
ghost use Rattle.std.specs.Prelude.{◌≡◌, ◌≤◌, ◌<◌, length, option_map, IfSome};
ghost use Rattle.std.specs.List.{prefix_len, list_all};
ghost use Rattle.std.specs.Char.{is_ascii_digit};
ghost use Rattle.std.specs.Str.Parse.{AllDigits};
ghost use Rattle.token_time.specs.Number.{digits_front, digits_part, whole_part, fraction_part, exponent_of, signed_exponent, exponent_part, unsigned_number};
ghost use Rattle.token_time.specs.Number.{number_of};
ghost use Rattle.token_time.specs.Views.{exponent_value, number_value, HasDigits};

use crate::decimal::capped_value;

const MAX_LOWERED: u128 = 2_147_483_648;

const MAX_RAISED: u128 = 2_147_483_647;

/// The exponent of a number, from -2^31 to 2^31-1.
#[derive(Clone, Copy)]
pub(crate) struct Exponent {
    pub(crate) negative: bool,
    pub(crate) magnitude: u32,
}

impl Exponent {
    ghost use Rattle.token_time.specs.Nanoseconds.{raised, lowered};

    /// The power of ten that the number's digits are multiplied by.
    pub(crate) fn raised(self) -> u128
        ensures value { result ≡ raised (exponent_value self) }
        ensures small { result < 4294967296 }
    {
        if self.negative {
            0
        } else {
            u128::from(self.magnitude)
        }
    }

    /// The power of ten that they are divided by.
    pub(crate) fn lowered(self) -> u128
        ensures value { result ≡ lowered (exponent_value self) }
        ensures small { result < 4294967296 }
    {
        if self.negative {
            u128::from(self.magnitude)
        } else {
            0
        }
    }
}

/// A number as its text writes it.
#[derive(Drop)]
pub(crate) struct Number<'t> {
    pub(crate) negative: bool,
    pub(crate) whole: &'t [u8],
    pub(crate) fraction: &'t [u8],
    pub(crate) exponent: Exponent,
}

fn digits_len(text: &[u8]) -> usize
    ensures len { result ≡ prefix_len is_ascii_digit text.now }
    ensures within { result ≤ length text.now }
{
    text.iter().take_while(|b| b.is_ascii_digit()).count()
}

fn split_digits(text: &[u8]) -> Option<(&[u8], &[u8])>
    ensures value { option_map (λ p. (p.0.now, p.1.now)) result ≡ digits_part text.now }
    ensures digits { IfSome result (λ p. AllDigits 10 p.0.now) }
{
    let len = digits_len(text);
    if len == 0 {
        return None;
    }
    Some(text.split_at(len))
}

fn split_whole(text: &[u8]) -> Option<(&[u8], &[u8])>
    ensures value { option_map (λ p. (p.0.now, p.1.now)) result ≡ whole_part text.now }
    ensures digits { IfSome result (λ p. AllDigits 10 p.0.now) }
{
    match text {
        [] => None,
        [b'0', ..] => Some(text.split_at(1)),
        _ => split_digits(text),
    }
}

fn split_fraction(text: &[u8]) -> Option<(&[u8], &[u8])>
    ensures value { option_map (λ p. (p.0.now, p.1.now)) result ≡ fraction_part text.now }
    ensures digits { IfSome result (λ p. AllDigits 10 p.0.now) }
{
    match text {
        [b'.', rest @ ..] => split_digits(rest),
        _ => Some((&[], text)),
    }
}

fn are_digits(bytes: &[u8]) -> bool
    ensures { result ≡ list_all is_ascii_digit bytes.now }
{
    bytes.iter().all(|b| b.is_ascii_digit())
}

fn exponent_of(negative: bool, digits: &[u8]) -> Option<Exponent>
    ensures { option_map exponent_value result ≡ exponent_of negative digits.now }
{
    if digits.is_empty() || !are_digits(digits) {
        return None;
    }
    let magnitude = capped_value(0, digits);
    let limit = if negative { MAX_LOWERED } else { MAX_RAISED };
    if magnitude > limit {
        return None;
    }
    Some(Exponent {
        negative,
        magnitude: magnitude as u32,
    })
}

fn signed_exponent(text: &[u8]) -> Option<Exponent>
    ensures { option_map exponent_value result ≡ signed_exponent text.now }
{
    match text {
        [] => None,
        [b'-', digits @ ..] => exponent_of(true, digits),
        [b'+', digits @ ..] => exponent_of(false, digits),
        _ => exponent_of(false, text),
    }
}

fn exponent_part(text: &[u8]) -> Option<Exponent>
    ensures { option_map exponent_value result ≡ exponent_part text.now }
{
    match text {
        [] => Some(Exponent {
            negative: false,
            magnitude: 0,
        }),
        [b'e' | b'E', rest @ ..] => signed_exponent(rest),
        _ => None,
    }
}

fn unsigned_number(negative: bool, text: &[u8]) -> Option<Number<'_>>
    ensures value { option_map number_value result ≡ unsigned_number negative text.now }
    ensures digits { IfSome result HasDigits }
{
    let (whole, rest) = split_whole(text)?;
    let (fraction, rest) = split_fraction(rest)?;
    let exponent = exponent_part(rest)?;
    Some(Number {
        negative,
        whole,
        fraction,
        exponent,
    })
}

/// The number that a text writes, where its exponent is in range.
pub(crate) fn number_of(text: &[u8]) -> Option<Number<'_>>
    ensures value { option_map number_value result ≡ number_of text.now }
    ensures digits { IfSome result HasDigits }
{
    match text {
        [] => None,
        [b'-', rest @ ..] => unsigned_number(true, rest),
        _ => unsigned_number(false, text),
    }
}
