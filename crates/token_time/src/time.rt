//! Nanoseconds.
ghost use Rattle.std.specs.Prelude.{◌≡◌, ◌+◌, ◌-◌, ◌≤◌, ℤ, length, take, drop, option_map, ◌++◌};
ghost use Rattle.std.specs.Str.Parse.{digits_value, AllDigits};
ghost use Rattle.token_time.specs.Decimal.{capped};
ghost use Rattle.token_time.specs.Nanoseconds.{raised, lowered, whole_quotient, magnitude_of, nanoseconds_in, nanoseconds_of, signed, if_in_years};
ghost use Rattle.token_time.specs.Views.{number_value, HasDigits};

use crate::decimal::{CAP, are_zeros, capped_product, capped_value};
use crate::number::{Number, number_of};

// From the start of the year -9999 to the end of the year 9999, in nanoseconds.
const MIN_TIME: i128 = -377_705_116_800_000_000_000;

const MAX_TIME: i128 = 253_402_300_799_999_999_999;

// The digits without so many at their end, and these. Where there are fewer, all of them are at the end.
fn split_end(digits: &[u8], count: u128) -> (&[u8], &[u8])
    ensures front { result.0.now ≡ take (length digits.now - count) digits.now }
    ensures back { result.1.now ≡ drop (length digits.now - count) digits.now }
{
    let kept = (digits.len() as u128).saturating_sub(count) as usize;
    digits.split_at(kept)
}

// The number that the digits write without so many at their end, which must be zeros.
fn without_zeros(whole: &[u8], fraction: &[u8], zeros: u128) -> Option<u128>
    requires whole { AllDigits 10 whole.now }
    requires fraction { AllDigits 10 fraction.now }
    ensures { result ≡ option_map capped (whole_quotient (digits_value 10 (whole.now ++ fraction.now)) 0 zeros) }
{
    let whole_zeros = zeros.saturating_sub(fraction.len() as u128);
    let (whole, whole_end) = split_end(whole, whole_zeros);
    let (fraction, fraction_end) = split_end(fraction, zeros);
    if are_zeros(whole_end, fraction_end) {
        return Some(capped_value(capped_value(0, whole), fraction));
    }
    None
}

// The number's absolute value in nanoseconds, up to the cap.
fn capped_magnitude(number: &Number<'_>) -> Option<u128>
    requires { HasDigits number.now }
    ensures { result ≡ option_map capped (magnitude_of (number_value number.now)) }
{
    let up = number.exponent.raised() + 9;
    let down = number.exponent.lowered() + number.fraction.len() as u128;
    if up < down {
        return without_zeros(number.whole, number.fraction, down - up);
    }
    let value = capped_value(capped_value(0, number.whole), number.fraction);
    Some(capped_product(value, up - down))
}

fn time_of(negative: bool, magnitude: u128) -> Option<i128>
    requires { magnitude ≤ CAP }
    ensures { result ≡ if_in_years (signed negative magnitude) }
{
    let magnitude = magnitude as i128;
    let time = if negative { -magnitude } else { magnitude };
    if time < MIN_TIME || time > MAX_TIME {
        return None;
    }
    Some(time)
}

/// The nanoseconds from 1970-01-01T00:00:00Z on that a JSON number of seconds writes, exactly.
///
/// There are none where the text is no number, its exponent isn't from -2^31 to 2^31-1, the time isn't a
/// whole number of nanoseconds, or isn't in the years -9999 to 9999. A great exponent costs no time.
#[tactic(auto, unfolding(crate::specs::Nanoseconds::nanoseconds_of))]
pub fn nanoseconds(text: &[u8]) -> Option<i128>
    ensures { result ≡ nanoseconds_of text.now }
{
    let number = number_of(text)?;
    let magnitude = capped_magnitude(&number)?;
    time_of(number.negative, magnitude)
}
