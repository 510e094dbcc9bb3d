//! Values of digits, told apart up to a cap that is above every time.
ghost use Rattle.std.specs.Prelude.{◌≡◌, ◌≤◌, ◌<◌, ◌*◌, ◌^◌, ◌+◌, ◌&&◌};
ghost use Rattle.std.specs.Char.{digit_value};
ghost use Rattle.std.specs.Str.Parse.{AllDigits, digits_value_after};
ghost use Rattle.token_time.specs.Decimal.{capped, all_zeros};

/// 10^21, which is more than the nanoseconds of any time.
pub(crate) const CAP: u128 = 1_000_000_000_000_000_000_000;

// So many zeros behind any digit but 0 make a number of at least the cap.
const CAP_ZEROS: u128 = 21;

fn digit_of(byte: u8) -> u128
    requires { digit_value byte < 10 }
    ensures { result ≡ digit_value byte }
{
    u128::from(byte - b'0')
}

// The digit behind the others.
fn append_digit(value: u128, byte: u8) -> u128
    requires small { value ≤ CAP }
    requires digit { digit_value byte < 10 }
    ensures { result ≡ capped (value * 10 + digit_value byte) }
{
    (value * 10 + digit_of(byte)).min(CAP)
}

/// The value of the digits behind those of a value, up to the cap.
pub(crate) fn capped_value(value: u128, digits: &[u8]) -> u128
    requires small { value ≤ CAP }
    requires digits { AllDigits 10 digits.now }
    ensures { result ≡ capped (digits_value_after 10 value digits.now) }
{
    let mut so_far = value;
    for b in digits {
        so_far = append_digit(so_far, *b);
    }
    so_far
}

/// The value times a power of ten, up to the cap.
pub(crate) fn capped_product(value: u128, zeros: u128) -> u128
    requires { value ≤ CAP }
    ensures { result ≡ capped (value * 10 ^ zeros) }
{
    let mut product = value;
    for _ in 0..zeros.min(CAP_ZEROS) {
        product = (product * 10).min(CAP);
    }
    product
}

fn all_zeros(digits: &[u8]) -> bool
    ensures { result ≡ all_zeros digits.now }
{
    digits.iter().all(|b| *b == b'0')
}

pub(crate) fn are_zeros(digits: &[u8], more: &[u8]) -> bool
    ensures { result ≡ (all_zeros digits.now && all_zeros more.now) }
{
    all_zeros(digits) && all_zeros(more)
}
