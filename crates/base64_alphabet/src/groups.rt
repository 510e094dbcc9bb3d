//! Groups of three bytes, read from the high end or the low one.
#![tactic(auto)]

ghost use Rattle.std.specs.Prelude.{◌≡◌, ℕ, ◌≤◌, ◌<◌, ◌+◌, ◌*◌, ◌^◌, ◌++◌, drop, ℤ, pos, length, map, unsigned_abs, int_lt, ◌||◌, if◌then◌else◌};
ghost use Rattle.base64_alphabet.specs.Table.{IsPlace};
ghost use Rattle.base64_alphabet.specs.Group.{High, Low, bytes_of_places, answer_of, bytes_of_number, digits_of_number, number_of_places, sextet, number};

/// The body of `Alphabet::group_3bytes` for an alphabet that reads a group with its first byte highest.
pub fn group_high(c0: i16, c1: i16, c2: i16, c3: i16, dst: &mut [u8]) -> i16
    requires first { IsPlace c0 }
    requires second { IsPlace c1 }
    requires third { IsPlace c2 }
    requires fourth { IsPlace c3 }
    requires room { 3 ≤ length dst.old }
    ensures answer { result ≡ answer_of c0 c1 c2 c3 }
    ensures written { dst.new ≡ bytes_of_places High (sextet c0) (sextet c1) (sextet c2) (sextet c3)
        ++ drop 3 dst.old }
{
    let number = number_of(c0, c1, c2, c3);
    dst[0] = (number / 65536) as u8;
    dst[1] = (number / 256 % 256) as u8;
    dst[2] = (number % 256) as u8;
    answer(c0, c1, c2, c3)
}

/// The body of `Alphabet::group_3bytes` for an alphabet that reads a group with its first byte lowest.
pub fn group_low(c0: i16, c1: i16, c2: i16, c3: i16, dst: &mut [u8]) -> i16
    requires first { IsPlace c0 }
    requires second { IsPlace c1 }
    requires third { IsPlace c2 }
    requires fourth { IsPlace c3 }
    requires room { 3 ≤ length dst.old }
    ensures answer { result ≡ answer_of c0 c1 c2 c3 }
    ensures written { dst.new ≡ bytes_of_places Low (sextet c0) (sextet c1) (sextet c2) (sextet c3)
        ++ drop 3 dst.old }
{
    let number = number_of(c3, c2, c1, c0);
    dst[0] = (number % 256) as u8;
    dst[1] = (number / 256 % 256) as u8;
    dst[2] = (number / 65536) as u8;
    answer(c0, c1, c2, c3)
}

/// The body of `Alphabet::split_3bytes` for an alphabet that reads a group with its first byte highest.
pub fn split_high(a: u8, b: u8, c: u8) -> [i16; 4]
    ensures { result ≡ map pos (digits_of_number High (number High a b c)) }
{
    let number = number_high(a, b, c);
    [
        (number / 262144) as i16,
        (number / 4096 % 64) as i16,
        (number / 64 % 64) as i16,
        (number % 64) as i16,
    ]
}

/// The body of `Alphabet::split_3bytes` for an alphabet that reads a group with its first byte lowest.
pub fn split_low(a: u8, b: u8, c: u8) -> [i16; 4]
    ensures { result ≡ map pos (digits_of_number Low (number Low a b c)) }
{
    let number = number_high(c, b, a);
    [
        (number % 64) as i16,
        (number / 64 % 64) as i16,
        (number / 4096 % 64) as i16,
        (number / 262144) as i16,
    ]
}

// The number of three bytes, the first highest.
fn number_high(a: u8, b: u8, c: u8) -> u32
    ensures value { result ≡ number High a b c }
    ensures bound { result < 2 ^ 24 }
{
    a as u32 * 65536 + b as u32 * 256 + c as u32
}

// The number of four places, the first highest.
fn number_of(c0: i16, c1: i16, c2: i16, c3: i16) -> u32
    requires first { IsPlace c0 }
    requires second { IsPlace c1 }
    requires third { IsPlace c2 }
    requires fourth { IsPlace c3 }
    ensures value { result ≡ number_of_places High (sextet c0) (sextet c1) (sextet c2) (sextet c3) }
    ensures bound { result < 2 ^ 24 }
{
    six_bits(c0) * 262144 + six_bits(c1) * 4096 + six_bits(c2) * 64 + six_bits(c3)
}

// The low six bits of a place.
fn six_bits(c: i16) -> u32
    requires { IsPlace c }
    ensures value { result ≡ sextet c }
    ensures bound { result < 64 }
{
    (c & 63) as u32
}

// 1 where a place is -1, else 0.
fn answer(c0: i16, c1: i16, c2: i16, c3: i16) -> i16
    requires first { IsPlace c0 }
    requires second { IsPlace c1 }
    requires third { IsPlace c2 }
    requires fourth { IsPlace c3 }
    ensures { result ≡ answer_of c0 c1 c2 c3 }
{
    sign(either(either(either(c0, c1), c2), c3))
}

// The bits of both places: -1 where one of them is -1.
fn either(x: i16, y: i16) -> i16
    requires first { IsPlace x }
    requires second { IsPlace y }
    ensures place { IsPlace result }
    ensures bad { int_lt result (pos 0) ≡ (int_lt x (pos 0) || int_lt y (pos 0)) }
{
    x | y
}

// 1 at -1, else 0.
fn sign(x: i16) -> i16
    requires { IsPlace x }
    ensures { result ≡ (if int_lt x (pos 0) then pos 1 else pos 0) }
{
    (x >> 8) & 1
}
