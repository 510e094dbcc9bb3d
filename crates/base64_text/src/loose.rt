//! Decoding of a text whatever bits follow its last byte.
#![tactic(auto)]

ghost use Rattle.std.specs.Prelude.{◌≡◌, ℕ, ◌<◌, ◌≤◌, ◌+◌, ◌-◌, ◌*◌, ◌/◌, ◌%◌, ◌++◌, ◌==◌, ◌&&◌, not, length, take, drop, replicate, true};
ghost use Rattle.base64_alphabet.specs.Encoding.{bytes_of_blocks};
ghost use Rattle.base64_alphabet.specs.Table.{all_in};
ghost use Rattle.base64_text.specs.Canonical.{HasWholeBlocks, decoded_len, unpadded_len, is_clean, all_pads, loose_bytes};
ghost use Rattle.base64_text.specs.Counts.{loose_count};

use base64_alphabet::{Alphabet, Steps, decode_blocks};
use std::sync::ledger::Ledger;

/// Decodes the `u` characters before the padding to the front of an output, and answers whether the text is
/// clean. It makes all its conversions in any case.
pub(crate) fn decode_loose<E: Alphabet, L: Ledger>(
    src: &[u8],
    u: usize,
    dst: &mut [u8],
    steps: &mut Steps<L>,
) -> bool
    requires whole { HasWholeBlocks E.form.padded src.now }
    requires unpadded { u ≡ unpadded_len E.form.padded src.now }
    requires room { decoded_len u ≤ length dst.old }
    ensures clean { result ≡ is_clean E.form.table E.form.padded src.now }
    ensures written { is_clean E.form.table E.form.padded src.now ≡ true
        → take (decoded_len u) dst.new ≡ loose_bytes E.form src.now }
    ensures rest { drop (decoded_len u) dst.new ≡ drop (decoded_len u) dst.old }
    ensures steps { steps.new ≡ steps.old + loose_count u }
{
    let blocks = u / 4;
    let good = decode_blocks::<E, L>(&src[..4 * blocks], dst, steps);
    let (bytes, rest_good) = decode_rest::<E, L>(&src[4 * blocks..u], steps);
    let k = 3 * (u % 4) / 4;
    dst[3 * blocks..3 * blocks + k].copy_from_slice(&bytes[..k]);
    good & rest_good & is_padding(&src[u..])
}

/// Decodes up to three characters as a block filled with `A`, and answers whether they are in the table and
/// more than one.
pub(crate) fn decode_rest<E: Alphabet, L: Ledger>(
    rest: &[u8],
    steps: &mut Steps<L>,
) -> ([u8; 3], bool)
    requires { length rest.now ≤ 3 }
    ensures good { result.1 ≡ (all_in E.form.table rest.now && not (length rest.now == 1)) }
    ensures written { all_in E.form.table rest.now ≡ true → take (3 * length rest.now / 4) result.0
        ≡ take (3 * length rest.now / 4) (bytes_of_blocks E.form.end E.form.table (rest.now ++ replicate (4 - length rest.now) 65)) }
    ensures steps { steps.new ≡ steps.old + 4 }
{
    let block = filled(rest);
    let mut bytes = [0u8; 3];
    let answer = E::decode_3bytes_counted(&block, &mut bytes, steps);
    (bytes, (answer == 0) & (rest.len() != 1))
}

// Up to three characters, filled up with `A`.
fn filled(rest: &[u8]) -> [u8; 4]
    requires { length rest.now ≤ 3 }
    ensures { result ≡ rest.now ++ replicate (4 - length rest.now) 65 }
{
    match rest {
        [] => *b"AAAA",
        [a] => [*a, b'A', b'A', b'A'],
        [a, b] => [*a, *b, b'A', b'A'],
        [a, b, c] => [*a, *b, *c, b'A'],
        _ => unreachable!(),
    }
}

/// Whether each character is `=`.
pub(crate) fn is_padding(text: &[u8]) -> bool
    ensures { result ≡ all_pads text.now }
{
    let mut good = true;
    for c in text {
        good &= *c == b'=';
    }
    good
}
