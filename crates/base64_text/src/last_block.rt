//! The last block of a text: one to four characters.
#![tactic(auto)]

ghost use Rattle.std.specs.Prelude.{◌≡◌, ℕ, ◌≤◌, ◌<◌, ◌+◌, ◌-◌, ◌*◌, ◌/◌, length, take, IfSome, IfNone, true};
ghost use Rattle.base64_alphabet.specs.Encoding.{encoding_of};
ghost use Rattle.base64_text.specs.Canonical.{unpadded_len, IsNoEncoding, IsBytes};
ghost use Rattle.base64_text.specs.LastBlock.{filled};

use crate::encode_text::encode_into;
use base64_alphabet::{Alphabet, Steps};
use std::marker::Brand;
use std::sync::ledger::{Blank, Ledger};

/// The bytes whose encoding is the block, at the front of `out`, and how many they are. The decoded bytes
/// are encoded again and compared, so that padding and trailing bits are checked with the characters. `None` tells
/// that the block is the encoding of no bytes.
pub fn decode_last<E: Alphabet>(last: &[u8], out: &mut [u8; 3]) -> Option<usize>
    requires some { 1 ≤ length last.now }
    requires few { length last.now ≤ 4 }
    ensures some { IfSome result (λ k. last.now ≡ encoding_of E.form (take k out.new)) }
    ensures size { IfSome result (λ k. k ≡ 3 * unpadded_len E.form.padded last.now / 4) }
    ensures bytes { IfSome result (λ k. IsBytes (take k out.new)) }
    ensures most { IfSome result (λ k. k ≤ 3) }
    ensures none { IfNone result (IsNoEncoding E.form last.now) }
{
    if last.len() < 2 {
        return None;
    }
    let u = count_unpadded(E::PADDED, last);
    let k = 3 * u / 4;
    if k == 0 || k > 3 {
        return None;
    }
    let block = fill(last, u);
    if E::decode_3bytes(&block, out) != 0 {
        return None;
    }
    known(&out[..k]);
    let (text, len) = encode_few::<E, Brand>(&out[..k], Blank::new(1));
    if &text[..len] == last { Some(k) } else { None }
}

// The encoding of up to three bytes, and its length.
fn encode_few<E: Alphabet, L: Ledger>(bytes: &[u8], blank: Blank) -> ([u8; 4], usize)
    requires name { blank.name ≡ L.name }
    requires parts { blank.parts ≡ L.parts }
    requires share { 0 < blank.parts }
    requires few { length bytes.now ≤ 3 }
    ensures text { take result.1 result.0 ≡ encoding_of E.form bytes.now }
    ensures len { result.1 ≤ 4 }
{
    let mut steps = Steps::<L>::new(blank);
    let mut text = [0u8; 4];
    let len = encode_into::<E, L>(bytes, &mut text, &mut steps);
    (text, len)
}

/// The length without the `=` among the last two characters of a padded text.
pub(crate) fn count_unpadded(padded: bool, text: &[u8]) -> usize
    ensures value { result ≡ unpadded_len padded text.now }
{
    let n = text.len();
    if !padded {
        return n;
    }
    n - text[n.saturating_sub(2)..]
        .iter()
        .filter(|c| **c == b'=')
        .count()
}

// The first characters of a block, filled with `A`.
fn fill(last: &[u8], u: usize) -> [u8; 4]
    requires low { 2 ≤ u }
    requires high { u ≤ length last.now }
    ensures { result ≡ filled u last.now }
{
    let third = if 2 < u { last[2] } else { b'A' };
    let fourth = if 3 < u { last[3] } else { b'A' };
    [last[0], last[1], third, fourth]
}

/// Tells the proof of a caller that what an array or a slice holds behind a `&mut` are bytes.
pub fn known(bytes: &[u8])
    ensures { IsBytes bytes.now }
{
    let _ = bytes.len();
}
