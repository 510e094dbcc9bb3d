//! Encoding of bytes.
#![tactic(auto)]

ghost use Rattle.std.specs.Prelude.{◌≡◌, ℕ, ◌≤◌, ◌<◌, ◌+◌, ◌*◌, ◌/◌, ◌%◌, ◌^◌, ◌↔◌, length, take, drop, IsSome, IfSome, is_some, if◌then◌else◌, IfOk};
ghost use Rattle.std.specs.Prelude.{IfErr, Err, IsAscii, string_bytes};
ghost use Rattle.base64_alphabet.specs.Encoding.{encoding_of};
ghost use Rattle.base64_text.specs.Answers.{Encodes, IsEncoded};
ghost use Rattle.base64_text.specs.Canonical.{IsEncodeStringError};
ghost use Rattle.base64_text.specs.Counts.{encoded_len, encode_count};

use crate::errors::Error;
use base64_alphabet::{Alphabet, Steps, encode_blocks};
use std::alloc::Global;
use std::marker::Brand;
use std::sync::ledger::{Blank, Ledger};

/// Writes the encoding to the front of an output, and answers its length.
pub(crate) fn encode_into<E: Alphabet, L: Ledger>(
    src: &[u8],
    dst: &mut [u8],
    steps: &mut Steps<L>,
) -> usize
    requires room { encoded_len E.form.padded (length src.now) ≤ length dst.old }
    ensures encoded { IsEncoded E.form src.now dst.new result }
    ensures rest { drop result dst.new ≡ drop result dst.old }
    ensures steps { steps.new ≡ steps.old + encode_count E.form.padded (length src.now) }
{
    let groups = src.len() / 3;
    encode_blocks::<E, L>(&src[..3 * groups], dst, steps);
    let (rest, len) = encode_rest::<E, L>(&src[3 * groups..], steps);
    dst[4 * groups..4 * groups + len].copy_from_slice(&rest[..len]);
    4 * groups + len
}

/// Writes the encoding to the front of an output, and answers its length, or `None` where it doesn't fit.
pub(crate) fn encode_fitting<E: Alphabet, L: Ledger>(
    src: &[u8],
    dst: &mut [u8],
    steps: &mut Steps<L>,
) -> Option<usize>
    ensures answers { Encodes E.form src.now dst.old dst.new result }
    ensures steps { steps.new ≡ steps.old + (if is_some result then encode_count E.form.padded (length src.now) else 0) }
{
    let len = encoded_length(src.len(), E::PADDED)?;
    if dst.len() < len {
        return None;
    }
    Some(encode_into::<E, L>(src, dst, steps))
}

/// `encode_fitting` without a count.
pub(crate) fn encode_plainly<E: Alphabet>(src: &[u8], dst: &mut [u8]) -> Option<usize>
    ensures { Encodes E.form src.now dst.old dst.new result }
{
    encode_from::<E, Brand>(src, dst, Blank::new(1))
}

fn encode_from<E: Alphabet, L: Ledger>(src: &[u8], dst: &mut [u8], blank: Blank) -> Option<usize>
    requires name { blank.name ≡ L.name }
    requires parts { blank.parts ≡ L.parts }
    requires share { 0 < blank.parts }
    ensures { Encodes E.form src.now dst.old dst.new result }
{
    let mut steps = Steps::<L>::new(blank);
    encode_fitting::<E, L>(src, dst, &mut steps)
}

/// `encode_into` without a count.
pub fn encode_front<E: Alphabet>(src: &[u8], dst: &mut [u8]) -> usize
    requires room { encoded_len E.form.padded (length src.now) ≤ length dst.old }
    ensures { IsEncoded E.form src.now dst.new result }
{
    front_from::<E, Brand>(src, dst, Blank::new(1))
}

fn front_from<E: Alphabet, L: Ledger>(src: &[u8], dst: &mut [u8], blank: Blank) -> usize
    requires name { blank.name ≡ L.name }
    requires parts { blank.parts ≡ L.parts }
    requires share { 0 < blank.parts }
    requires room { encoded_len E.form.padded (length src.now) ≤ length dst.old }
    ensures { IsEncoded E.form src.now dst.new result }
{
    let mut steps = Steps::<L>::new(blank);
    encode_into::<E, L>(src, dst, &mut steps)
}

/// ASCII bytes as a text.
pub fn ascii_text(bytes: &[u8]) -> &str
    requires { IsAscii bytes.now }
    ensures { result.now ≡ bytes.now }
{
    unsafe { std::str::from_utf8_unchecked(bytes) }
}

/// Encodes bytes into a text.
pub(crate) fn encode_to_string<E: Alphabet>(alloc: Global, input: &[u8]) -> Result<String, Error>
    ensures ok { IfOk result (λ text. string_bytes text ≡ encoding_of E.form input.now) }
    ensures err { IfErr result (IsEncodeStringError (length input.now)) }
    ensures too_long { (result ≡ Err Error.InvalidLength) ↔ (2 ^ 64 ≤ 4 * length input.now) }
{
    let Some(len) = encoded_length(input.len(), E::PADDED) else {
        return Err(Error::InvalidLength);
    };
    let mut text = vec![in alloc; 0u8; len]?;
    match encode_plainly::<E>(input, &mut text) {
        Some(n) => {
            text.truncate(n);
            Ok(ascii_string(text))
        }
        None => Err(Error::InvalidLength),
    }
}

// ASCII bytes as a text.
fn ascii_string(bytes: Vec<u8>) -> String
    requires { IsAscii bytes.items }
    ensures { string_bytes result ≡ bytes.items }
{
    unsafe { String::from_utf8_unchecked(bytes) }
}

// The encoding of up to two bytes, and its length.
fn encode_rest<E: Alphabet, L: Ledger>(rest: &[u8], steps: &mut Steps<L>) -> ([u8; 4], usize)
    requires { length rest.now ≤ 2 }
    ensures text { take result.1 result.0 ≡ encoding_of E.form rest.now }
    ensures len { result.1 ≡ encoded_len E.form.padded (length rest.now) }
    ensures steps { steps.new ≡ steps.old + encode_count E.form.padded (length rest.now) }
{
    let mut text = [b'='; 4];
    match rest {
        [] => {
            // An unpadded alphabet converts its empty rest too: the number of conversions is the original's.
            if !E::PADDED {
                E::encode_3bytes_counted(&[0, 0, 0], &mut text, steps);
            }
            (text, 0)
        }
        [a] => {
            E::encode_3bytes_counted(&[*a, 0, 0], &mut text, steps);
            text[2] = b'=';
            text[3] = b'=';
            (text, if E::PADDED { 4 } else { 2 })
        }
        [a, b] => {
            E::encode_3bytes_counted(&[*a, *b, 0], &mut text, steps);
            text[3] = b'=';
            (text, if E::PADDED { 4 } else { 3 })
        }
        _ => unreachable!(),
    }
}

/// The length of the encoding of `n` bytes, where four times `n` fits `usize`.
pub(crate) fn encoded_length(n: usize, padded: bool) -> Option<usize>
    ensures fits { IsSome result ↔ (4 * n < 2 ^ 64) }
    ensures len { IfSome result (λ len. len ≡ encoded_len padded n) }
{
    let quadruple = n.checked_mul(4)?;
    if padded {
        Some((n + 2) / 3 * 4)
    } else {
        Some((quadruple + 2) / 3)
    }
}
