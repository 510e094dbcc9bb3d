//! Decoding of whole texts.
#![tactic(auto)]

ghost use Rattle.std.specs.Prelude.{◌≡◌, ℕ, ◌<◌, ◌≤◌, ◌+◌, ◌*◌, ◌/◌, ◌%◌, ◌↔◌, List, length, IfOk, IfErr, true, false, ◌≢◌, if◌then◌else◌};
ghost use Rattle.base64_alphabet.specs.Encoding.{encoding_of};
ghost use Rattle.base64_text.specs.Answers.{Decodes, DecodesBlocks};
ghost use Rattle.base64_text.specs.Canonical.{IsBytes, IsDecodeVecError, HasWholeBlocks, has_lengths};
ghost use Rattle.base64_text.specs.Counts.{decode_count, encode_count};

use crate::encode_text::encode_into;
use crate::errors::Error;
use crate::last_block::{count_unpadded, known};
use crate::loose::decode_loose;
use base64_alphabet::{Alphabet, Steps, decode_blocks};
use std::alloc::Global;
use std::marker::Brand;
use std::sync::ledger::{Blank, Ledger};

/// Decodes a text to the front of an output, and answers how many bytes there are. Only the lengths decide
/// which conversions are made before the last block is checked.
pub(crate) fn decode_counting<E: Alphabet, L: Ledger>(
    src: &[u8],
    dst: &mut [u8],
    steps: &mut Steps<L>,
) -> Result<usize, Error>
    ensures answers { Decodes E.form src.now dst.old dst.new result }
    ensures steps { steps.new ≡ steps.old
        + (if has_lengths E.form.padded src.now (length dst.old) then decode_count E.form.table E.form.padded src.now else 0) }
{
    if !has_whole_blocks(E::PADDED, src) {
        return Err(Error::InvalidEncoding);
    }
    let u = count_unpadded(E::PADDED, src);
    let size = 3 * (u / 4) + 3 * (u % 4) / 4;
    if dst.len() < size {
        return Err(Error::InvalidLength);
    }
    if !decode_loose::<E, L>(src, u, dst, steps) {
        return Err(Error::InvalidEncoding);
    }
    known(dst);
    if src.is_empty() {
        return Ok(0);
    }
    let block = (src.len() - 1) / 4;
    if !is_encoding::<E, L>(&src[4 * block..], &dst[3 * block..size], steps) {
        return Err(Error::InvalidEncoding);
    }
    Ok(size)
}

// Whether a block is the encoding of one to three bytes.
fn is_encoding<E: Alphabet, L: Ledger>(block: &[u8], bytes: &[u8], steps: &mut Steps<L>) -> bool
    requires { length bytes.now ≤ 3 }
    ensures same { (result ≡ true) ↔ (block.now ≡ encoding_of E.form bytes.now) }
    ensures steps { steps.new ≡ steps.old + encode_count E.form.padded (length bytes.now) }
{
    let mut text = [0u8; 4];
    let len = encode_into::<E, L>(bytes, &mut text, steps);
    &text[..len] == block
}

/// `decode_counting` without a count.
pub(crate) fn decode_into<E: Alphabet>(src: &[u8], dst: &mut [u8]) -> Result<usize, Error>
    ensures { Decodes E.form src.now dst.old dst.new result }
{
    decode_from::<E, Brand>(src, dst, Blank::new(1))
}

fn decode_from<E: Alphabet, L: Ledger>(
    src: &[u8],
    dst: &mut [u8],
    blank: Blank,
) -> Result<usize, Error>
    requires name { blank.name ≡ L.name }
    requires parts { blank.parts ≡ L.parts }
    requires share { 0 < blank.parts }
    ensures { Decodes E.form src.now dst.old dst.new result }
{
    let mut steps = Steps::<L>::new(blank);
    decode_counting::<E, L>(src, dst, &mut steps)
}

/// Decodes a text into a vector.
pub(crate) fn decode_to_vec<E: Alphabet>(alloc: Global, src: &[u8]) -> Result<Vec<u8>, Error>
    ensures ok { IfOk result (λ v. src.now ≡ encoding_of E.form v.items) }
    ensures bytes { IfOk result (λ v. IsBytes v.items) }
    ensures value { (b : List ℕ) → IsBytes b → src.now ≡ encoding_of E.form b
        → IfOk result (λ v. v.items ≡ b) }
    ensures err { IfErr result (IsDecodeVecError E.form src.now) }
{
    let u = src.len();
    let mut bytes = vec![in alloc; 0u8; 3 * (u / 4) + 3 * (u % 4) / 4]?;
    match decode_into::<E>(src, &mut bytes) {
        Ok(n) => {
            bytes.truncate(n);
            Ok(bytes)
        }
        Err(error) => Err(error),
    }
}

/// Decodes whole blocks to the front of an output, and answers whether each character is in the table.
pub fn decode_front<E: Alphabet>(src: &[u8], dst: &mut [u8]) -> bool
    requires whole { length src.now % 4 ≡ 0 }
    requires room { 3 * (length src.now / 4) ≤ length dst.old }
    ensures { DecodesBlocks E.form src.now dst.old dst.new result }
{
    front_counted::<E, Brand>(src, dst, Blank::new(1))
}

fn front_counted<E: Alphabet, L: Ledger>(src: &[u8], dst: &mut [u8], blank: Blank) -> bool
    requires name { blank.name ≡ L.name }
    requires parts { blank.parts ≡ L.parts }
    requires share { 0 < blank.parts }
    requires whole { length src.now % 4 ≡ 0 }
    requires room { 3 * (length src.now / 4) ≤ length dst.old }
    ensures { DecodesBlocks E.form src.now dst.old dst.new result }
{
    let mut steps = Steps::<L>::new(blank);
    decode_blocks::<E, L>(src, dst, &mut steps)
}

/// Whether a padded text has whole blocks.
pub(crate) fn has_whole_blocks(padded: bool, src: &[u8]) -> bool
    ensures yes { result ≡ true → HasWholeBlocks padded src.now }
    ensures no { result ≡ false → (padded ≡ true) × (length src.now % 4 ≢ 0) }
{
    !padded || src.len() % 4 == 0
}
