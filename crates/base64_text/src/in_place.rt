//! Decoding of a text in its own buffer.
#![tactic(auto)]

ghost use Rattle.std.specs.Prelude.{◌≡◌, ℕ, ◌<◌, ◌≤◌, ◌+◌, ◌*◌, ◌/◌, ◌%◌, ◌++◌, ◌↔◌, length, take, drop, true, IsSome, IfSome, if◌then◌else◌};
ghost use Rattle.base64_alphabet.specs.Encoding.{bytes_of_blocks};
ghost use Rattle.base64_alphabet.specs.Table.{all_in};
ghost use Rattle.base64_text.specs.Canonical.{unpadded_len, is_clean, loose_bytes, has_whole_blocks};
ghost use Rattle.base64_text.specs.Counts.{loose_count};

use crate::decode_text;
use crate::last_block::count_unpadded;
use crate::loose::{decode_rest, is_padding};
use base64_alphabet::{Alphabet, Steps, decode_blocks};
use std::marker::Brand;
use std::sync::ledger::{Blank, Ledger};

/// Decodes a clean text to the front of its own buffer, and answers how many bytes there are.
pub(crate) fn decode_over<E: Alphabet, L: Ledger>(
    buf: &mut [u8],
    steps: &mut Steps<L>,
) -> Option<usize>
    ensures within { IfSome result (λ n. n ≤ length buf.old) }
    ensures bytes { IfSome result (λ n. take n buf.new ≡ loose_bytes E.form buf.old) }
    ensures clean { IsSome result ↔ (is_clean E.form.table E.form.padded buf.old ≡ true) }
    ensures steps { steps.new ≡ steps.old
        + (if has_whole_blocks E.form.padded buf.old then loose_count (unpadded_len E.form.padded buf.old) else 0) }
{
    if !decode_text::has_whole_blocks(E::PADDED, buf) {
        return None;
    }
    let u = count_unpadded(E::PADDED, buf);
    let padding = is_padding(&buf[u..]);
    let blocks = u / 4;
    let good = decode_blocks_over::<E, L>(buf, blocks, steps);
    let (bytes, rest) = decode_rest::<E, L>(&buf[4 * blocks..u], steps);
    let k = 3 * (u % 4) / 4;
    buf[3 * blocks..3 * blocks + k].copy_from_slice(&bytes[..k]);
    if good & rest & padding {
        Some(3 * blocks + k)
    } else {
        None
    }
}

// Decodes whole blocks to the front of their own buffer. Every block is converted in any case, so that the
// number of conversions doesn't tell where a bad character stands.
fn decode_blocks_over<E: Alphabet, L: Ledger>(
    buf: &mut [u8],
    blocks: usize,
    steps: &mut Steps<L>,
) -> bool
    requires { 4 * blocks ≤ length buf.old }
    ensures answer { result ≡ all_in E.form.table (take (4 * blocks) buf.old) }
    ensures written { all_in E.form.table (take (4 * blocks) buf.old) ≡ true →
        take (3 * blocks) buf.new ≡ bytes_of_blocks E.form.end E.form.table (take (4 * blocks) buf.old) }
    ensures rest { drop (4 * blocks) buf.new ≡ drop (4 * blocks) buf.old }
    ensures steps { steps.new ≡ steps.old + 4 * blocks }
{
    let mut good = true;
    let mut done = 0;
    while done < blocks {
        let count = (blocks - done).min(32);
        good &= decode_part_over::<E, L>(buf, done, count, steps);
        done += count;
    }
    good
}

// Decodes a few blocks behind the bytes of those before them. Their characters are copied out first, since
// their bytes may lie over them.
fn decode_part_over<E: Alphabet, L: Ledger>(
    buf: &mut [u8],
    done: usize,
    count: usize,
    steps: &mut Steps<L>,
) -> bool
    requires few { count ≤ 32 }
    requires within { 4 * (done + count) ≤ length buf.old }
    ensures answer { result ≡ all_in E.form.table (take (4 * count) (drop (4 * done) buf.old)) }
    ensures written { result ≡ true → take (3 * (done + count)) buf.new
        ≡ take (3 * done) buf.old ++ bytes_of_blocks E.form.end E.form.table (take (4 * count) (drop (4 * done) buf.old)) }
    ensures rest { drop (4 * (done + count)) buf.new ≡ drop (4 * (done + count)) buf.old }
    ensures steps { steps.new ≡ steps.old + 4 * count }
{
    let mut copy = [0u8; 128];
    let characters = &mut copy[..4 * count];
    characters.copy_from_slice(&buf[4 * done..4 * done + 4 * count]);
    decode_blocks::<E, L>(characters, &mut buf[3 * done..3 * done + 3 * count], steps)
}

/// `decode_over` without a count.
pub(crate) fn decode_over_plainly<E: Alphabet>(buf: &mut [u8]) -> Option<usize>
    ensures within { IfSome result (λ n. n ≤ length buf.old) }
    ensures bytes { IfSome result (λ n. take n buf.new ≡ loose_bytes E.form buf.old) }
    ensures clean { IsSome result ↔ (is_clean E.form.table E.form.padded buf.old ≡ true) }
{
    decode_over_from::<E, Brand>(buf, Blank::new(1))
}

fn decode_over_from<E: Alphabet, L: Ledger>(buf: &mut [u8], blank: Blank) -> Option<usize>
    requires name { blank.name ≡ L.name }
    requires parts { blank.parts ≡ L.parts }
    requires share { 0 < blank.parts }
    ensures within { IfSome result (λ n. n ≤ length buf.old) }
    ensures bytes { IfSome result (λ n. take n buf.new ≡ loose_bytes E.form buf.old) }
    ensures clean { IsSome result ↔ (is_clean E.form.table E.form.padded buf.old ≡ true) }
{
    let mut steps = Steps::<L>::new(blank);
    decode_over::<E, L>(buf, &mut steps)
}
