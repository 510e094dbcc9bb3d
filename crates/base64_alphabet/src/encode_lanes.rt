//! Encoding of 24 bytes at a time, in vectors of bytes, where each pass of an alphabet reads the place alone.
//! No branch and no look-up depends on a byte.
#![tactic(auto)]

ghost use Rattle.std.specs.Prelude.{◌≡◌, ℕ, ◌≤◌, ◌<◌, ◌+◌, ◌*◌, ◌/◌, ◌%◌, ◌++◌, take, drop, length, true, map, pos, slice_index};
ghost use Rattle.std.specs.Simd.Lanes.{all_below};
ghost use Rattle.base64_alphabet.specs.Passes.{turned_by, reads_place, read_places};
ghost use Rattle.base64_alphabet.specs.Group.{High, Low};
ghost use Rattle.base64_alphabet.specs.Encoding.{characters};
ghost use Rattle.base64_alphabet.specs.Lanes.{low_byte, digits_of_bytes};
ghost use Rattle.base64_alphabet.specs.declared.alphabet.EncodeStep.TheVariants.{Diff};

use crate::alphabet::{Alphabet, EncodeStep};
use crate::lanes::low_byte;
use crate::steps::Steps;
use std::simd::prelude::*;
use std::sync::ledger::Ledger;

/// Whether each pass of the alphabet reads the place alone, so that `encode_run` can make it.
pub(crate) fn passes_read_places<E: Alphabet>() -> bool
    ensures { result ≡ read_places E.encode_steps }
{
    let mut all = true;
    for step in E::encode_passes() {
        all &= step.reads_place();
    }
    all
}

/// Converts whole groups of bytes to their characters, 24 bytes at a time and the rest group by group.
pub(crate) fn encode_run<E: Alphabet, L: Ledger>(src: &[u8], dst: &mut [u8], steps: &mut Steps<L>)
    requires passes { read_places E.encode_steps ≡ true }
    requires whole { length src.now % 3 ≡ 0 }
    requires room { 4 * (length src.now / 3) ≤ length dst.old }
    ensures written { dst.new ≡ characters E.form.end E.form.table src.now ++ drop (4 * (length src.now / 3)) dst.old }
    ensures steps { steps.new ≡ steps.old + 4 * (length src.now / 3) }
{
    let parts = src.len() / 24;
    encode_parts::<E, L>(&src[..24 * parts], dst, steps);
    encode_each::<E, L>(&src[24 * parts..], &mut dst[32 * parts..], steps);
}

/// Converts whole groups of bytes to their characters, group by group.
pub(crate) fn encode_each<E: Alphabet, L: Ledger>(src: &[u8], dst: &mut [u8], steps: &mut Steps<L>)
    requires whole { length src.now % 3 ≡ 0 }
    requires room { 4 * (length src.now / 3) ≤ length dst.old }
    ensures written { dst.new ≡ characters E.form.end E.form.table src.now ++ drop (4 * (length src.now / 3)) dst.old }
    ensures steps { steps.new ≡ steps.old + 4 * (length src.now / 3) }
{
    for group in 0..src.len() / 3 {
        let from = &src[3 * group..3 * group + 3];
        E::encode_3bytes_counted(from, &mut dst[4 * group..4 * group + 4], steps);
    }
}

// Parts of 24 bytes.
fn encode_parts<E: Alphabet, L: Ledger>(src: &[u8], dst: &mut [u8], steps: &mut Steps<L>)
    requires passes { read_places E.encode_steps ≡ true }
    requires whole { length src.now % 24 ≡ 0 }
    requires room { 32 * (length src.now / 24) ≤ length dst.old }
    ensures written { dst.new ≡ characters E.form.end E.form.table src.now ++ drop (32 * (length src.now / 24)) dst.old }
    ensures steps { steps.new ≡ steps.old + 32 * (length src.now / 24) }
{
    for part in 0..src.len() / 24 {
        let from = &src[24 * part..24 * part + 24];
        encode_part::<E, L>(from, &mut dst[32 * part..32 * part + 32], steps);
    }
}

// One part.
fn encode_part<E: Alphabet, L: Ledger>(src: &[u8], dst: &mut [u8], steps: &mut Steps<L>)
    requires passes { read_places E.encode_steps ≡ true }
    requires bytes { length src.now ≡ 24 }
    requires room { length dst.old ≡ 32 }
    ensures written { dst.new ≡ characters E.form.end E.form.table src.now }
    ensures steps { steps.new ≡ steps.old + 32 }
{
    let mut groups = [0u8; 32];
    groups[..24].copy_from_slice(src);
    let digits = digits_32::<E>(u8x32::from_array(groups));
    dst.copy_from_slice(&characters_32::<E, L>(digits, steps).to_array());
}

// The characters of 32 digits.
#[inline(always)]
fn characters_32<E: Alphabet, L: Ledger>(digits: u8x32, steps: &mut Steps<L>) -> u8x32
    requires passes { read_places E.encode_steps ≡ true }
    requires len { length digits ≡ 32 }
    requires below { all_below 64 digits ≡ true }
    ensures characters { result ≡ map (slice_index E.form.table) digits }
    ensures steps { steps.new ≡ steps.old + 32 }
{
    steps.add(32);
    let mut sum = digits + u8x32::splat(E::BASE);
    for step in E::encode_passes() {
        sum += step.turned_lanes(digits);
    }
    sum
}

impl EncodeStep {
    fn reads_place(&self) -> bool
        ensures { result ≡ reads_place self.now }
    {
        matches!(self, EncodeStep::Diff(..))
    }

    // The low bytes of what a pass adds at each place, whatever the sum so far.
    #[inline(always)]
    fn turned_lanes(&self, places: u8x32) -> u8x32
        requires reads { reads_place self.now ≡ true }
        requires len { length places ≡ 32 }
        requires below { all_below 64 places ≡ true }
        ensures { result ≡ map (λ s. low_byte (turned_by self.now (pos 0) (pos s))) places }
    {
        match self {
            EncodeStep::Apply(..) => unreachable!(),
            EncodeStep::Diff(bound, offset) => above_lanes(*bound, *offset, places),
        }
    }
}

#[inline(always)]
fn above_lanes(bound: u8, offset: i16, places: u8x32) -> u8x32
    requires len { length places ≡ 32 }
    requires below { all_below 64 places ≡ true }
    ensures { result ≡ map (λ s. low_byte (turned_by (Diff bound offset) (pos 0) (pos s))) places }
{
    places
        .simd_gt(u8x32::splat(bound))
        .select(u8x32::splat(low_byte(offset)), u8x32::splat(0))
}

// The digits of the eight groups in the first 24 lanes.
#[inline(always)]
fn digits_32<E: Alphabet>(bytes: u8x32) -> u8x32
    requires len { length bytes ≡ 32 }
    requires bytes { (k : ℕ) → slice_index bytes k < 256 }
    ensures digits { result ≡ digits_of_bytes E.form.end (take 24 bytes) }
    ensures below { all_below 64 result ≡ true }
{
    // as in decoding, the end is told by the first digit of the group 1, 0, 0
    if E::split_3bytes(1, 0, 0)[0] == 1 {
        digits_low(bytes)
    } else {
        digits_high(bytes)
    }
}

#[inline(always)]
fn digits_high(bytes: u8x32) -> u8x32
    requires len { length bytes ≡ 32 }
    requires bytes { (k : ℕ) → slice_index bytes k < 256 }
    ensures { result ≡ digits_of_bytes High (take 24 bytes) }
{
    let left = u8x32::from_array([
        6, 4, 2, 6, 6, 4, 2, 6, 6, 4, 2, 6, 6, 4, 2, 6, 6, 4, 2, 6, 6, 4, 2, 6, 6, 4, 2, 6, 6, 4,
        2, 6,
    ]);
    let right = u8x32::from_array([
        2, 4, 6, 0, 2, 4, 6, 0, 2, 4, 6, 0, 2, 4, 6, 0, 2, 4, 6, 0, 2, 4, 6, 0, 2, 4, 6, 0, 2, 4,
        6, 0,
    ]);
    ((bytes.swizzle(FIRST) << left) + (bytes.swizzle(SECOND) >> right)) & u8x32::splat(63)
}

#[inline(always)]
fn digits_low(bytes: u8x32) -> u8x32
    requires len { length bytes ≡ 32 }
    requires bytes { (k : ℕ) → slice_index bytes k < 256 }
    ensures { result ≡ digits_of_bytes Low (take 24 bytes) }
{
    let left = u8x32::from_array([
        6, 2, 4, 6, 6, 2, 4, 6, 6, 2, 4, 6, 6, 2, 4, 6, 6, 2, 4, 6, 6, 2, 4, 6, 6, 2, 4, 6, 6, 2,
        4, 6,
    ]);
    let right = u8x32::from_array([
        0, 6, 4, 2, 0, 6, 4, 2, 0, 6, 4, 2, 0, 6, 4, 2, 0, 6, 4, 2, 0, 6, 4, 2, 0, 6, 4, 2, 0, 6,
        4, 2,
    ]);
    ((bytes.swizzle(SECOND) << left) + (bytes.swizzle(FIRST) >> right)) & u8x32::splat(63)
}

// Where the first and the second of the two bytes stand that a digit has bits of.
const FIRST: [usize; 32] = [
    0, 0, 1, 2, 3, 3, 4, 5, 6, 6, 7, 8, 9, 9, 10, 11, 12, 12, 13, 14, 15, 15, 16, 17, 18, 18, 19,
    20, 21, 21, 22, 23,
];

const SECOND: [usize; 32] = [
    0, 1, 2, 2, 3, 4, 5, 5, 6, 7, 8, 8, 9, 10, 11, 11, 12, 13, 14, 14, 15, 16, 17, 17, 18, 19, 20,
    20, 21, 22, 23, 23,
];
