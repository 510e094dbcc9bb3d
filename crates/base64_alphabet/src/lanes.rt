//! Decoding of 32 characters at a time, in vectors of bytes. No branch and no look-up depends on a
//! character.
#![tactic(auto)]

ghost use Rattle.std.specs.Prelude.{◌≡◌, ℕ, ◌≤◌, ◌<◌, ◌+◌, ◌*◌, ◌/◌, ◌%◌, ◌++◌, take, drop, length, true, map, pos, slice_index, if◌then◌else◌};
ghost use Rattle.std.specs.Simd.Lanes.{all_below};
ghost use Rattle.base64_alphabet.specs.Table.{all_in, place_of};
ghost use Rattle.base64_alphabet.specs.Passes.{added_by};
ghost use Rattle.base64_alphabet.specs.Group.{High, Low};
ghost use Rattle.base64_alphabet.specs.Encoding.{bytes_of_blocks};
ghost use Rattle.base64_alphabet.specs.Lanes.{low_byte, widened, bytes_of_digits};
ghost use Rattle.base64_alphabet.specs.declared.alphabet.DecodeStep.TheVariants.{Range, Eq};

use crate::alphabet::{Alphabet, DecodeStep};
use crate::steps::Steps;
use std::simd::prelude::*;
use std::sync::ledger::Ledger;

/// Converts 32 characters, each to its place in the table or to -1.
pub fn decode_32<E: Alphabet, L: Ledger>(src: &[u8; 32], steps: &mut Steps<L>) -> [i16; 32]
    ensures places { result ≡ map (place_of E.form.table) src.now }
    ensures steps { steps.new ≡ steps.old + 32 }
{
    widened(places_32::<E, L>(src, steps)).to_array()
}

/// Converts whole blocks of characters, 32 characters at a time and the rest block by block, and answers 0
/// where each character is in the table, else 1. The bytes are open where one isn't. Every block is
/// converted in any case, so that the number of conversions doesn't tell where a bad character stands.
pub fn decode_run<E: Alphabet, L: Ledger>(src: &[u8], dst: &mut [u8], steps: &mut Steps<L>) -> i16
    requires whole { length src.now % 4 ≡ 0 }
    requires room { 3 * (length src.now / 4) ≤ length dst.old }
    ensures answer { result ≡ (if all_in E.form.table src.now then pos 0 else pos 1) }
    ensures written { all_in E.form.table src.now ≡ true →
        dst.new ≡ bytes_of_blocks E.form.end E.form.table src.now ++ drop (3 * (length src.now / 4)) dst.old }
    ensures rest { drop (3 * (length src.now / 4)) dst.new ≡ drop (3 * (length src.now / 4)) dst.old }
    ensures steps { steps.new ≡ steps.old + length src.now }
{
    let parts = src.len() / 32;
    let good = decode_parts::<E, L>(&src[..32 * parts], dst, steps);
    let rest = decode_each::<E, L>(&src[32 * parts..], &mut dst[24 * parts..], steps);
    bad_as_one(good & rest)
}

fn bad_as_one(good: bool) -> i16
    ensures { result ≡ (if good then pos 0 else pos 1) }
{
    !good as i16
}

// Parts of 32 characters.
fn decode_parts<E: Alphabet, L: Ledger>(src: &[u8], dst: &mut [u8], steps: &mut Steps<L>) -> bool
    requires whole { length src.now % 32 ≡ 0 }
    requires room { 24 * (length src.now / 32) ≤ length dst.old }
    ensures answer { result ≡ all_in E.form.table src.now }
    ensures written { all_in E.form.table src.now ≡ true →
        dst.new ≡ bytes_of_blocks E.form.end E.form.table src.now ++ drop (24 * (length src.now / 32)) dst.old }
    ensures rest { drop (24 * (length src.now / 32)) dst.new ≡ drop (24 * (length src.now / 32)) dst.old }
    ensures steps { steps.new ≡ steps.old + 32 * (length src.now / 32) }
{
    let mut good = true;
    for part in 0..src.len() / 32 {
        let from = &src[32 * part..32 * part + 32];
        good &= decode_part::<E, L>(from, &mut dst[24 * part..24 * part + 24], steps);
    }
    good
}

// One part. The bytes are open where a character isn't in the table.
fn decode_part<E: Alphabet, L: Ledger>(src: &[u8], dst: &mut [u8], steps: &mut Steps<L>) -> bool
    requires chars { length src.now ≡ 32 }
    requires room { length dst.old ≡ 24 }
    ensures answer { result ≡ all_in E.form.table src.now }
    ensures written { all_in E.form.table src.now ≡ true → dst.new ≡ bytes_of_blocks E.form.end E.form.table src.now }
    ensures steps { steps.new ≡ steps.old + 32 }
{
    let mut block = [0u8; 32];
    block.copy_from_slice(src);
    let places = places_32::<E, L>(&block, steps);
    dst.copy_from_slice(&grouped::<E>(places).to_array()[..24]);
    are_places(places)
}

// Blocks of four characters.
fn decode_each<E: Alphabet, L: Ledger>(src: &[u8], dst: &mut [u8], steps: &mut Steps<L>) -> bool
    requires whole { length src.now % 4 ≡ 0 }
    requires room { 3 * (length src.now / 4) ≤ length dst.old }
    ensures answer { result ≡ all_in E.form.table src.now }
    ensures written { all_in E.form.table src.now ≡ true →
        dst.new ≡ bytes_of_blocks E.form.end E.form.table src.now ++ drop (3 * (length src.now / 4)) dst.old }
    ensures rest { drop (3 * (length src.now / 4)) dst.new ≡ drop (3 * (length src.now / 4)) dst.old }
    ensures steps { steps.new ≡ steps.old + 4 * (length src.now / 4) }
{
    let mut good = true;
    for block in 0..src.len() / 4 {
        let from = &src[4 * block..4 * block + 4];
        let answer = E::decode_3bytes_counted(from, &mut dst[3 * block..3 * block + 3], steps);
        good &= answer == 0;
    }
    good
}

// The low bytes of the places of 32 characters: 255 for -1.
#[inline(always)]
fn places_32<E: Alphabet, L: Ledger>(src: &[u8; 32], steps: &mut Steps<L>) -> u8x32
    ensures places { result ≡ map (λ c. low_byte (place_of E.form.table c)) src.now }
    ensures steps { steps.new ≡ steps.old + 32 }
{
    steps.add(32);
    let c = u8x32::from_array(*src);
    let mut sum = u8x32::splat(255);
    for step in E::decode_passes() {
        sum += step.added_lanes(c);
    }
    sum
}

impl DecodeStep {
    // The low bytes of what a pass adds at each character.
    #[inline(always)]
    fn added_lanes(&self, c: u8x32) -> u8x32
        requires len { length c ≡ 32 }
        requires bytes { (k : ℕ) → slice_index c k < 256 }
        ensures { result ≡ map (λ x. low_byte (added_by self.now x)) c }
    {
        match self {
            DecodeStep::Range(first, last, offset) => range_lanes(*first, *last, *offset, c),
            DecodeStep::Eq(value, offset) => value_lanes(*value, *offset, c),
        }
    }
}

#[inline(always)]
fn range_lanes(first: u8, last: u8, offset: i16, c: u8x32) -> u8x32
    requires len { length c ≡ 32 }
    requires bytes { (k : ℕ) → slice_index c k < 256 }
    ensures { result ≡ map (λ x. low_byte (added_by (Range first last offset) x)) c }
{
    let inside = c.simd_ge(u8x32::splat(first)) & c.simd_le(u8x32::splat(last));
    inside.select(c + u8x32::splat(low_byte(offset)), u8x32::splat(0))
}

#[inline(always)]
fn value_lanes(value: u8, offset: i16, c: u8x32) -> u8x32
    requires len { length c ≡ 32 }
    requires bytes { (k : ℕ) → slice_index c k < 256 }
    ensures { result ≡ map (λ x. low_byte (added_by (Eq value offset) x)) c }
{
    let inside = c.simd_ge(u8x32::splat(value)) & c.simd_le(u8x32::splat(value));
    inside.select(u8x32::splat(low_byte(offset)), u8x32::splat(0))
}

#[inline(always)]
pub(crate) fn low_byte(offset: i16) -> u8
    ensures { result ≡ low_byte offset }
{
    (offset & 255) as u8
}

// Places from their low bytes.
#[inline(always)]
fn widened(bytes: u8x32) -> i16x32
    requires { length bytes ≡ 32 }
    ensures { result ≡ map widened bytes }
{
    let wide: i16x32 = bytes.cast::<i16>();
    wide.simd_gt(i16x32::splat(63))
        .select(i16x32::splat(-1), wide)
}

// Whether each is the low byte of a place from 0 to 63.
#[inline(always)]
fn are_places(bytes: u8x32) -> bool
    requires { length bytes ≡ 32 }
    ensures { result ≡ all_below 64 bytes }
{
    bytes.simd_gt(u8x32::splat(63)).to_bitmask() == 0
}

// The bytes of eight groups in the first 24 lanes.
#[inline(always)]
fn grouped<E: Alphabet>(digits: u8x32) -> u8x32
    requires { length digits ≡ 32 }
    ensures len { length result ≡ 32 }
    ensures bytes { all_below 64 digits ≡ true → take 24 result ≡ bytes_of_digits E.form.end digits }
{
    // the lowest bit of a group's first byte belongs to its first digit where a group is read from the low end
    if E::split_3bytes(1, 0, 0)[0] == 1 {
        grouped_low(digits)
    } else {
        grouped_high(digits)
    }
}

#[inline(always)]
fn grouped_high(digits: u8x32) -> u8x32
    requires { length digits ≡ 32 }
    ensures len { length result ≡ 32 }
    ensures bytes { all_below 64 digits ≡ true → take 24 result ≡ bytes_of_digits High digits }
{
    let left = u8x32::from_array([
        2, 4, 6, 2, 4, 6, 2, 4, 6, 2, 4, 6, 2, 4, 6, 2, 4, 6, 2, 4, 6, 2, 4, 6, 0, 0, 0, 0, 0, 0,
        0, 0,
    ]);
    let right = u8x32::from_array([
        4, 2, 0, 4, 2, 0, 4, 2, 0, 4, 2, 0, 4, 2, 0, 4, 2, 0, 4, 2, 0, 4, 2, 0, 0, 0, 0, 0, 0, 0,
        0, 0,
    ]);
    (digits.swizzle(FIRST) << left) + (digits.swizzle(SECOND) >> right)
}

#[inline(always)]
fn grouped_low(digits: u8x32) -> u8x32
    requires { length digits ≡ 32 }
    ensures len { length result ≡ 32 }
    ensures bytes { all_below 64 digits ≡ true → take 24 result ≡ bytes_of_digits Low digits }
{
    let left = u8x32::from_array([
        6, 4, 2, 6, 4, 2, 6, 4, 2, 6, 4, 2, 6, 4, 2, 6, 4, 2, 6, 4, 2, 6, 4, 2, 0, 0, 0, 0, 0, 0,
        0, 0,
    ]);
    let right = u8x32::from_array([
        0, 2, 4, 0, 2, 4, 0, 2, 4, 0, 2, 4, 0, 2, 4, 0, 2, 4, 0, 2, 4, 0, 2, 4, 0, 0, 0, 0, 0, 0,
        0, 0,
    ]);
    (digits.swizzle(SECOND) << left) + (digits.swizzle(FIRST) >> right)
}

// Where the first and the second of the two digits stand that a byte has bits of.
const FIRST: [usize; 32] = [
    0, 1, 2, 4, 5, 6, 8, 9, 10, 12, 13, 14, 16, 17, 18, 20, 21, 22, 24, 25, 26, 28, 29, 30, 0, 0,
    0, 0, 0, 0, 0, 0,
];

const SECOND: [usize; 32] = [
    1, 2, 3, 5, 6, 7, 9, 10, 11, 13, 14, 15, 17, 18, 19, 21, 22, 23, 25, 26, 27, 29, 30, 31, 0, 0,
    0, 0, 0, 0, 0, 0,
];
