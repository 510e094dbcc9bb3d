//! What an alphabet is.
#![tactic(auto)]

ghost use Rattle.std.specs.Prelude.{◌≡◌, ℕ, ◌<◌, ◌≤◌, ◌+◌, ◌++◌, List, Bool, IsTrue, ℤ, pos, ◌≤ℤ◌, length, true, false, slice_index, unsigned_abs, drop, map};
ghost use Rattle.std.specs.Prelude.{if◌then◌else◌};
ghost use Rattle.base64_alphabet.specs.Table.{place_of, is_table, all_in, IsPlace};
ghost use Rattle.base64_alphabet.specs.Passes.{decodes, value_fits, added_by, common_sign, encodes, turned_by, turned_fits};
ghost use Rattle.base64_alphabet.specs.Form.{Form};
ghost use Rattle.base64_alphabet.specs.Group.{number, bytes_of_places, digits_of_number, bytes_of, answer_of, sextet, characters_of};

pub mod standard;

use crate::steps::Steps;
use std::fmt::Debug;
use std::sync::ledger::Ledger;

/// An alphabet of Base64: 64 characters, each for a six-bit number, whether a text is padded with `=`, and
/// from which end a group of three bytes is read (RFC 4648 sections 4 and 5). A type that implements it
/// gives its passes and proves that they answer its table for every byte and every six-bit number.
///
/// Texts are read and written by `Encoding`; the calls here convert single characters and single groups.
pub trait Alphabet: 'static + Copy + Debug + Eq + Sized {
    ghost use Rattle.base64_alphabet.specs.declared.alphabet.DecodeStep.{DecodeStep};
    ghost use Rattle.base64_alphabet.specs.declared.alphabet.EncodeStep.{EncodeStep};

    /// The characters for 0 to 63 in order, the end from which a group is read, and `PADDED`.
    ghost form: { Form };

    ghost BASE: { ℕ };

    ghost PADDED: { Bool };

    ghost decode_steps: { List DecodeStep };

    ghost encode_steps: { List EncodeStep };

    /// The character for 0.
    const BASE: u8;

    /// The passes of `decode_6bits`.
    const DECODER: &'static [DecodeStep];

    /// The passes of `encode_6bits`.
    const ENCODER: &'static [EncodeStep];

    /// Whether a text is filled up with `=` to whole blocks of four characters.
    const PADDED: bool;

    /// The same alphabet without padding. `Unpad` states what ties the two.
    type Unpadded;

    /// `DECODER`, tied to the list of passes that proofs see.
    fn decode_passes() -> &'static [DecodeStep]
        ensures { result.now ≡ decode_steps };

    /// `ENCODER`, tied to the list of passes that proofs see.
    fn encode_passes() -> &'static [EncodeStep]
        ensures { result.now ≡ encode_steps };

    /// Converts a block of four characters to its group of three bytes. The bytes are open where a
    /// character isn't in the table.
    fn decode_3bytes(src: &[u8], dst: &mut [u8]) -> i16
        requires four { length src.now ≡ 4 }
        requires room { 3 ≤ length dst.old }
        ensures answer { result ≡ (if all_in form.table src.now then pos 0 else pos 1) }
        ensures written { all_in form.table src.now ≡ true →
            dst.new ≡ bytes_of form.end form.table (slice_index src.now 0) (slice_index src.now 1)
            (slice_index src.now 2) (slice_index src.now 3) ++ drop 3 dst.old }
        ensures rest { drop 3 dst.new ≡ drop 3 dst.old }
    {
        let first = Self::decode_6bits(src[0]);
        let second = Self::decode_6bits(src[1]);
        let third = Self::decode_6bits(src[2]);
        let fourth = Self::decode_6bits(src[3]);
        Self::group_3bytes(first, second, third, fourth, dst)
    }

    /// Converts a character to its place in the table, or to -1.
    fn decode_6bits(src: u8) -> i16
        ensures place { result ≡ place_of form.table src }
        ensures range { IsPlace result }
    {
        let mut sum: i16 = -1;
        for step in Self::decode_passes() {
            sum += step.added(src);
        }
        sum
    }

    /// Converts a group of three bytes to its block of four characters.
    fn encode_3bytes(src: &[u8], dst: &mut [u8])
        requires three { length src.now ≡ 3 }
        requires room { 4 ≤ length dst.old }
        ensures { dst.new ≡ characters_of form.end form.table (slice_index src.now 0) (slice_index src.now 1)
            (slice_index src.now 2) ++ drop 4 dst.old }
    {
        let digits = Self::split_3bytes(src[0], src[1], src[2]);
        dst[0] = Self::encode_6bits(digits[0]);
        dst[1] = Self::encode_6bits(digits[1]);
        dst[2] = Self::encode_6bits(digits[2]);
        dst[3] = Self::encode_6bits(digits[3]);
    }

    /// Converts a place in the table to its character.
    fn encode_6bits(src: i16) -> u8
        requires low { pos 0 ≤ℤ src }
        requires high { src ≤ℤ pos 63 }
        ensures { result ≡ slice_index form.table (unsigned_abs src) }
    {
        let mut sum: i16 = src + Self::BASE as i16;
        for step in Self::encode_passes() {
            sum += step.turned(sum, src);
        }
        sum as u8
    }

    /// Joins four six-bit numbers to a group of three bytes. A place of -1 answers 1, and the bytes are open
    /// then. An implementation calls `group_high` or `group_low`.
    fn group_3bytes(c0: i16, c1: i16, c2: i16, c3: i16, dst: &mut [u8]) -> i16
        requires first { IsPlace c0 }
        requires second { IsPlace c1 }
        requires third { IsPlace c2 }
        requires fourth { IsPlace c3 }
        requires room { 3 ≤ length dst.old }
        ensures answer { result ≡ answer_of c0 c1 c2 c3 }
        ensures written { result ≡ pos 0 →
            dst.new ≡ bytes_of_places form.end (sextet c0) (sextet c1) (sextet c2) (sextet c3)
            ++ drop 3 dst.old }
        ensures rest { drop 3 dst.new ≡ drop 3 dst.old };

    /// Splits a group of three bytes into four six-bit numbers. An implementation calls `split_high` or
    /// `split_low`.
    fn split_3bytes(a: u8, b: u8, c: u8) -> [i16; 4]
        ensures { result ≡ map pos (digits_of_number form.end (number form.end a b c)) };

    /// `decode_6bits`, counted.
    fn decode_6bits_counted<L: Ledger>(src: u8, steps: &mut Steps<L>) -> i16
        ensures place { result ≡ place_of form.table src }
        ensures range { IsPlace result }
        ensures steps { steps.new ≡ steps.old + 1 }
    {
        steps.add(1);
        Self::decode_6bits(src)
    }

    /// `encode_6bits`, counted.
    fn encode_6bits_counted<L: Ledger>(src: i16, steps: &mut Steps<L>) -> u8
        requires low { pos 0 ≤ℤ src }
        requires high { src ≤ℤ pos 63 }
        ensures character { result ≡ slice_index form.table (unsigned_abs src) }
        ensures steps { steps.new ≡ steps.old + 1 }
    {
        steps.add(1);
        Self::encode_6bits(src)
    }

    /// `decode_3bytes`, counted.
    fn decode_3bytes_counted<L: Ledger>(src: &[u8], dst: &mut [u8], steps: &mut Steps<L>) -> i16
        requires four { length src.now ≡ 4 }
        requires room { 3 ≤ length dst.old }
        ensures answer { result ≡ (if all_in form.table src.now then pos 0 else pos 1) }
        ensures written { all_in form.table src.now ≡ true →
            dst.new ≡ bytes_of form.end form.table (slice_index src.now 0) (slice_index src.now 1)
            (slice_index src.now 2) (slice_index src.now 3) ++ drop 3 dst.old }
        ensures rest { drop 3 dst.new ≡ drop 3 dst.old }
        ensures steps { steps.new ≡ steps.old + 4 }
    {
        let first = Self::decode_6bits_counted(src[0], steps);
        let second = Self::decode_6bits_counted(src[1], steps);
        let third = Self::decode_6bits_counted(src[2], steps);
        let fourth = Self::decode_6bits_counted(src[3], steps);
        Self::group_3bytes(first, second, third, fourth, dst)
    }

    /// `encode_3bytes`, counted.
    fn encode_3bytes_counted<L: Ledger>(src: &[u8], dst: &mut [u8], steps: &mut Steps<L>)
        requires three { length src.now ≡ 3 }
        requires room { 4 ≤ length dst.old }
        ensures written { dst.new ≡ characters_of form.end form.table (slice_index src.now 0) (slice_index src.now 1)
            (slice_index src.now 2) ++ drop 4 dst.old }
        ensures steps { steps.new ≡ steps.old + 4 }
    {
        let digits = Self::split_3bytes(src[0], src[1], src[2]);
        dst[0] = Self::encode_6bits_counted(digits[0], steps);
        dst[1] = Self::encode_6bits_counted(digits[1], steps);
        dst[2] = Self::encode_6bits_counted(digits[2], steps);
        dst[3] = Self::encode_6bits_counted(digits[3], steps);
    }

    /// The form tells `PADDED`.
    ghost tells_padding: { form.padded ≡ PADDED };

    /// 64 different ASCII characters with `A` and without `=`, CR and LF.
    ghost lawful: { IsTrue (is_table form.table) };

    /// The passes of `DECODER` answer the place in the table for all 256 bytes, and no sum leaves `i16`.
    ghost decoder_answers: { IsTrue (decodes decode_steps form.table) };

    /// The passes of `ENCODER` answer the character for 0 to 63, and no sum leaves `i16`.
    ghost encoder_answers: { IsTrue (encodes BASE encode_steps form.table) };
}

/// What ties an alphabet to its unpadded form.
pub trait Unpad: Alphabet
where
    Self::Unpadded: Alphabet,
{
    ghost same_table: { Self.Unpadded.form.table ≡ Self.form.table };

    ghost same_end: { Self.Unpadded.form.end ≡ Self.form.end };

    ghost no_padding: { Self.Unpadded.PADDED ≡ false };
}

/// A pass of `decode_6bits`, which adds to a sum that begins at -1.
#[derive(Debug)]
pub enum DecodeStep {
    /// First and last character of a range, and what is added to a character of the range.
    Range(u8, u8, i16),

    /// A character, and what is added for it.
    Eq(u8, i16),
}

impl DecodeStep {
    fn added(&self, src: u8) -> i16
        requires { IsTrue (value_fits self.now src) }
        ensures { result ≡ added_by self.now src }
    {
        match self {
            DecodeStep::Range(first, last, offset) => {
                (common_sign(*first, *last, src) >> 8) & (src as i16 + *offset)
            }
            DecodeStep::Eq(value, offset) => (common_sign(*value, *value, src) >> 8) & *offset,
        }
    }
}

// The sign that two differences have in common: negative exactly where the byte stands from the first to the last, so that no branch tells which it is.
fn common_sign(first: u8, last: u8, byte: u8) -> i16
    ensures { result ≡ common_sign first last byte }
{
    let above_first = first as i16 - 1 - byte as i16;
    let below_last = byte as i16 - (last as i16 + 1);
    above_first & below_last
}

/// A pass of `encode_6bits`, which adds to a sum that begins at the place plus `BASE`.
#[derive(Clone, Copy, Debug)]
pub enum EncodeStep {
    /// A bound on the sum so far, and what is added above it.
    Apply(u8, i16),

    /// A bound on the place, and what is added above it.
    Diff(u8, i16),
}

impl EncodeStep {
    // All bits of the shifted difference are set exactly above the bound.
    fn turned(&self, sum: i16, src: i16) -> i16
        requires { IsTrue (turned_fits self.now sum src) }
        ensures { result ≡ turned_by self.now sum src }
    {
        match self {
            EncodeStep::Apply(bound, offset) => ((*bound as i16 - sum) >> 8) & *offset,
            EncodeStep::Diff(bound, offset) => ((*bound as i16 - src) >> 8) & *offset,
        }
    }
}
