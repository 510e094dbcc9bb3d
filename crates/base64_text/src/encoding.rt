//! Whole texts.
#![tactic(auto)]

ghost use Rattle.std.specs.Prelude.{◌≡◌, ℕ, ◌<◌, ◌≤◌, ◌+◌, ◌*◌, ◌^◌, ◌↔◌, ◌⊎◌, List, length, take, drop, string_bytes, nat_lt, true, false, is_ok, Err, IsOk};
ghost use Rattle.std.specs.Prelude.{IsErr, IfOk, IfErr, OnErr, IsOkAnd, if◌then◌else◌};
ghost use Rattle.base64_alphabet.specs.Encoding.{encoding_of};
ghost use Rattle.base64_text.specs.Canonical.{IsBytes, IsNoEncoding, IsDecodeError, IsDecodeVecError, IsEncodeStringError, decoded_len, is_clean, loose_bytes};
ghost use Rattle.base64_text.specs.Canonical.{unpadded_len, has_lengths, has_whole_blocks};
ghost use Rattle.base64_text.specs.Counts.{decode_count, loose_count, encode_count, encoded_len as len_of};

use crate::decode_text::{decode_counting, decode_into, decode_to_vec};
use crate::encode_text::{
    ascii_text, encode_fitting, encode_plainly, encode_to_string, encoded_length,
};
use crate::errors::{Error, InvalidEncodingError, InvalidLengthError};
use crate::in_place::{decode_over, decode_over_plainly};
use base64_alphabet::{Alphabet, Steps};
use std::alloc::Global;
use std::sync::ledger::Ledger;

/// Whole texts of an alphabet (RFC 4648 section 4). It is implemented for every `Alphabet`, and must be imported to call
/// `Base64::encode_string` and its kin.
///
/// A text is decoded only if it is canonical (RFC 4648 section 3.5): there is one text for each list of
/// bytes, so equal bytes can be told by equal texts. Only `decode_in_place` is less strict.
///
/// The counted forms tell how many conversions of one character a call makes. For texts of one length that
/// aren't encodings it doesn't depend on where they differ from one.
pub trait Encoding: Alphabet {
    /// Decodes a text to the front of an output, and answers that part.
    ///
    /// These tests are made in order, and the first that fails tells the refusal: a padded text has whole
    /// blocks (`InvalidEncoding`), the output has room for what the text's length tells (`InvalidLength`),
    /// the text is an encoding (`InvalidEncoding`).
    fn decode<'o>(src: &[u8], dst: &'o mut [u8]) -> Result<&'o [u8], Error>
        ensures ok { IfOk result (λ bytes. src.now ≡ encoding_of Self.form bytes.now) }
        ensures bytes { IfOk result (λ bytes. IsBytes bytes.now) }
        ensures accepted { (b : List ℕ) → IsBytes b → src.now ≡ encoding_of Self.form b
            → length b ≤ length dst.old → IsOkAnd result (λ bytes. bytes.now ≡ b) }
        ensures err { IfErr result (IsDecodeError Self.form src.now (length dst.old)) }
    {
        match decode_into::<Self>(src, dst) {
            Ok(n) => Ok(&dst[..n]),
            Err(error) => Err(error),
        }
    }

    /// `decode`, which answers the number of bytes in place of the part, and tells what the output ends as: behind
    /// the bytes it is as it was. It errs where `decode` does. A refusal leaves what stands behind the room that the
    /// text's length tells, and where a test of lengths fails it leaves all.
    fn decode_into(src: &[u8], dst: &mut [u8]) -> Result<usize, Error>
        ensures within { IfOk result (λ n. n ≤ length dst.old) }
        ensures ok { IfOk result (λ n. src.now ≡ encoding_of Self.form (take n dst.new)) }
        ensures bytes { IfOk result (λ n. IsBytes (take n dst.new)) }
        ensures rest { IfOk result (λ n. drop n dst.new ≡ drop n dst.old) }
        ensures accepted { (b : List ℕ) → IsBytes b → src.now ≡ encoding_of Self.form b
            → length b ≤ length dst.old → IsOkAnd result (λ n. take n dst.new ≡ b) }
        ensures err { IfErr result (IsDecodeError Self.form src.now (length dst.old)) }
        ensures behind { drop (decoded_len (unpadded_len Self.form.padded src.now)) dst.new
            ≡ drop (decoded_len (unpadded_len Self.form.padded src.now)) dst.old }
        ensures untouched { has_lengths Self.form.padded src.now (length dst.old) ≡ false → dst.new ≡ dst.old }
    {
        decode_into::<Self>(src, dst)
    }

    /// Decodes a text to the front of its own buffer, and answers that part. Bits after the last byte may have
    /// any value, so several texts give the same bytes: take `decode` where that matters (RFC 4648 section 3.5).
    /// `InvalidEncodingError` tells that a character isn't in the table, that padding stands elsewhere than at the
    /// end, or that the length is that of no text.
    fn decode_in_place(buf: &mut [u8]) -> Result<&[u8], InvalidEncodingError>
        ensures bytes { IfOk result (λ bytes. bytes.now ≡ loose_bytes Self.form buf.old) }
        ensures clean { IsOk result ↔ (is_clean Self.form.table Self.form.padded buf.old ≡ true) }
    {
        match decode_over_plainly::<Self>(buf) {
            Some(n) => Ok(&buf[..n]),
            None => Err(InvalidEncodingError),
        }
    }

    /// Decodes a text into a vector of its own. `InvalidEncoding` tells that the text is no encoding; a text is
    /// never refused for its length.
    fn decode_vec(alloc: Global, input: &str) -> Result<Vec<u8>, Error>
        ensures ok { IfOk result (λ v. input.now ≡ encoding_of Self.form v.items) }
        ensures bytes { IfOk result (λ v. IsBytes v.items) }
        ensures value { (b : List ℕ) → IsBytes b → input.now ≡ encoding_of Self.form b
            → IfOk result (λ v. v.items ≡ b) }
        ensures err { IfErr result (IsDecodeVecError Self.form input.now) }
    {
        decode_to_vec::<Self>(alloc, input.as_bytes())
    }

    /// Writes the encoding to the front of an output, and answers that part as a text. `InvalidLengthError` tells
    /// that the output is shorter than the text, whose length `encoded_len` tells, or that four times the number of
    /// bytes exceeds `usize`.
    fn encode<'a>(src: &[u8], dst: &'a mut [u8]) -> Result<&'a str, InvalidLengthError>
        ensures text { IfOk result (λ text. text.now ≡ encoding_of Self.form src.now) }
        ensures fits { IsOk result ↔ ((4 * length src.now < 2 ^ 64)
            × (length (encoding_of Self.form src.now) ≤ length dst.old)) }
    {
        match encode_plainly::<Self>(src, dst) {
            Some(n) => Ok(ascii_text(&dst[..n])),
            None => Err(InvalidLengthError),
        }
    }

    /// `encode`, which answers the length of the text in place of the text, and tells what the output ends as:
    /// behind the text it is as it was, and after a refusal all of it. It errs where `encode` does.
    fn encode_into(src: &[u8], dst: &mut [u8]) -> Result<usize, InvalidLengthError>
        ensures within { IfOk result (λ n. n ≤ length dst.old) }
        ensures text { IfOk result (λ n. take n dst.new ≡ encoding_of Self.form src.now) }
        ensures rest { IfOk result (λ n. drop n dst.new ≡ drop n dst.old) }
        ensures fits { IsOk result ↔ ((4 * length src.now < 2 ^ 64)
            × (length (encoding_of Self.form src.now) ≤ length dst.old)) }
        ensures same { OnErr result (dst.new ≡ dst.old) }
    {
        match encode_plainly::<Self>(src, dst) {
            Some(n) => Ok(n),
            None => Err(InvalidLengthError),
        }
    }

    /// Encodes bytes into a text of its own. `InvalidLength` tells that there are too many: four times their
    /// number exceeds `usize`.
    fn encode_string(alloc: Global, input: &[u8]) -> Result<String, Error>
        ensures ok { IfOk result (λ text. string_bytes text ≡ encoding_of Self.form input.now) }
        ensures len { IfOk result (λ text. length (string_bytes text) ≡ len_of Self.form.padded (length input.now)) }
        ensures err { IfErr result (IsEncodeStringError (length input.now)) }
        ensures too_long { (result ≡ Err Error.InvalidLength) ↔ (2 ^ 64 ≤ 4 * length input.now) }
    {
        encode_to_string::<Self>(alloc, input)
    }

    /// The length of the encoding. It answers 0 where four times the number of bytes exceeds `usize`.
    fn encoded_len(bytes: &[u8]) -> usize
        ensures { result ≡ (if nat_lt (4 * length bytes.now) (2 ^ 64) then length (encoding_of Self.form bytes.now) else 0) }
    {
        match encoded_length(bytes.len(), Self::PADDED) {
            Some(len) => len,
            None => 0,
        }
    }

    /// `decode`, counted. It errs where `decode` does.
    fn decode_counted<'o, L: Ledger>(
        src: &[u8],
        dst: &'o mut [u8],
        steps: &mut Steps<L>,
    ) -> Result<&'o [u8], Error>
        ensures ok { IfOk result (λ bytes. src.now ≡ encoding_of Self.form bytes.now) }
        ensures bytes { IfOk result (λ bytes. IsBytes bytes.now) }
        ensures accepted { (b : List ℕ) → IsBytes b → src.now ≡ encoding_of Self.form b
            → length b ≤ length dst.old → IsOkAnd result (λ bytes. bytes.now ≡ b) }
        ensures err { IfErr result (IsDecodeError Self.form src.now (length dst.old)) }
        ensures steps { steps.new ≡ steps.old
            + (if has_lengths Self.form.padded src.now (length dst.old) then decode_count Self.form.table Self.form.padded src.now else 0) }
    {
        match decode_counting::<Self, L>(src, dst, steps) {
            Ok(n) => Ok(&dst[..n]),
            Err(error) => Err(error),
        }
    }

    /// `encode`, counted. It errs where `encode` does.
    fn encode_counted<'a, L: Ledger>(
        src: &[u8],
        dst: &'a mut [u8],
        steps: &mut Steps<L>,
    ) -> Result<&'a str, InvalidLengthError>
        ensures text { IfOk result (λ text. text.now ≡ encoding_of Self.form src.now) }
        ensures fits { IsOk result ↔ ((4 * length src.now < 2 ^ 64)
            × (length (encoding_of Self.form src.now) ≤ length dst.old)) }
        ensures steps { steps.new ≡ steps.old + (if is_ok result then encode_count Self.form.padded (length src.now) else 0) }
    {
        match encode_fitting::<Self, L>(src, dst, steps) {
            Some(n) => Ok(ascii_text(&dst[..n])),
            None => Err(InvalidLengthError),
        }
    }

    /// `decode_in_place`, counted. It errs where `decode_in_place` does.
    fn decode_in_place_counted<'b, L: Ledger>(
        buf: &'b mut [u8],
        steps: &mut Steps<L>,
    ) -> Result<&'b [u8], InvalidEncodingError>
        ensures bytes { IfOk result (λ bytes. bytes.now ≡ loose_bytes Self.form buf.old) }
        ensures clean { IsOk result ↔ (is_clean Self.form.table Self.form.padded buf.old ≡ true) }
        ensures steps { steps.new ≡ steps.old
            + (if has_whole_blocks Self.form.padded buf.old then loose_count (unpadded_len Self.form.padded buf.old) else 0) }
    {
        match decode_over::<Self, L>(buf, steps) {
            Some(n) => Ok(&buf[..n]),
            None => Err(InvalidEncodingError),
        }
    }
}

impl<T: Alphabet> Encoding for T {}
