//! Base64 texts in eight alphabets.
ghost use Rattle.std.specs.Prelude.{◌≡◌, ◌≢◌, ◌≤◌, ◌<◌, ◌*◌, ◌^◌, ℕ, List, length, take, drop, IfOk, IfErr, IsOk, IsOkAnd, OnErr, ◌↔◌, ◌⊎◌};
ghost use Rattle.base64_text.specs.Canonical.{IsBytes};
ghost use Rattle.kamzirda_c.specs.Base64.{IsDecodeErrorIn, encode_answer, encoding_in, length_answer, told_len};
ghost use Rattle.kamzirda_c.specs.Buffers.{Wanting, Written};
ghost use Rattle.kamzirda_c.specs.Status.{done, no_choice, no_room, refused};

use crate::status::{DONE, NO_CHOICE, NO_ROOM, REFUSED, TOO_LARGE};
use base64_alphabet::{Base64, Base64Unpadded};
use base64_alphabets::{Base64Bcrypt, Base64Pbkdf2, Base64Url, Base64UrlUnpadded};
use base64_crypt::{Base64Crypt, Base64ShaCrypt};
use base64_text::{Encoding, Error, InvalidLengthError};

const ALPHABETS: u32 = 8;

fn length_in(alphabet: u32, bytes: &[u8]) -> usize
    requires chosen { alphabet < 8 }
    requires small { 4 * length bytes.now < 2 ^ 64 }
    ensures { result ≡ length (encoding_in alphabet bytes.now) }
{
    match alphabet {
        0 => Base64::encoded_len(bytes),
        1 => Base64Unpadded::encoded_len(bytes),
        2 => Base64Url::encoded_len(bytes),
        3 => Base64UrlUnpadded::encoded_len(bytes),
        4 => Base64Bcrypt::encoded_len(bytes),
        5 => Base64Pbkdf2::encoded_len(bytes),
        6 => Base64Crypt::encoded_len(bytes),
        7 => Base64ShaCrypt::encoded_len(bytes),
        _ => unreachable!(),
    }
}

fn encode_in(alphabet: u32, bytes: &[u8], text: &mut [u8]) -> Result<usize, InvalidLengthError>
    requires chosen { alphabet < 8 }
    ensures written { IfOk result (λ n. Written text.old text.new n (encoding_in alphabet bytes.now)) }
    ensures fits { IsOk result ↔ ((4 * length bytes.now < 2 ^ 64) × (length (encoding_in alphabet bytes.now) ≤ length text.old)) }
    ensures same { OnErr result (text.new ≡ text.old) }
{
    match alphabet {
        0 => Base64::encode_into(bytes, text),
        1 => Base64Unpadded::encode_into(bytes, text),
        2 => Base64Url::encode_into(bytes, text),
        3 => Base64UrlUnpadded::encode_into(bytes, text),
        4 => Base64Bcrypt::encode_into(bytes, text),
        5 => Base64Pbkdf2::encode_into(bytes, text),
        6 => Base64Crypt::encode_into(bytes, text),
        7 => Base64ShaCrypt::encode_into(bytes, text),
        _ => unreachable!(),
    }
}

fn decode_in(alphabet: u32, text: &[u8], bytes: &mut [u8]) -> Result<usize, Error>
    requires chosen { alphabet < 8 }
    ensures within { IfOk result (λ n. n ≤ length bytes.old) }
    ensures text { IfOk result (λ n. text.now ≡ encoding_in alphabet (take n bytes.new)) }
    ensures bytes { IfOk result (λ n. IsBytes (take n bytes.new)) }
    ensures rest { IfOk result (λ n. drop n bytes.new ≡ drop n bytes.old) }
    ensures accepted { (b : List ℕ) → IsBytes b → text.now ≡ encoding_in alphabet b
        → length b ≤ length bytes.old → IsOkAnd result (λ n. take n bytes.new ≡ b) }
    ensures err { IfErr result (IsDecodeErrorIn alphabet text.now (length bytes.old)) }
    ensures behind { drop (told_len alphabet text.now) bytes.new ≡ drop (told_len alphabet text.now) bytes.old }
{
    match alphabet {
        0 => Base64::decode_into(text, bytes),
        1 => Base64Unpadded::decode_into(text, bytes),
        2 => Base64Url::decode_into(text, bytes),
        3 => Base64UrlUnpadded::decode_into(text, bytes),
        4 => Base64Bcrypt::decode_into(text, bytes),
        5 => Base64Pbkdf2::decode_into(text, bytes),
        6 => Base64Crypt::decode_into(text, bytes),
        7 => Base64ShaCrypt::decode_into(text, bytes),
        _ => unreachable!(),
    }
}

/// The length of the text that some bytes are encoded to.
#[unsafe(no_mangle)]
pub extern "C" fn kamzirda_base64_encoded_len(alphabet: u32, bytes: &[u8], len: &mut usize) -> u32
    ensures answer { result ≡ length_answer alphabet (length bytes.now) }
    ensures done { result ≡ done → len.new ≡ length (encoding_in alphabet bytes.now) }
    ensures kept { result ≢ done → len.new ≡ len.old }
{
    if alphabet >= ALPHABETS {
        return NO_CHOICE;
    }
    if bytes.len() > usize::MAX / 4 {
        return TOO_LARGE;
    }
    *len = length_in(alphabet, bytes);
    DONE
}

/// Encodes bytes to the front of an output.
#[unsafe(no_mangle)]
pub extern "C" fn kamzirda_base64_encode(
    alphabet: u32,
    bytes: &[u8],
    text: &mut [u8],
    len: &mut usize,
) -> u32
    ensures answer { result ≡ encode_answer alphabet bytes.now (length text.old) }
    ensures done { result ≡ done → Written text.old text.new len.new (encoding_in alphabet bytes.now) }
    ensures no_room { result ≡ no_room → Wanting text.old text.new len.new (encoding_in alphabet bytes.now) }
    ensures same { result ≢ done → text.new ≡ text.old }
    ensures kept { result ≢ done → result ≢ no_room → len.new ≡ len.old }
{
    if alphabet >= ALPHABETS {
        return NO_CHOICE;
    }
    if bytes.len() > usize::MAX / 4 {
        return TOO_LARGE;
    }
    match encode_in(alphabet, bytes, text) {
        Ok(n) => {
            *len = n;
            DONE
        }
        Err(_) => {
            *len = length_in(alphabet, bytes);
            NO_ROOM
        }
    }
}

/// Decodes a text to the front of an output, if it is canonical (RFC 4648 section 3.5).
#[unsafe(no_mangle)]
pub extern "C" fn kamzirda_base64_decode(
    alphabet: u32,
    text: &[u8],
    bytes: &mut [u8],
    len: &mut usize,
) -> u32
    ensures known { (result ≡ done) ⊎ (result ≡ refused) ⊎ (result ≡ no_choice) ⊎ (result ≡ no_room) }
    ensures done { result ≡ done → Written bytes.old bytes.new len.new (take len.new bytes.new) }
    ensures text { result ≡ done → text.now ≡ encoding_in alphabet (take len.new bytes.new) }
    ensures bytes { result ≡ done → IsBytes (take len.new bytes.new) }
    ensures accepted { alphabet < 8 → (b : List ℕ) → IsBytes b → text.now ≡ encoding_in alphabet b → length b ≤ length bytes.old
        → (result ≡ done) × (take len.new bytes.new ≡ b) }
    ensures refused { result ≡ refused → IsDecodeErrorIn alphabet text.now (length bytes.old) Error.InvalidEncoding }
    ensures no_choice { (result ≡ no_choice) ↔ (8 ≤ alphabet) }
    ensures no_room { result ≡ no_room → IsDecodeErrorIn alphabet text.now (length bytes.old) Error.InvalidLength }
    ensures behind { drop (told_len alphabet text.now) bytes.new ≡ drop (told_len alphabet text.now) bytes.old }
    ensures kept { result ≢ done → len.new ≡ len.old }
{
    if alphabet >= ALPHABETS {
        return NO_CHOICE;
    }
    match decode_in(alphabet, text, bytes) {
        Ok(n) => {
            *len = n;
            DONE
        }
        Err(Error::InvalidEncoding) => REFUSED,
        Err(_) => NO_ROOM,
    }
}
