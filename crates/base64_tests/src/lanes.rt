//! Decoding and encoding in lanes: lengths around the 32 characters of a part, and a bad character in each
//! lane.

ghost use Rattle.std.specs.Prelude.{◌≡◌, ◌<◌, List, ℕ, length, true, false};
ghost use Rattle.base64_alphabet.specs.Standard.{standard};
ghost use Rattle.base64ct.specs.Canonical.{is_clean, unpadded_len};
ghost use Rattle.base64ct.specs.Counts.{decode_count};

use crate::checks::same;
use crate::texts::is_read;
use base64ct::{
    Alphabet, Base64, Base64Bcrypt, Base64Crypt, Base64Pbkdf2, Base64ShaCrypt, Base64Unpadded,
    Base64Url, Base64UrlUnpadded, Encoding, Error, InvalidEncodingError, Steps, lanes,
};
use std::alloc::Global;
use std::marker::Brand;
use std::sync::ledger::{Blank, Ledger};

// Whether the encodings of the fronts of the bytes begin with their groups one by one, and are decoded to
// the fronts.
pub(crate) fn reads_back<E: Encoding>(alloc: Global, bytes: &[u8; 130]) -> bool {
    let mut groups = [0u8; 172];
    for group in 0..43 {
        E::encode_3bytes(
            &bytes[3 * group..3 * group + 3],
            &mut groups[4 * group..4 * group + 4],
        );
    }
    for n in 0..131 {
        let front = &bytes[..n];
        let Ok(text) = E::encode_string(alloc, front) else {
            return false;
        };
        if !text.as_bytes().starts_with(&groups[..4 * (n / 3)])
            || !is_read::<E>(alloc, text.as_str(), front)
        {
            return false;
        }
    }
    true
}

// The texts of single groups are those of python in another test.
#[test]
fn reads_back_each_length(rt: HostRuntime) {
    let mut bytes = [0u8; 130];
    for (i, byte) in bytes.iter_mut().enumerate() {
        *byte = (i % 256) as u8;
    }
    let alloc = rt.alloc();
    assert!(rt; reads_back::<Base64>(alloc, &bytes));
    assert!(rt; reads_back::<Base64Unpadded>(alloc, &bytes));
    assert!(rt; reads_back::<Base64Url>(alloc, &bytes));
    assert!(rt; reads_back::<Base64UrlUnpadded>(alloc, &bytes));
    assert!(rt; reads_back::<Base64Bcrypt>(alloc, &bytes));
    assert!(rt; reads_back::<Base64Crypt>(alloc, &bytes));
    assert!(rt; reads_back::<Base64ShaCrypt>(alloc, &bytes));
    assert!(rt; reads_back::<Base64Pbkdf2>(alloc, &bytes));
}

// What the count of 128 characters with a bad one is, by hand: 32 blocks and one more.
fn bad_part_takes()
    ensures { (t : List ℕ) → length t ≡ 128 → unpadded_len true t ≡ 128 → is_clean standard true t ≡ false
        → decode_count standard true t ≡ 132 }
{}

fn refused_from<E: Encoding, L: Ledger>(text: &[u8; 128], blank: Blank) -> bool
    requires name { blank.name ≡ L.name }
    requires parts { blank.parts ≡ L.parts }
    requires some { 0 < blank.parts }
{
    let mut steps = Steps::<L>::new(blank);
    let mut out = [0u8; 96];
    let mut copy = *text;
    let refused = E::decode_counted(&text[..], &mut out, &mut steps) == Err(Error::InvalidEncoding);
    let in_place = E::decode_in_place_counted(&mut copy[..], &mut steps);
    refused && in_place == Err(InvalidEncodingError)
}

pub(crate) fn refused<E: Encoding>(text: &[u8; 128]) -> bool {
    refused_from::<E, Brand>(text, Blank::new(1))
}

// Whether a bad character at each of the 128 places is seen, and none where there is none.
fn sees_each<E: Encoding>() -> bool {
    let mut seen = !refused::<E>(&[b'A'; 128]);
    for at in 0..128 {
        let mut text = [b'A'; 128];
        text[at] = b'!';
        seen &= refused::<E>(&text);
    }
    seen
}

#[test]
fn see_a_bad_character_in_each_lane(rt: HostRuntime) {
    bad_part_takes();
    assert!(rt; sees_each::<Base64>());
    assert!(rt; sees_each::<Base64Unpadded>());
    assert!(rt; sees_each::<Base64Url>());
    assert!(rt; sees_each::<Base64UrlUnpadded>());
    assert!(rt; sees_each::<Base64Bcrypt>());
    assert!(rt; sees_each::<Base64Crypt>());
    assert!(rt; sees_each::<Base64ShaCrypt>());
    assert!(rt; sees_each::<Base64Pbkdf2>());
}

fn converted_from<E: Alphabet, L: Ledger>(
    part: &[u8; 32],
    text: &[u8; 36],
    blank: Blank,
) -> ([i16; 32], [u8; 28], i16)
    requires name { blank.name ≡ L.name }
    requires parts { blank.parts ≡ L.parts }
    requires some { 0 < blank.parts }
{
    let mut steps = Steps::<L>::new(blank);
    let mut out = [7u8; 28];
    let places = lanes::decode_32::<E, L>(part, &mut steps);
    let answer = lanes::decode_run::<E, L>(&text[..], &mut out, &mut steps);
    (places, out, answer)
}

fn converted<E: Alphabet>(part: &[u8; 32], text: &[u8; 36]) -> ([i16; 32], [u8; 28], i16) {
    converted_from::<E, Brand>(part, text, Blank::new(1))
}

// The places of RFC 4648 section 4, table 1, and a text of its section 10.
#[test]
fn converts_a_part_and_a_run(rt: HostRuntime) {
    let places = [
        0, 25, 26, 51, 52, 61, 62, 63, -1, -1, -1, -1, 1, 2, 3, 4, 5, 6, 7, 8, 9, 10, 11, 12, 13,
        14, 15, 16, 17, 18, 19, 20,
    ];
    let part = b"AZaz09+/=-\x00\xffBCDEFGHIJKLMNOPQRSTU";
    let (converted_places, out, answer) = converted::<Base64>(
        part,
        b"Zm9vYmFyZm9vYmFyZm9vYmFyZm9vYmFyZm9v",
    );
    same(&rt, "a part", &converted_places, &places);
    same(&rt, "a run", &out, b"foobarfoobarfoobarfoobarfoo\x07");
    same(&rt, "an answer", &answer, &0);
    let refused = converted::<Base64>(part, b"Zm9vYmFyZm9vYmFyZm9vYmFyZm9vYmF!Zm9v");
    same(&rt, "a refusal", &(refused.2, refused.1[27]), &(1, 7));
}
