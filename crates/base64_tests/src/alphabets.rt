//! The eight alphabets against the tables of their standards.

ghost use Rattle.std.specs.Prelude.{◌≡◌, ◌<◌};

use crate::checks::{good, same};
use base64_alphabet::{Alphabet, Base64, Base64Unpadded, DecodeStep, EncodeStep, Steps};
use base64_alphabets::{Base64Bcrypt, Base64Pbkdf2, Base64Url, Base64UrlUnpadded};
use base64_crypt::{Base64Crypt, Base64ShaCrypt};
use std::alloc::Global;
use std::hash::Hash;
use std::marker::Brand;
use std::process::Abort;
use std::sync::ledger::{Blank, Ledger};

// RFC 4648 section 4, table 1, and section 5, table 2.
const STANDARD: &'static [u8; 64] =
    b"ABCDEFGHIJKLMNOPQRSTUVWXYZabcdefghijklmnopqrstuvwxyz0123456789+/";

const URL: &'static [u8; 64] = b"ABCDEFGHIJKLMNOPQRSTUVWXYZabcdefghijklmnopqrstuvwxyz0123456789-_";

// `Base64Code` of OpenBSD's bcrypt, the digits of POSIX `a64l`, and passlib's `ab64`, which has `.` for `+`.
const BCRYPT: &'static [u8; 64] =
    b"./ABCDEFGHIJKLMNOPQRSTUVWXYZabcdefghijklmnopqrstuvwxyz0123456789";

const CRYPT: &'static [u8; 64] =
    b"./0123456789ABCDEFGHIJKLMNOPQRSTUVWXYZabcdefghijklmnopqrstuvwxyz";

const PBKDF2: &'static [u8; 64] =
    b"ABCDEFGHIJKLMNOPQRSTUVWXYZabcdefghijklmnopqrstuvwxyz0123456789./";

// The sum of the passes over `DECODER`, by their arithmetic: each difference is -1 in its high bits exactly
// within the range.
fn decoded(steps: &[DecodeStep], byte: u8) -> i16 {
    let c = byte as i16;
    let mut sum = -1i16;
    for step in steps {
        let (first, last, added) = match step {
            DecodeStep::Range(first, last, offset) => {
                (*first as i16, *last as i16, c.wrapping_add(*offset))
            }
            DecodeStep::Eq(value, offset) => (*value as i16, *value as i16, *offset),
        };
        let within = first.wrapping_sub(1).wrapping_sub(c) & c.wrapping_sub(last.wrapping_add(1));
        sum = sum.wrapping_add((within >> 8) & added);
    }
    sum
}

// The sum of the passes over `ENCODER`.
fn encoded(base: u8, steps: &[EncodeStep], place: i16) -> i16 {
    let mut sum = place.wrapping_add(base as i16);
    for step in steps {
        sum = sum.wrapping_add(match step {
            EncodeStep::Apply(bound, offset) => ((*bound as i16).wrapping_sub(sum) >> 8) & *offset,
            EncodeStep::Diff(bound, offset) => ((*bound as i16).wrapping_sub(place) >> 8) & *offset,
        });
    }
    sum
}

// Every place and every byte, by the calls and by the passes over the constants.
fn agrees<E: Alphabet>(rt: &impl Abort, table: &[u8; 64]) {
    let mut places = [-1i16; 256];
    for (place, character) in table.iter().enumerate() {
        let place = place as i16;
        places[*character as usize] = place;
        let found = encoded(E::BASE, E::ENCODER, place);
        same(rt, "by the passes", &found, &(*character as i16));
        if 0 <= place && place < 64 {
            same(rt, "by the call", &E::encode_6bits(place), character);
        }
    }
    for (byte, place) in places.iter().enumerate() {
        same(rt, "by the call", &E::decode_6bits(byte as u8), place);
        same(rt, "by the passes", &decoded(E::DECODER, byte as u8), place);
    }
}

#[test]
fn agree_with_their_tables(rt: HostRuntime) {
    agrees::<Base64>(&rt, STANDARD);
    agrees::<Base64Unpadded>(&rt, STANDARD);
    agrees::<Base64Url>(&rt, URL);
    agrees::<Base64UrlUnpadded>(&rt, URL);
    agrees::<Base64Bcrypt>(&rt, BCRYPT);
    agrees::<Base64Crypt>(&rt, CRYPT);
    agrees::<Base64ShaCrypt>(&rt, CRYPT);
    agrees::<Base64Pbkdf2>(&rt, PBKDF2);
}

// The group `foo` and its block, plainly and counted.
fn converts_counting<E: Alphabet, L: Ledger>(rt: &impl Abort, block: &[u8; 4], blank: Blank)
    requires name { blank.name ≡ L.name }
    requires parts { blank.parts ≡ L.parts }
    requires some { 0 < blank.parts }
{
    let mut steps = Steps::<L>::new(blank);
    let mut text = [0u8; 4];
    E::encode_3bytes(b"foo", &mut text);
    same(rt, "a block", &text, block);
    let mut bytes = [0u8; 3];
    let answer = E::decode_3bytes(block, &mut bytes);
    same(rt, "a group", &(answer, bytes), &(0, *b"foo"));

    let mut counted_text = [0u8; 4];
    E::encode_3bytes_counted(b"foo", &mut counted_text, &mut steps);
    same(rt, "a counted block", &counted_text, block);
    let mut counted_bytes = [0u8; 3];
    let counted_answer = E::decode_3bytes_counted(block, &mut counted_bytes, &mut steps);
    same(
        rt,
        "a counted group",
        &(counted_answer, counted_bytes),
        &(0, *b"foo"),
    );
    let place = E::decode_6bits_counted(b'=', &mut steps);
    same(rt, "a place", &place, &-1);
    let character = E::encode_6bits_counted(0, &mut steps);
    same(rt, "a character", &character, &E::BASE);
}

fn converts<E: Alphabet>(rt: &impl Abort, block: &[u8; 4]) {
    converts_counting::<E, Brand>(rt, block, Blank::new(1));
}

// RFC 4648 section 10 for the standard alphabet. The other blocks are from python: `base64.b64encode`, its
// characters exchanged by their places in the tables above; from the low end, the digits of
// `int.from_bytes(b"foo", "little")` by `number >> 6 * i & 63`.
#[test]
fn convert_a_group(rt: HostRuntime) {
    converts::<Base64>(&rt, b"Zm9v");
    converts::<Base64Unpadded>(&rt, b"Zm9v");
    converts::<Base64Url>(&rt, b"Zm9v");
    converts::<Base64UrlUnpadded>(&rt, b"Zm9v");
    converts::<Base64Bcrypt>(&rt, b"Xk7t");
    converts::<Base64Crypt>(&rt, b"Naxj");
    converts::<Base64ShaCrypt>(&rt, b"axqP");
    converts::<Base64Pbkdf2>(&rt, b"Zm9v");
}

// The name that an alphabet's value shows, by what it offers to generic code, threads included.
fn is_named<E: Alphabet + Default + Ord + Hash + Send + Sync>(
    rt: &impl Abort,
    alloc: Global,
    name: &str,
) -> bool {
    let shown = good(rt, "memory", format!(in alloc; "{:?}", E::default()));
    shown.as_str() == name
}

#[test]
fn have_their_traits(rt: HostRuntime) {
    assert!(rt; is_named::<Base64>(&rt, rt.alloc(), "Base64"));
    assert!(rt; is_named::<Base64Unpadded>(&rt, rt.alloc(), "Base64Unpadded"));
    assert!(rt; is_named::<Base64Url>(&rt, rt.alloc(), "Base64Url"));
    assert!(rt; is_named::<Base64UrlUnpadded>(&rt, rt.alloc(), "Base64UrlUnpadded"));
    assert!(rt; is_named::<Base64Bcrypt>(&rt, rt.alloc(), "Base64Bcrypt"));
    assert!(rt; is_named::<Base64Crypt>(&rt, rt.alloc(), "Base64Crypt"));
    assert!(rt; is_named::<Base64ShaCrypt>(&rt, rt.alloc(), "Base64ShaCrypt"));
    assert!(rt; is_named::<Base64Pbkdf2>(&rt, rt.alloc(), "Base64Pbkdf2"));
}
