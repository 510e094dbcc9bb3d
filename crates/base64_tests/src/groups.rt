//! Whole blocks and single characters of each alphabet.

ghost use Rattle.std.specs.Prelude.{◌≡◌, ◌<◌};

use crate::checks::same;
use base64_alphabet::{Alphabet, Base64, Base64Unpadded, Steps, decode_blocks, encode_blocks};
use base64_crypt::Base64ShaCrypt;
use std::marker::Brand;
use std::sync::ledger::{Blank, Ledger};

// Two groups to their characters and back, each conversion counted.
fn there_and_back<E: Alphabet, L: Ledger>(bytes: &[u8; 6], blank: Blank) -> ([u8; 8], [u8; 6], bool)
    requires name { blank.name ≡ L.name }
    requires parts { blank.parts ≡ L.parts }
    requires some { 0 < blank.parts }
{
    let mut steps = Steps::<L>::new(blank);
    let mut text = [0u8; 8];
    let mut back = [0u8; 6];
    encode_blocks::<E, L>(bytes, &mut text, &mut steps);
    let good = decode_blocks::<E, L>(&text, &mut back, &mut steps);
    (text, back, good)
}

fn converted<E: Alphabet>(bytes: &[u8; 6]) -> ([u8; 8], [u8; 6], bool) {
    there_and_back::<E, Brand>(bytes, Blank::new(1))
}

// RFC 4648 section 10 for the standard alphabet. The texts of the low end are from python: each group as an
// integer with its first byte lowest, its six-bit digits taken from the lowest by `number >> 6 * i & 63`.
#[test]
fn converts_whole_blocks(rt: HostRuntime) {
    let foobar = b"foobar";
    let standard = converted::<Base64>(foobar);
    same(&rt, "standard", &standard, &(*b"Zm9vYmFy", *foobar, true));
    let unpadded = converted::<Base64Unpadded>(foobar);
    same(&rt, "unpadded", &unpadded, &(*b"Zm9vYmFy", *foobar, true));
    let sha_crypt = converted::<Base64ShaCrypt>(foobar);
    same(&rt, "SHA-crypt", &sha_crypt, &(*b"axqPW3aQ", *foobar, true));
}

// The places of RFC 4648 section 4, table 1.
#[test]
fn converts_single_characters(rt: HostRuntime) {
    let places = [
        (b'A', 0),
        (b'Z', 25),
        (b'a', 26),
        (b'z', 51),
        (b'0', 52),
        (b'9', 61),
        (b'+', 62),
        (b'/', 63),
        (b'=', -1),
        (b'-', -1),
        (0, -1),
        (255, -1),
    ];
    for (character, place) in places {
        same(&rt, "a place", &Base64::decode_6bits(character), &place);
    }
    same(&rt, "standard", &Base64::encode_6bits(62), &b'+');
    same(&rt, "SHA-crypt", &Base64ShaCrypt::encode_6bits(0), &b'.');
}
