//! The alphabet of PBKDF2 hashes.
#![tactic(auto)]

ghost use Rattle.std.specs.Prelude.{◌≡◌, false, refl};
ghost use Rattle.base64_alphabet.specs.Group.{High};
ghost use Rattle.base64_alphabets.specs.Pbkdf2.{pbkdf2, pbkdf2_decoder, pbkdf2_encoder, pbkdf2_decodes, pbkdf2_encodes};

use base64_alphabet::{Alphabet, DecodeStep, EncodeStep, Unpad, group_high, split_high};

/// The standard alphabet with `.` in place of `+`, without padding, as in hashes of the modular crypt
/// format that begin with `$pbkdf2`.
#[derive(Clone, Copy, Debug, PartialEq, Eq, PartialOrd, Ord, Hash, Default)]
pub struct Base64Pbkdf2;

impl Alphabet for Base64Pbkdf2 {
    ghost form = { record { end = High; table = pbkdf2; padded = false } };

    ghost BASE = { 65 };

    ghost PADDED = { false };

    ghost decode_steps = { pbkdf2_decoder };

    ghost encode_steps = { pbkdf2_encoder };

    const BASE: u8 = b'A';

    const DECODER: &'static [DecodeStep] = &[
        DecodeStep::Range(b'A', b'Z', -64),
        DecodeStep::Range(b'a', b'z', -70),
        DecodeStep::Range(b'0', b'9', 5),
        DecodeStep::Eq(b'.', 63),
        DecodeStep::Eq(b'/', 64),
    ];

    const ENCODER: &'static [EncodeStep] = &[
        EncodeStep::Diff(25, 6),
        EncodeStep::Diff(51, -75),
        EncodeStep::Diff(61, -12),
        EncodeStep::Diff(62, 0),
    ];

    const PADDED: bool = false;

    type Unpadded = Self;

    fn decode_passes() -> &'static [DecodeStep] {
        Self::DECODER
    }

    fn encode_passes() -> &'static [EncodeStep] {
        Self::ENCODER
    }

    fn group_3bytes(c0: i16, c1: i16, c2: i16, c3: i16, dst: &mut [u8]) -> i16 {
        group_high(c0, c1, c2, c3, dst)
    }

    fn split_3bytes(a: u8, b: u8, c: u8) -> [i16; 4] {
        split_high(a, b, c)
    }

    ghost tells_padding = { refl };

    ghost lawful = { refl };

    ghost decoder_answers = { pbkdf2_decodes };

    ghost encoder_answers = { pbkdf2_encodes };
}

impl Unpad for Base64Pbkdf2 {
    ghost same_table = { refl };

    ghost same_end = { refl };

    ghost no_padding = { refl };
}
