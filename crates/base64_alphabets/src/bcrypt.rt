//! The alphabet of bcrypt.
#![tactic(auto)]

ghost use Rattle.std.specs.Prelude.{◌≡◌, false, refl};
ghost use Rattle.base64_alphabet.specs.Group.{High};
ghost use Rattle.base64_alphabets.specs.Bcrypt.{bcrypt, bcrypt_decoder, bcrypt_encoder, bcrypt_decodes, bcrypt_encodes};

use base64_alphabet::{Alphabet, DecodeStep, EncodeStep, Unpad, group_high, split_high};

/// `.`, `/`, `A` to `Z`, `a` to `z`, `0` to `9`, without padding, as in the salts and hashes of bcrypt.
#[derive(Clone, Copy, Debug, PartialEq, Eq, PartialOrd, Ord, Hash, Default)]
pub struct Base64Bcrypt;

impl Alphabet for Base64Bcrypt {
    ghost form = { record { end = High; table = bcrypt; padded = false } };

    ghost BASE = { 46 };

    ghost PADDED = { false };

    ghost decode_steps = { bcrypt_decoder };

    ghost encode_steps = { bcrypt_encoder };

    const BASE: u8 = b'.';

    const DECODER: &'static [DecodeStep] = &[
        DecodeStep::Range(b'.', b'/', -45),
        DecodeStep::Range(b'A', b'Z', -62),
        DecodeStep::Range(b'a', b'z', -68),
        DecodeStep::Range(b'0', b'9', 7),
    ];

    const ENCODER: &'static [EncodeStep] = &[
        EncodeStep::Apply(b'/', 17),
        EncodeStep::Apply(b'Z', 6),
        EncodeStep::Apply(b'z', -75),
    ];

    const PADDED: bool = false;

    type Unpadded = Self;

    fn decode_passes() -> &'static [DecodeStep] {
        Self::DECODER
    }

    fn encode_passes() -> &'static [EncodeStep] {
        Self::ENCODER
    }

    fn group_3bytes(c0: i16, c1: i16, c2: i16, c3: i16, dst: &mut [u8]) -> i16 {
        group_high(c0, c1, c2, c3, dst)
    }

    fn split_3bytes(a: u8, b: u8, c: u8) -> [i16; 4] {
        split_high(a, b, c)
    }

    ghost tells_padding = { refl };

    ghost lawful = { refl };

    ghost decoder_answers = { bcrypt_decodes };

    ghost encoder_answers = { bcrypt_encodes };
}

impl Unpad for Base64Bcrypt {
    ghost same_table = { refl };

    ghost same_end = { refl };

    ghost no_padding = { refl };
}
