//! The alphabet of `crypt`, read from the high end or the low one.
#![tactic(auto)]

ghost use Rattle.std.specs.Prelude.{◌≡◌, false, refl};
ghost use Rattle.base64_alphabet.specs.Group.{High, Low};
ghost use Rattle.base64_crypt.specs.Crypt.{crypt, crypt_decoder, crypt_encoder, crypt_decodes, crypt_encodes};

use base64_alphabet::{
    Alphabet, DecodeStep, EncodeStep, Unpad, group_high, group_low, split_high, split_low,
};

/// `.`, `/`, `0` to `9`, `A` to `Z`, `a` to `z`, without padding. A group is read with its first byte
/// highest, as in the old DES form of `crypt`. For its SHA-256 and SHA-512 forms take `Base64ShaCrypt`.
#[derive(Clone, Copy, Debug, PartialEq, Eq, PartialOrd, Ord, Hash, Default)]
pub struct Base64Crypt;

/// `.`, `/`, `0` to `9`, `A` to `Z`, `a` to `z`, without padding, for the SHA-256 and SHA-512 forms of
/// `crypt`. A group is read with its first byte lowest, and written from its lowest six bits.
#[derive(Clone, Copy, Debug, PartialEq, Eq, PartialOrd, Ord, Hash, Default)]
pub struct Base64ShaCrypt;

const DECODER: &'static [DecodeStep] = &[
    DecodeStep::Range(b'.', b'9', -45),
    DecodeStep::Range(b'A', b'Z', -52),
    DecodeStep::Range(b'a', b'z', -58),
];

const ENCODER: &'static [EncodeStep] = &[EncodeStep::Apply(b'9', 7), EncodeStep::Apply(b'Z', 6)];

impl Alphabet for Base64Crypt {
    ghost form = { record { end = High; table = crypt; padded = false } };

    ghost BASE = { 46 };

    ghost PADDED = { false };

    ghost decode_steps = { crypt_decoder };

    ghost encode_steps = { crypt_encoder };

    const BASE: u8 = b'.';

    const DECODER: &'static [DecodeStep] = DECODER;

    const ENCODER: &'static [EncodeStep] = ENCODER;

    const PADDED: bool = false;

    type Unpadded = Self;

    fn decode_passes() -> &'static [DecodeStep] {
        Self::DECODER
    }

    fn encode_passes() -> &'static [EncodeStep] {
        Self::ENCODER
    }

    fn group_3bytes(c0: i16, c1: i16, c2: i16, c3: i16, dst: &mut [u8]) -> i16 {
        group_high(c0, c1, c2, c3, dst)
    }

    fn split_3bytes(a: u8, b: u8, c: u8) -> [i16; 4] {
        split_high(a, b, c)
    }

    ghost tells_padding = { refl };

    ghost lawful = { refl };

    ghost decoder_answers = { crypt_decodes };

    ghost encoder_answers = { crypt_encodes };
}

impl Unpad for Base64Crypt {
    ghost same_table = { refl };

    ghost same_end = { refl };

    ghost no_padding = { refl };
}

impl Alphabet for Base64ShaCrypt {
    ghost form = { record { end = Low; table = crypt; padded = false } };

    ghost BASE = { 46 };

    ghost PADDED = { false };

    ghost decode_steps = { crypt_decoder };

    ghost encode_steps = { crypt_encoder };

    const BASE: u8 = b'.';

    const DECODER: &'static [DecodeStep] = DECODER;

    const ENCODER: &'static [EncodeStep] = ENCODER;

    const PADDED: bool = false;

    type Unpadded = Self;

    fn decode_passes() -> &'static [DecodeStep] {
        Self::DECODER
    }

    fn encode_passes() -> &'static [EncodeStep] {
        Self::ENCODER
    }

    fn group_3bytes(c0: i16, c1: i16, c2: i16, c3: i16, dst: &mut [u8]) -> i16 {
        group_low(c0, c1, c2, c3, dst)
    }

    fn split_3bytes(a: u8, b: u8, c: u8) -> [i16; 4] {
        split_low(a, b, c)
    }

    ghost tells_padding = { refl };

    ghost lawful = { refl };

    ghost decoder_answers = { crypt_decodes };

    ghost encoder_answers = { crypt_encodes };
}

impl Unpad for Base64ShaCrypt {
    ghost same_table = { refl };

    ghost same_end = { refl };

    ghost no_padding = { refl };
}
