//! The alphabet that is safe in URLs and file names (RFC 4648 section 5), with padding and without.
#![tactic(auto)]

ghost use Rattle.std.specs.Prelude.{◌≡◌, true, false, refl};
ghost use Rattle.base64_alphabets.specs.Url.{url_padded, url_unpadded, url_decoder, url_encoder, url_decodes, url_encodes};

use base64_alphabet::{Alphabet, DecodeStep, EncodeStep, Unpad, group_high, split_high};

/// The alphabet that is safe in URLs and file names, with `=` padding: `A` to `Z`, `a` to `z`, `0` to `9`,
/// `-` and `_`.
#[derive(Clone, Copy, Debug, PartialEq, Eq, PartialOrd, Ord, Hash, Default)]
pub struct Base64Url;

/// The alphabet that is safe in URLs and file names, without padding. JSON Web Keys and tokens are
/// written in it (RFC 7515 section 2).
#[derive(Clone, Copy, Debug, PartialEq, Eq, PartialOrd, Ord, Hash, Default)]
pub struct Base64UrlUnpadded;

const DECODER: &'static [DecodeStep] = &[
    DecodeStep::Range(b'A', b'Z', -64),
    DecodeStep::Range(b'a', b'z', -70),
    DecodeStep::Range(b'0', b'9', 5),
    DecodeStep::Eq(b'-', 63),
    DecodeStep::Eq(b'_', 64),
];

const ENCODER: &'static [EncodeStep] = &[
    EncodeStep::Diff(25, 6),
    EncodeStep::Diff(51, -75),
    EncodeStep::Diff(61, -13),
    EncodeStep::Diff(62, 49),
];

impl Alphabet for Base64Url {
    ghost form = { url_padded };

    ghost BASE = { 65 };

    ghost PADDED = { true };

    ghost decode_steps = { url_decoder };

    ghost encode_steps = { url_encoder };

    const BASE: u8 = b'A';

    const DECODER: &'static [DecodeStep] = DECODER;

    const ENCODER: &'static [EncodeStep] = ENCODER;

    const PADDED: bool = true;

    type Unpadded = Base64UrlUnpadded;

    fn decode_passes() -> &'static [DecodeStep] {
        Self::DECODER
    }

    fn encode_passes() -> &'static [EncodeStep] {
        Self::ENCODER
    }

    fn group_3bytes(c0: i16, c1: i16, c2: i16, c3: i16, dst: &mut [u8]) -> i16 {
        group_high(c0, c1, c2, c3, dst)
    }

    fn split_3bytes(a: u8, b: u8, c: u8) -> [i16; 4] {
        split_high(a, b, c)
    }

    ghost tells_padding = { refl };

    ghost lawful = { refl };

    ghost decoder_answers = { url_decodes };

    ghost encoder_answers = { url_encodes };
}

impl Unpad for Base64Url {
    ghost same_table = { refl };

    ghost same_end = { refl };

    ghost no_padding = { refl };
}

impl Alphabet for Base64UrlUnpadded {
    ghost form = { url_unpadded };

    ghost BASE = { 65 };

    ghost PADDED = { false };

    ghost decode_steps = { url_decoder };

    ghost encode_steps = { url_encoder };

    const BASE: u8 = b'A';

    const DECODER: &'static [DecodeStep] = DECODER;

    const ENCODER: &'static [EncodeStep] = ENCODER;

    const PADDED: bool = false;

    type Unpadded = Self;

    fn decode_passes() -> &'static [DecodeStep] {
        Self::DECODER
    }

    fn encode_passes() -> &'static [EncodeStep] {
        Self::ENCODER
    }

    fn group_3bytes(c0: i16, c1: i16, c2: i16, c3: i16, dst: &mut [u8]) -> i16 {
        group_high(c0, c1, c2, c3, dst)
    }

    fn split_3bytes(a: u8, b: u8, c: u8) -> [i16; 4] {
        split_high(a, b, c)
    }

    ghost tells_padding = { refl };

    ghost lawful = { refl };

    ghost decoder_answers = { url_decodes };

    ghost encoder_answers = { url_encodes };
}

impl Unpad for Base64UrlUnpadded {
    ghost same_table = { refl };

    ghost same_end = { refl };

    ghost no_padding = { refl };
}
