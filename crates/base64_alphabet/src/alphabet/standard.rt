//! The standard alphabet (RFC 4648 section 4), with padding and without.
#![tactic(auto)]

ghost use Rattle.std.specs.Prelude.{◌≡◌};

use crate::alphabet::{Alphabet, DecodeStep, EncodeStep, Unpad};
use crate::groups::{group_high, split_high};

/// The standard alphabet with `=` padding: `A` to `Z`, `a` to `z`, `0` to `9`, `+` and `/`.
#[derive(Clone, Copy, Debug, PartialEq, Eq, PartialOrd, Ord, Hash, Default)]
pub struct Base64;

/// The standard alphabet without padding.
#[derive(Clone, Copy, Debug, PartialEq, Eq, PartialOrd, Ord, Hash, Default)]
pub struct Base64Unpadded;

const DECODER: &'static [DecodeStep] = &[
    DecodeStep::Range(b'A', b'Z', -64),
    DecodeStep::Range(b'a', b'z', -70),
    DecodeStep::Range(b'0', b'9', 5),
    DecodeStep::Eq(b'+', 63),
    DecodeStep::Eq(b'/', 64),
];

const ENCODER: &'static [EncodeStep] = &[
    EncodeStep::Diff(25, 6),
    EncodeStep::Diff(51, -75),
    EncodeStep::Diff(61, -15),
    EncodeStep::Diff(62, 3),
];

impl Alphabet for Base64 {
    ghost use Rattle.std.specs.Prelude.{true, refl};
    ghost use Rattle.base64_alphabet.specs.Standard.{standard_padded, standard_decoder, standard_encoder, standard_decodes, standard_encodes};

    ghost form = { standard_padded };

    ghost BASE = { 65 };

    ghost PADDED = { true };

    ghost decode_steps = { standard_decoder };

    ghost encode_steps = { standard_encoder };

    const BASE: u8 = b'A';

    const DECODER: &'static [DecodeStep] = DECODER;

    const ENCODER: &'static [EncodeStep] = ENCODER;

    const PADDED: bool = true;

    type Unpadded = Base64Unpadded;

    fn decode_passes() -> &'static [DecodeStep] {
        Self::DECODER
    }

    fn encode_passes() -> &'static [EncodeStep] {
        Self::ENCODER
    }

    fn group_3bytes(c0: i16, c1: i16, c2: i16, c3: i16, dst: &mut [u8]) -> i16 {
        group_high(c0, c1, c2, c3, dst)
    }

    fn split_3bytes(a: u8, b: u8, c: u8) -> [i16; 4] {
        split_high(a, b, c)
    }

    ghost tells_padding = { refl };

    ghost lawful = { refl };

    ghost decoder_answers = { standard_decodes };

    ghost encoder_answers = { standard_encodes };
}

impl Unpad for Base64 {
    ghost use Rattle.std.specs.Prelude.{refl};

    ghost same_table = { refl };

    ghost same_end = { refl };

    ghost no_padding = { refl };
}

impl Alphabet for Base64Unpadded {
    ghost use Rattle.std.specs.Prelude.{false, refl};
    ghost use Rattle.base64_alphabet.specs.Standard.{standard_unpadded, standard_decoder, standard_encoder, standard_decodes, standard_encodes};

    ghost form = { standard_unpadded };

    ghost BASE = { 65 };

    ghost PADDED = { false };

    ghost decode_steps = { standard_decoder };

    ghost encode_steps = { standard_encoder };

    const BASE: u8 = b'A';

    const DECODER: &'static [DecodeStep] = DECODER;

    const ENCODER: &'static [EncodeStep] = ENCODER;

    const PADDED: bool = false;

    type Unpadded = Base64Unpadded;

    fn decode_passes() -> &'static [DecodeStep] {
        Self::DECODER
    }

    fn encode_passes() -> &'static [EncodeStep] {
        Self::ENCODER
    }

    fn group_3bytes(c0: i16, c1: i16, c2: i16, c3: i16, dst: &mut [u8]) -> i16 {
        group_high(c0, c1, c2, c3, dst)
    }

    fn split_3bytes(a: u8, b: u8, c: u8) -> [i16; 4] {
        split_high(a, b, c)
    }

    ghost tells_padding = { refl };

    ghost lawful = { refl };

    ghost decoder_answers = { standard_decodes };

    ghost encoder_answers = { standard_encodes };
}

impl Unpad for Base64Unpadded {
    ghost use Rattle.std.specs.Prelude.{refl};

    ghost same_table = { refl };

    ghost same_end = { refl };

    ghost no_padding = { refl };
}
