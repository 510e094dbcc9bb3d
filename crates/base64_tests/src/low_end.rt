//! A caller's own alphabet, whose groups are read from the low end: an example of how one is written.

ghost use Rattle.std.specs.Prelude.{◌≡◌, false, refl};
ghost use Rattle.base64_alphabet.specs.Group.{Low};
ghost use Rattle.base64_alphabet.specs.Standard.{standard, standard_decoder, standard_encoder, standard_decodes, standard_encodes};

use crate::lanes::{reads_back, refused};
use crate::texts::agrees;
use base64ct::{Alphabet, DecodeStep, EncodeStep, group_low, split_low};

/// The characters of the standard alphabet, without padding. A group is read with its first byte lowest. Its
/// passes of encoding read the place alone, so it is encoded by lanes.
#[derive(Clone, Copy, Debug, PartialEq, Eq)]
pub(crate) struct LowStandard;

impl Alphabet for LowStandard {
    ghost form = { record { end = Low; table = standard; padded = false } };

    ghost BASE = { 65 };

    ghost PADDED = { false };

    ghost decode_steps = { standard_decoder };

    ghost encode_steps = { standard_encoder };

    const BASE: u8 = b'A';

    const DECODER: &'static [DecodeStep] = &[
        DecodeStep::Range(b'A', b'Z', -64),
        DecodeStep::Range(b'a', b'z', -70),
        DecodeStep::Range(b'0', b'9', 5),
        DecodeStep::Eq(b'+', 63),
        DecodeStep::Eq(b'/', 64),
    ];

    const ENCODER: &'static [EncodeStep] = &[
        EncodeStep::Diff(25, 6),
        EncodeStep::Diff(51, -75),
        EncodeStep::Diff(61, -15),
        EncodeStep::Diff(62, 3),
    ];

    const PADDED: bool = false;

    type Unpadded = Self;

    fn decode_passes() -> &'static [DecodeStep] {
        Self::DECODER
    }

    fn encode_passes() -> &'static [EncodeStep] {
        Self::ENCODER
    }

    fn group_3bytes(c0: i16, c1: i16, c2: i16, c3: i16, dst: &mut [u8]) -> i16 {
        group_low(c0, c1, c2, c3, dst)
    }

    fn split_3bytes(a: u8, b: u8, c: u8) -> [i16; 4] {
        split_low(a, b, c)
    }

    ghost tells_padding = { refl };

    ghost lawful = { refl };

    ghost decoder_answers = { standard_decodes };

    ghost encoder_answers = { standard_encodes };
}

// The texts are by python: the digits of `int.from_bytes(group, "little")` by `number >> 6 * i & 63`.
#[test]
fn are_encoded_and_read_back(rt: HostRuntime) {
    let texts =
        " 7D 7/P 7/vv 7/vvAA 7/vvAAB 7/vvAAxg 7/vvAAxgaC 7/vvAAxga2C 7/vvAAxga2yB 7/vvAAxga2yBhD 7/vvAAxga2yBhzF 7/vvAAxga2yBhzl/";
    assert!(rt; agrees::<LowStandard>(rt.alloc(), texts));
    let mut bytes = [0u8; 130];
    for (i, byte) in bytes.iter_mut().enumerate() {
        *byte = (i % 256) as u8;
    }
    assert!(rt; reads_back::<LowStandard>(rt.alloc(), &bytes));
    assert!(rt; !refused::<LowStandard>(&[b'A'; 128]));
    assert!(rt; refused::<LowStandard>(&[b'!'; 128]));
}
