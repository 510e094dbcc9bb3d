//! Whole blocks of four characters, and whole groups of three bytes.
#![tactic(auto)]

ghost use Rattle.std.specs.Prelude.{◌≡◌, ℕ, ◌≤◌, ◌+◌, ◌*◌, ◌/◌, ◌%◌, ◌++◌, drop, length, true};
ghost use Rattle.base64_alphabet.specs.Table.{all_in};
ghost use Rattle.base64_alphabet.specs.Encoding.{bytes_of_blocks, characters};

use crate::alphabet::Alphabet;
use crate::steps::Steps;
use crate::{encode_lanes, lanes};
use std::sync::ledger::Ledger;

/// Converts whole blocks of characters, and answers whether each character is in the table. The bytes are
/// open where one isn't. Every block is converted in any case, so that the number of conversions doesn't
/// tell where a bad character stands.
pub fn decode_blocks<E: Alphabet, L: Ledger>(
    src: &[u8],
    dst: &mut [u8],
    steps: &mut Steps<L>,
) -> bool
    requires whole { length src.now % 4 ≡ 0 }
    requires room { 3 * (length src.now / 4) ≤ length dst.old }
    ensures answer { result ≡ all_in E.form.table src.now }
    ensures written { all_in E.form.table src.now ≡ true →
        dst.new ≡ bytes_of_blocks E.form.end E.form.table src.now ++ drop (3 * (length src.now / 4)) dst.old }
    ensures rest { drop (3 * (length src.now / 4)) dst.new ≡ drop (3 * (length src.now / 4)) dst.old }
    ensures steps { steps.new ≡ steps.old + 4 * (length src.now / 4) }
{
    lanes::decode_run::<E, L>(src, dst, steps) == 0
}

/// Converts whole groups of bytes to their characters.
pub fn encode_blocks<E: Alphabet, L: Ledger>(src: &[u8], dst: &mut [u8], steps: &mut Steps<L>)
    requires whole { length src.now % 3 ≡ 0 }
    requires room { 4 * (length src.now / 3) ≤ length dst.old }
    ensures written { dst.new ≡ characters E.form.end E.form.table src.now ++ drop (4 * (length src.now / 3)) dst.old }
    ensures steps { steps.new ≡ steps.old + 4 * (length src.now / 3) }
{
    if encode_lanes::passes_read_places::<E>() {
        encode_lanes::encode_run::<E, L>(src, dst, steps);
    } else {
        encode_lanes::encode_each::<E, L>(src, dst, steps);
    }
}
