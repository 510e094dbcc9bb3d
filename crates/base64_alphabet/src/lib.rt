//! The alphabets of Base64: for each a table of 64 characters, computed by arithmetic passes without a
//! table look-up or a branch on a character, and the conversion of groups of three bytes and of whole
//! blocks of four characters.
//!
//! ```rust
//! /// The four characters of three bytes, and the place of a character in the alphabet, or -1.
//! pub fn one_group(bytes: &[u8; 3], character: u8) -> ([u8; 4], i16) {
//!     let mut text = [0; 4];
//!     Base64::encode_3bytes(bytes, &mut text);
//!     (text, Base64::decode_6bits(character))
//! }
//! ```
#![tactic(auto)]

mod alphabet;
mod blocks;
mod encode_lanes;
mod groups;
pub mod lanes;
mod steps;

pub use crate::alphabet::standard::{Base64, Base64Unpadded};
pub use crate::alphabet::{Alphabet, DecodeStep, EncodeStep, Unpad};
pub use crate::blocks::{decode_blocks, encode_blocks};
pub use crate::groups::{group_high, group_low, split_high, split_low};
pub use crate::steps::Steps;
