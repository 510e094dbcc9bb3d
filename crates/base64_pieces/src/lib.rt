//! Base64 in pieces: into whatever pieces an input or an output is cut, encoders and decoders (crate `base64ct`) give the same text and the same bytes.
//!
//! ```rust
//! /// The text of all the pieces in lines of 64 characters, however the bytes are cut.
//! pub fn of_pieces<'o>(output: &'o mut [u8], pieces: &[&[u8]]) -> Result<&'o str, Error> {
//!     encode_pieces::<Base64>(output, Some((64, LineEnding::LF)), pieces)
//! }
//! ```
#![tactic(auto)]

mod decoding;
mod encoding;

pub use decoding::decode_pieces;
pub use encoding::encode_pieces;

#[cfg(test)]
mod tests;
