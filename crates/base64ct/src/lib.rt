//! Base64 (RFC 4648) in eight alphabets, without a table look-up or a branch on a character: whole texts
//! by `Encoding`, and texts in lines (as in RFC 7468) by `Encoder` and `Decoder`.
//!
//! ```rust
//! /// The first four bytes of a text in lines of 64 characters, whatever ends them, and how many bytes follow.
//! pub fn read_head(text: &[u8]) -> Result<([u8; 4], usize), Error> {
//!     let mut head = [0; 4];
//!     let mut decoder: Decoder<Base64> = Decoder::new_wrapped(text, 64)?;
//!     decoder.decode(&mut head)?;
//!     Ok((head, decoder.remaining_len()))
//! }
//! ```
#![tactic(auto)]

mod decoder;
mod encoder;
mod left;
mod line_ending;
mod line_laws;
mod lines;
mod wrapping;

pub use crate::decoder::Decoder;
pub use crate::encoder::Encoder;
pub use crate::line_ending::LineEnding;
pub use crate::line_laws::{
    lines_have_one_join, text_has_one_value, wrapped_encoding_is_read_back, wrapped_text_is_lines,
    wrapping_is_injective,
};
pub use crate::wrapping::wrapped_len;
pub use base64_alphabet::{
    Alphabet, Base64, Base64Unpadded, DecodeStep, EncodeStep, Steps, Unpad, group_high, group_low,
    lanes, split_high, split_low,
};
pub use base64_alphabets::{Base64Bcrypt, Base64Pbkdf2, Base64Url, Base64UrlUnpadded};
pub use base64_crypt::{Base64Crypt, Base64ShaCrypt};
pub use base64_text::{
    Encoding, Error, InvalidEncodingError, InvalidLengthError, unclean_texts_take_one_count,
};
