//! Base64 (RFC 4648) of whole texts: encodings of whole lists of bytes, their refusals, and the parts of both
//! that texts in lines are made of. `base64ct` offers it with encoders and decoders of lines.
//!
//! ```rust
//! /// The bytes that an untrusted text stands for, in the alphabet of URLs without padding.
//! pub fn decode_untrusted(alloc: Global, text: &str) -> Result<Vec<u8>, Error> {
//!     Base64UrlUnpadded::decode_vec(alloc, text)
//! }
//! ```
#![tactic(auto)]

mod count_laws;
mod decode_text;
mod encode_text;
mod encoding;
mod errors;
mod in_place;
mod last_block;
mod loose;

pub use crate::count_laws::unclean_texts_take_one_count;
pub use crate::decode_text::decode_front;
pub use crate::encode_text::{ascii_text, encode_front};
pub use crate::encoding::Encoding;
pub use crate::errors::{Error, InvalidEncodingError, InvalidLengthError};
pub use crate::last_block::{decode_last, known};
