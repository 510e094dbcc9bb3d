//! Further alphabets of Base64: the one safe in URLs, with padding and without, and those of bcrypt
//! and PBKDF2. They stand apart from `base64_alphabet`, which has what an alphabet is.
//!
//! ```rust
//! /// The bytes that an untrusted text stands for, in the alphabet of URLs without padding.
//! pub fn decode_untrusted(alloc: Global, text: &str) -> Result<Vec<u8>, Error> {
//!     Base64UrlUnpadded::decode_vec(alloc, text)
//! }
//! ```
#![tactic(auto)]

mod bcrypt;
mod pbkdf2;
mod url;

pub use crate::bcrypt::Base64Bcrypt;
pub use crate::pbkdf2::Base64Pbkdf2;
pub use crate::url::{Base64Url, Base64UrlUnpadded};
