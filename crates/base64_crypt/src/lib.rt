//! The alphabet of `crypt`: read from the high end as in its DES form, and from the low one as in its
//! SHA-256 and SHA-512 forms.
//!
//! ```rust
//! /// The characters of three bytes in the alphabet of crypt, read from the high end and, for SHA-crypt, from the low one.
//! pub fn both_ends(bytes: &[u8; 3]) -> ([u8; 4], [u8; 4]) {
//!     let (mut high, mut low) = ([0; 4], [0; 4]);
//!     Base64Crypt::encode_3bytes(bytes, &mut high);
//!     Base64ShaCrypt::encode_3bytes(bytes, &mut low);
//!     (high, low)
//! }
//! ```
#![tactic(auto)]

mod crypt;

pub use crate::crypt::{Base64Crypt, Base64ShaCrypt};
