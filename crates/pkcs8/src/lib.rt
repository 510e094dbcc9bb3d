//! Private keys in PKCS #8 (RFC 5208, section 5, and RFC 5958, section 2): both versions, their
//! documents, and the traits of types that are read from private key documents or written as such.
//!
//! A key is written with all that was read of it but extensions. To pass it on without its friendly name:
//!
//! ```rust
//! /// A private key's document without its attributes.
//! pub fn without_attributes(alloc: Global, document: &[u8]) -> pkcs8::Result<SecretDocument> {
//!     let mut key = PrivateKeyInfoRef::from_der(document)?;
//!     key.attributes = None;
//!     key.to_secret_document(alloc)
//! }
//! ```
#![tactic(auto)]

mod attributes;
mod error;
mod extensions;
mod key_file;
pub mod laws;
mod private_key_info;
mod shown;
mod tail;
mod traits;
mod version;

pub use attributes::{Attributes, AttributesRef};
pub use error::{Error, KeyError, Result};
pub use private_key_info::{PrivateKeyInfo, PrivateKeyInfoOwned, PrivateKeyInfoRef};
pub use traits::{BitStringLike, DecodePrivateKey, EncodePrivateKey};
pub use version::Version;
