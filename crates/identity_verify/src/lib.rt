//! Verification of JWT-SVIDs (JWT-SVID, section 4) without a network: a token is judged by the bundles that a source has.
//! It ports a part of the crate `spiffe` and is offered under Apache-2.0 alone.
//!
//! ```rust
//! /// Whether a token is good for this audience in the state that the reader has, at a time in nanoseconds since 1970.
//! pub fn let_in<K: Backend>(
//!     alloc: Global,
//!     reader: &mut IdentityReader,
//!     token: &str,
//!     audience: &[String],
//!     now: i128,
//!     backend: &K,
//! ) -> bool {
//!     verify_current(alloc, reader, token, audience, now, backend).is_ok()
//! }
//! ```
#![tactic(auto)]

mod backend;
mod current;
mod decoding;
mod digest;
mod error;
mod jose_header;
mod key_parts;
mod key_use;
pub mod laws;
mod token;
mod verify;

pub use backend::{Backend, Signature};
pub use current::{Rejected, Verified, verify_current};
pub use digest::DigestBackend;
pub use error::{Field, JwtVerificationError, JwtVerificationErrorKind, VerifyError};
pub use verify::parse_and_validate;
