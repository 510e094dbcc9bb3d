//! Tokens of the SPIFFE Workload API, JWT-SVIDs: a text becomes a [`JwtSvid`], or the answer names the
//! first rule that it breaks. It ports a part of the crate `spiffe` and is offered under Apache-2.0 alone.
//!
//! ```rust
//! /// The subject of a token, whose signature nobody has checked.
//! pub fn subject(alloc: Global, token: &str) -> Result<String, JwtSvidError> {
//!     let svid = JwtSvid::parse_insecure(alloc, token)?;
//!     Ok(String::from_str(alloc, svid.claims().sub())?)
//! }
//! ```
#![tactic(auto)]

mod blanks;
mod claims;
mod error;
mod header;
mod jwt_alg;
mod jwt_svid;
mod laws;
mod member_name;
mod members;
mod parts;
mod raw_members;
mod threads;
mod value;

pub use claims::Claims;
pub use error::JwtSvidError;
pub use jwt_alg::JwtAlg;
pub use jwt_svid::JwtSvid;
pub use laws::token_has_one_answer;
pub use members::{Member, is_once, top_members};
pub use parts::{MAX_PART_CHARACTERS, Parts, split_parts};
