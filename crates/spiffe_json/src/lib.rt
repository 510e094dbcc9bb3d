//! JSON as key sets and tokens hold it: what `serde_json` reads, in which each number is a whole number
//! of 64 bits. It serves the port of the crate `spiffe`, and is offered under the licence Apache-2.0.
//!
//! ```rust
//! /// A JSON text whose numbers are whole, without blanks and with its members in order; none for any other text.
//! pub fn compact(alloc: Global, text: &[u8]) -> Result<Option<Vec<u8>>, AllocError> {
//!     match read_json(alloc, text) {
//!         Ok(value) => Ok(Some(write_json(alloc, &value)?)),
//!         Err(ReadError::Json(_)) => Ok(None),
//!         Err(ReadError::OutOfMemory) => Err(AllocError),
//!     }
//! }
//! ```
#![tactic(auto)]

mod error;
mod read;

pub use error::{JsonError, ReadError};
pub use read::{read_json, write_json};
