//! The printed text of each refusal: the line of a refused update, and what is wrong with a SPIFFE ID, a trust domain
//! or a JSON text in its words. Each program prints refusals in these words alone.
//!
//! ```rust
//! /// The line that a program prints of a refused update. Want of memory has none.
//! pub fn line_of(alloc: Global, error: &UpdateError) -> Result<String, AllocError> {
//!     refusal_text(alloc, error)
//! }
//! ```
#![tactic(auto)]

mod refusal;

pub use refusal::{id_text, json_text, refusal_text};
