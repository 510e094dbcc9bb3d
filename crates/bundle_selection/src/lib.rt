//! The program `bundle_keys` as a library: it reads a SPIFFE bundle document and writes the key set that a bundle of
//! an update holds, or names the first rule that the document breaks.
//!
//! ```rust
//! /// Writes the key set of a bundle document.
//! pub fn keys_of_document<S: Source, K: Sink>(alloc: Global, input: &mut S, out: &mut K) -> Status {
//!     select(alloc, &[], input, out)
//! }
//! ```
#![tactic(auto)]

mod program;
mod refusal;
mod selecting;

pub use program::{run_over, run_program};
pub use selecting::select;
