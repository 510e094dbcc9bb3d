//! The program `identity_pack` as a library: it packs the key files that a manifest names into the text of an update,
//! or names the first rule that they break.
//!
//! ```rust
//! /// Packs what the words order, and writes the text or the line of the first broken rule.
//! pub fn pack_order<D: Disk, K: Sink>(
//!     alloc: Global,
//!     words: &[String],
//!     disk: &mut D,
//!     out: &mut K,
//! ) -> Status {
//!     pack_program::run(alloc, words, disk, out)
//! }
//! ```
#![tactic(auto)]

pub mod laws;
mod program;
mod refusal;
mod running;
mod words;

pub use program::{run_over, run_program};
pub use running::run;
pub use words::{Command, read_words};
