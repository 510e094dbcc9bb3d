//! The program `identity_tool` as a library: its words, the command that they name over any source and any sink, and its edge over the standard streams.
//!
//! ```rust
//! /// Runs the words of `identity_tool` over any source and sink.
//! pub fn command<R: Threads + Wait + Sync, S: Source, K: Sink>(
//!     rt: &R,
//!     alloc: Global,
//!     words: &[String],
//!     input: &mut S,
//!     out: &mut K,
//! ) -> bool {
//!     tool_program::run(rt, alloc, words, input, out) == Status::Done
//! }
//! ```
#![tactic(auto)]

mod commands;
pub mod laws;
mod program;
mod words;

pub use commands::run;
pub use program::{run_over, run_program};
pub use words::{Command, read_words};
