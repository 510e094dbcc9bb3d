//! A script that is answered by several threads: the updates are applied by one, and each worker answers all queries through its own reader of the one source.
//!
//! ```rust
//! /// Answers a script by two workers in threads of their own.
//! pub fn answer_by_two<R: Threads + Wait + Sync, S: Source, K: Sink>(
//!     rt: &R,
//!     alloc: Global,
//!     input: &mut S,
//!     out: &mut K,
//! ) -> Status {
//!     watch(rt, alloc, 64, 2, &OpenGate, input, out)
//! }
//! ```
#![tactic(auto)]

mod applying;
mod asked;
mod gate;
mod gathering;
mod lines;
mod watching;
mod working;

pub use gate::{Gate, OpenGate};
pub use watching::watch;
