//! The commands of `identity_tool` over any source and any sink: an update text is read to its end and answered by its
//! report, or by the line of the first rule that it breaks.
//!
//! ```rust
//! /// The exit status of a report of the update that a source has.
//! pub fn report_of<S: Source, K: Sink>(alloc: Global, input: &mut S, out: &mut K) -> u8 {
//!     report(alloc, 64, input, out).number()
//! }
//! ```
#![tactic(auto)]

mod answers;
mod made_entries;
mod making;
mod printed;
mod report_lines;
mod showing;

pub use answers::report;
pub use making::make;
pub use printed::push_printed;
pub use report_lines::{push_bundle_words, report_text};
pub use showing::{chosen, show};
