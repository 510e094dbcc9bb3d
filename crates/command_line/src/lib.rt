//! What the programs of this repository share: the words behind a program's name, the numbers in them, how a run
//! ends, and the exit status with what a person is told of it.
//!
//! ```rust
//! /// The width that a word writes, or the status of faulty words.
//! pub fn width_of(word: &str) -> Result<usize, Status> {
//!     match read_number(word) {
//!         Some(width) => Ok(width as usize),
//!         None => Err(Status::Usage),
//!     }
//! }
//! ```
#![tactic(auto)]

mod ending;
mod number;
mod status;
mod words;

pub use ending::end;
pub use number::read_number;
pub use status::Status;
pub use words::{unread, words_behind, words_of};
