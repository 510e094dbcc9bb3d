//! Times in the claims of tokens: the exact nanoseconds that a number of seconds writes in whatever form, and the
//! time `nbf` set apart from claims that it stands among.
//!
//! ```rust
//! /// Whether the time that a JSON number of seconds writes is behind another, in nanoseconds since 1970.
//! pub fn is_past(number: &[u8], now: i128) -> Option<bool> {
//!     Some(nanoseconds(number)? <= now)
//! }
//! ```
#![tactic(auto)]

mod claims;
mod decimal;
mod number;
mod time;

pub use claims::{not_before, quiet};
pub use time::nanoseconds;
