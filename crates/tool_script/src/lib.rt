//! Scripts of requests to an identity source: a script is read request by request, and each request is answered before the next one is read.
//!
//! ```rust
//! /// Answers a script request by request.
//! pub fn answer<R: Wait, S: Source, K: Sink>(
//!     rt: &R,
//!     alloc: Global,
//!     input: &mut S,
//!     out: &mut K,
//! ) -> Status {
//!     session(rt, alloc, 64, input, out)
//! }
//! ```
#![tactic(auto)]

mod ahead;
mod answering;
pub mod laws;
mod line;
mod reading;
mod reply;
mod request;
mod serving;

pub use ahead::{Ahead, Stop};
pub use line::{Form, Line, MOST_LINE, read_line};
pub use reading::{MOST_REQUESTS, next_request};
pub use reply::{accepted_text, bundle_text, svid_text};
pub use request::{Ending, Next, Request};
pub use serving::session;
