//! The identity source: one owner applies updates, and readers on any thread get whole states without
//! waiting. A source and its receipts stand for one list of states: `apply` appends one state or nothing.
//! A reader has a list of its own under the source's name: it never goes back behind what it gave or was told
//! of, and after a look it begins with the list of each receipt that the reader was told of.
//!
//! ```rust
//! /// Applies an update, tells a reader of it, and gives the revision of the state that the reader then has. `apply` may
//! /// wait for readers; the reader doesn't wait.
//! pub fn rotate<R: Wait>(
//!     rt: &R,
//!     source: &mut IdentitySource,
//!     reader: &mut IdentityReader,
//!     text: &[u8],
//! ) -> Result<u64, UpdateError> {
//!     let receipt = source.apply(rt, text, 64)?;
//!     reader.told(receipt);
//!     Ok(reader.current().revision())
//! }
//! ```
#![tactic(auto)]

mod attempt;
mod error;
mod glance;
mod kept_reader;
pub mod laws;
mod memo;
mod missing;
mod open;
mod pane;
mod publish;
mod published;
mod receipt;
mod round;
mod rule;
mod snapshot;
mod source;
mod state;
mod threads;
mod window;

pub use error::SourceError;
pub use identity_update::{BundleParts, Entries, EntryParts, Identity, Update, UpdateError};
pub use kept_reader::{IdentityReader, KeptReader, Look};
pub use missing::Missing;
pub use pane::Pane;
pub use receipt::Receipt;
pub use snapshot::Snapshot;
pub use source::IdentitySource;
pub use window::{Missed, Window};
