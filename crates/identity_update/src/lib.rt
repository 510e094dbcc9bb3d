//! Updates: SPIFFE identities with their key pairs and trust bundles with their key sets, or the reason for which
//! identities are withdrawn. An update is read from the Base64 of its document, or the answer names the first rule that
//! the text breaks.
//!
//! ```rust
//! /// An update's text in lines of 76 characters, of one in lines of 64.
//! pub fn rewrap(alloc: Global, text: &[u8]) -> Result<String, UpdateError> {
//!     let update = Update::read(alloc, text, 64)?;
//!     Ok(update.to_text(alloc, 76, LineEnding::CRLF)?)
//! }
//! ```
#![tactic(auto)]

mod assembly;
mod bundle;
mod bundle_rules;
mod entries;
mod entry;
mod entry_parts;
mod entry_rules;
mod equality;
mod error;
mod identity;
mod kept;
pub mod laws;
mod members;
mod parts_verdict;
mod place;
mod places;
mod text;
mod threads;
mod update;
mod verdict;

pub use bundle::BundleParts;
pub use entries::Entries;
pub use entry_parts::EntryParts;
pub use error::UpdateError;
pub use identity::Identity;
pub use update::Update;
