//! Manifests: a JSON text that names the identities and bundles of an update, and the files that hold
//! their keys. Reading one gives what it names, or the first rule that the text breaks.
//!
//! ```rust
//! /// How many entries a manifest names.
//! pub fn entry_count(alloc: Global, text: &[u8]) -> Result<usize, ReadError> {
//!     let value = read_value(alloc, text)?;
//!     let manifest = Manifest::of(alloc, text, &value)?;
//!     Ok(manifest.entries.len())
//! }
//! ```
#![tactic(auto)]

mod error;
mod manifest;

pub use error::{ManifestError, ReadError};
pub use manifest::{Manifest, NamedBundle, NamedEntry, read_value};
