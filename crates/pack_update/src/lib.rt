//! Packing: a manifest and the key files that it names become the text of an update, or the answer names the first rule that they break.
//!
//! ```rust
//! /// The text of the update of a manifest's key files, in lines of 64 characters.
//! pub fn packed<D: Disk>(alloc: Global, disk: &mut D) -> Result<String, PackError> {
//!     pack(alloc, disk, "manifest.json", 64, base64ct::LineEnding::LF)
//! }
//! ```
#![tactic(auto)]

mod bundles;
mod entries;
mod error;
mod files;
pub mod laws;
mod packing;

pub use error::{FileError, PackError};
pub use pack_manifest::ManifestError;
pub use packing::pack;
