//! The document of an update in DER: identities with their key pairs, trust bundles with their key sets, and a reason
//! where identities are withdrawn. It is read exactly, with the place at which a document before other bytes ends, and
//! written.
//!
//! ```rust
//! /// The numbers of one byte that stand one behind the other.
//! pub fn numbers_of(alloc: Global, content: &[u8]) -> der_small::Result<Vec<u8>> {
//!     decode_all(alloc, content)
//! }
//! ```
//!
//! Its lists are values of one type (X.690, 8.10), whatever the type is. A content is read by `decode_all`, and the
//! values of a slice are written by `SequenceOf`.
#![tactic(auto)]

mod document;
mod elements;
mod fields;
pub mod laws;
mod sequence_of;
mod update;
mod written_document;

pub use document::{DocumentFields, read_document};
pub use elements::decode_all;
pub use fields::{BundleFields, EntryFields};
pub use sequence_of::SequenceOf;
pub use update::{BundleRef, EntryRef, UpdateFields, read_update};
pub use written_document::WrittenDocument;
