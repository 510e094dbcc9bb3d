//! SPIFFE bundle documents: what a trust domain publishes at its bundle endpoint becomes the key set of a bundle of
//! an update, or the answer names the first rule that the document breaks.
//!
//! ```rust
//! /// Offers a document that was fetched, and gives the sequence number of the one that is kept.
//! pub fn newest(feed: &mut BundleFeed, fetched: BundleDocument) -> Option<u64> {
//!     let _ = feed.offer(fetched);
//!     feed.latest()?.sequence()
//! }
//! ```
#![tactic(auto)]

mod bundle;
mod document;
mod error;
mod feed;
mod key_use;
mod reading;
mod writing;

pub use document::BundleDocument;
pub use error::{DocumentError, FeedError};
pub use feed::BundleFeed;
