//! Bundle documents.
use bundle_document::{BundleDocument, BundleFeed, DocumentError};
use identity_update::BundleParts;
use spiffe_core::TrustDomain;
use std::alloc::Global;

// cut: to_bundle
/// The bundle of an update, of the document that a trust domain publishes.
pub fn to_bundle(
    alloc: Global,
    domain: &TrustDomain,
    json: &[u8],
) -> Result<BundleParts, DocumentError> {
    BundleDocument::read(alloc, json)?.to_bundle_parts(alloc, domain)
}
// end

// cut: newest
/// Offers a document that was fetched, and gives the sequence number of the one that is kept.
pub fn newest(feed: &mut BundleFeed, fetched: BundleDocument) -> Option<u64> {
    let _ = feed.offer(fetched);
    feed.latest()?.sequence()
}
// end
