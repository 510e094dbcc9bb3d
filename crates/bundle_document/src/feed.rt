//! The newest document.
ghost use Rattle.std.specs.Prelude.{◌≡◌, None, option_map};
ghost use Rattle.bundle_document.specs.Feed.{offer_answer, answer_beside, kept_after};

use crate::document::BundleDocument;
use crate::error::FeedError;
use std::marker::Model;

/// The newest of the documents of one trust domain that came in, one after another.
#[derive(Drop)]
pub struct BundleFeed {
    kept: Option<BundleDocument>,
}

impl Model for BundleFeed {
    ghost use Rattle.std.specs.Prelude.{Option};
    ghost use Rattle.bundle_document.specs.Document.{Document};

    ghost Value = { Option Document };

    ghost view = { λ f. f.kept };
}

impl BundleFeed {
    /// A feed without a document.
    pub fn new() -> Self
        ensures { result ≡ None }
    {
        BundleFeed { kept: None }
    }

    /// Keeps the document, unless it is older than the one that is kept: then the document is dropped. One without a
    /// sequence number is always kept. `Older` with both sequence numbers tells that it was dropped.
    pub fn offer(&mut self, document: BundleDocument) -> Result<(), FeedError>
        ensures answer { result ≡ answer_beside self.old document }
        ensures kept { self.new ≡ kept_after self.old document result }
    {
        check_offer(&self.kept, &document)?;
        self.kept = Some(document);
        Ok(())
    }

    /// The document that is kept, none before the first offer.
    pub fn latest(&self) -> Option<&BundleDocument>
        ensures { option_map (λ d. d.now) result ≡ self.now }
    {
        self.kept.as_ref()
    }
}

fn check_offer(kept: &Option<BundleDocument>, offered: &BundleDocument) -> Result<(), FeedError>
    ensures { result ≡ answer_beside kept.now offered.now }
{
    match kept {
        None => Ok(()),
        Some(document) => check_sequence(document.sequence(), offered.sequence()),
    }
}

fn check_sequence(kept: Option<u64>, offered: Option<u64>) -> Result<(), FeedError>
    ensures { result ≡ offer_answer kept offered }
{
    match (kept, offered) {
        (Some(kept), Some(offered)) if offered < kept => Err(FeedError::Older { kept, offered }),
        _ => Ok(()),
    }
}
