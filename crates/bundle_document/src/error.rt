//! Why bytes are no bundle document, and why one isn't kept.
use spiffe_json::{JsonError, ReadError};
use std::alloc::AllocError;
use thiserror::Error;

/// The first rule that a bundle document breaks, or want of memory.
#[derive(Debug, Clone, Copy, PartialEq, Eq, Error)]
pub enum DocumentError {
    /// The bytes aren't the JSON that they should be.
    #[error("{0}")]
    Deserialize(JsonError),
    /// `spiffe_sequence` is there and isn't a number from 0 to 2^64 - 1.
    #[error("bad sequence")]
    Sequence,
    /// `spiffe_refresh_hint` is there and isn't a number from 0 to 2^64 - 1.
    #[error("bad refresh hint")]
    RefreshHint,
    /// A key for tokens has no text `kid`, so no token can name it.
    #[error("key {key}: missing key ID")]
    MissingKeyId {
        /// Its place among all elements of `keys`, from 0.
        key: usize,
    },
    /// There was no memory for the answer; nothing is said of the input.
    #[error("out of memory")]
    OutOfMemory,
}

/// A document came in after a newer one.
#[derive(Debug, Clone, Copy, PartialEq, Eq, Error)]
pub enum FeedError {
    /// Both have sequence numbers, and the offered one is lower.
    #[error("sequence {offered} is older than {kept}")]
    Older {
        /// The sequence number of the document that is kept.
        kept: u64,
        /// The sequence number of the document that was offered.
        offered: u64,
    },
}

impl From<AllocError> for DocumentError {
    ghost use Rattle.std.specs.Prelude.{◌≡◌};
    ghost use Rattle.bundle_document.specs.declared.error.DocumentError.TheVariants.{OutOfMemory};

    ghost from_gives = { λ _ e. e ≡ OutOfMemory };

    fn from(_e: AllocError) -> DocumentError {
        DocumentError::OutOfMemory
    }
}

impl From<ReadError> for DocumentError {
    ghost use Rattle.std.specs.Prelude.{◌≡◌};
    ghost use Rattle.bundle_document.specs.DocumentError.{document_error};

    ghost from_gives = { λ cause e. e ≡ document_error cause };

    fn from(cause: ReadError) -> DocumentError {
        match cause {
            ReadError::Json(broken) => DocumentError::Deserialize(broken),
            ReadError::OutOfMemory => DocumentError::OutOfMemory,
        }
    }
}
