//! Why a text is no SPIFFE ID or no trust domain.

use std::alloc::AllocError;
use thiserror::Error;

/// The first rule that a text or a list of segments breaks, or want of memory.
#[derive(Debug, Clone, PartialEq, Eq, Drop, Error)]
pub enum SpiffeIdError {
    /// The text is empty.
    #[error("cannot be empty")]
    Empty,
    /// Nothing stands where the trust domain is expected.
    #[error("trust domain is missing")]
    MissingTrustDomain,
    /// The text isn't a URI of the scheme `spiffe`.
    #[error("scheme is missing or invalid")]
    WrongScheme,
    /// A byte of the trust domain is none of its characters; a port or user information has such bytes.
    #[error("trust domain may only contain ASCII letters (case-insensitive), digits, dots, dashes, and underscores")]
    BadTrustDomainChar,
    /// A byte of a path segment is none of its characters.
    #[error("path segment characters are limited to letters, numbers, dots, dashes, and underscores")]
    BadPathSegmentChar,
    /// Two slashes have nothing between them, or a segment of a list is empty.
    #[error("path cannot contain empty segments")]
    EmptySegment,
    /// A segment is `.` or `..`.
    #[error("path cannot contain dot segments")]
    DotSegment,
    /// The path ends in a slash.
    #[error("path cannot have a trailing slash")]
    TrailingSlash,
    /// An id made from segments would have more bytes than an id should.
    #[error("SPIFFE ID URI exceeds maximum length ({max} bytes)")]
    SpiffeIdTooLong {
        /// The greatest length of such an id in bytes.
        max: usize,
    },
    /// The trust domain has more bytes than a trust domain may.
    #[error("trust domain exceeds maximum length ({max} bytes)")]
    TrustDomainTooLong {
        /// The greatest length of a trust domain in bytes.
        max: usize,
    },
    /// There was no memory for the answer; the input breaks no rule.
    #[error("out of memory")]
    OutOfMemory,
}

impl From<AllocError> for SpiffeIdError {
    ghost use Rattle.std.specs.Prelude.{◌≡◌};
    ghost use Rattle.spiffe_id.specs.declared.error.SpiffeIdError.TheVariants.{OutOfMemory};

    ghost from_gives = { λ _ e. e ≡ OutOfMemory };

    fn from(_e: AllocError) -> SpiffeIdError {
        SpiffeIdError::OutOfMemory
    }
}
