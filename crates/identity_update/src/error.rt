//! Why a text or parts are refused as an update.
use spiffe_bundle::JwtBundleError;
use spiffe_id::SpiffeIdError;
use std::alloc::{AllocError, AllocFailed};

/// The first rule that an update breaks, or want of memory. Numbers count from 0, and no cause is want of memory.
#[derive(Clone, Debug, PartialEq, Eq, Drop)]
pub enum UpdateError {
    /// No revision is left: the last one is 2^64-1. Only a source answers it.
    RevisionsUsedUp,

    /// The text isn't the canonical Base64 of some bytes in lines of the given width.
    Text(base64ct::Error),

    /// The bytes are no update document, or the document of the parts would be too long.
    Document(der_core::Error),

    /// There is neither an entry nor a reason.
    MissingRequiredField,

    /// There is an entry and a reason.
    WithdrawalWithEntries,

    /// An entry's text is no SPIFFE ID.
    Subject {
        /// Which entry.
        entry: usize,

        /// The rule that the text breaks.
        cause: SpiffeIdError,
    },

    /// The two keys of an entry have different algorithms. Absent parameters and NULL differ.
    AlgorithmMismatch {
        /// Which entry.
        entry: usize,
    },

    /// The private key of an entry holds a public key that is not the entry's, in octets or in unused bits.
    PublicKeyMismatch {
        /// Which entry.
        entry: usize,
    },

    /// A bundle's text is no trust domain.
    Domain {
        /// Which bundle.
        bundle: usize,

        /// The rule that the text breaks.
        cause: SpiffeIdError,
    },

    /// A bundle's bytes are no key set.
    Authorities {
        /// Which bundle.
        bundle: usize,

        /// The rule that the bytes break.
        cause: JwtBundleError,
    },

    /// No bundle is of an entry's trust domain.
    MissingBundle {
        /// Which entry.
        entry: usize,
    },

    /// There was no memory for the answer.
    OutOfMemory,
}

impl From<AllocError> for UpdateError {
    ghost use Rattle.std.specs.Prelude.{◌≡◌};
    ghost use Rattle.identity_update.specs.declared.error.UpdateError.TheVariants.{OutOfMemory};

    ghost from_gives = { λ _ e. e ≡ OutOfMemory };

    fn from(_: AllocError) -> Self {
        UpdateError::OutOfMemory
    }
}

impl<T: Drop> From<AllocFailed<T>> for UpdateError {
    ghost use Rattle.std.specs.Prelude.{◌≡◌};
    ghost use Rattle.identity_update.specs.declared.error.UpdateError.TheVariants.{OutOfMemory};

    ghost from_gives = { λ _ e. e ≡ OutOfMemory };

    fn from(_: AllocFailed<T>) -> Self {
        UpdateError::OutOfMemory
    }
}

impl From<base64ct::Error> for UpdateError {
    ghost use Rattle.std.specs.Prelude.{◌≡◌};
    ghost use Rattle.identity_update.specs.UpdateError.{text_error};

    ghost from_gives = { λ cause e. e ≡ text_error cause };

    fn from(cause: base64ct::Error) -> Self {
        match cause {
            base64ct::Error::OutOfMemory => UpdateError::OutOfMemory,
            other => UpdateError::Text(other),
        }
    }
}
