//! Why bytes are no authority or no key set.
use spiffe_json::{JsonError, ReadError};
use std::alloc::{AllocError, AllocFailed};
use thiserror::Error;

/// The first rule that the JSON of an authority or of a key set breaks, or want of memory.
#[derive(Debug, Clone, PartialEq, Eq, Drop, Error)]
pub enum JwtBundleError {
    /// A key isn't an object with a text `kid`, so no token can name it.
    #[error("missing key ID")]
    MissingKeyId,
    /// The bytes aren't the JSON that they should be.
    #[error("cannot deserialize json jwk set")]
    Deserialize(JsonError),
    /// There was no memory for the answer; nothing is said of the input.
    #[error("out of memory")]
    OutOfMemory,
}

impl<T: Drop> From<AllocFailed<T>> for JwtBundleError {
    ghost use Rattle.std.specs.Prelude.{◌≡◌};
    ghost use Rattle.spiffe_bundle.specs.declared.error.JwtBundleError.TheVariants.{OutOfMemory};

    ghost from_gives = { λ _ e. e ≡ OutOfMemory };

    fn from(_e: AllocFailed<T>) -> JwtBundleError {
        JwtBundleError::OutOfMemory
    }
}

impl From<AllocError> for JwtBundleError {
    ghost use Rattle.std.specs.Prelude.{◌≡◌};
    ghost use Rattle.spiffe_bundle.specs.declared.error.JwtBundleError.TheVariants.{OutOfMemory};

    ghost from_gives = { λ _ e. e ≡ OutOfMemory };

    fn from(_e: AllocError) -> JwtBundleError {
        JwtBundleError::OutOfMemory
    }
}

impl From<ReadError> for JwtBundleError {
    ghost use Rattle.std.specs.Prelude.{◌≡◌};
    ghost use Rattle.spiffe_bundle.specs.JwtBundleError.{bundle_error};

    ghost from_gives = { λ cause e. e ≡ bundle_error cause };

    fn from(cause: ReadError) -> JwtBundleError {
        match cause {
            ReadError::Json(broken) => JwtBundleError::Deserialize(broken),
            ReadError::OutOfMemory => JwtBundleError::OutOfMemory,
        }
    }
}
