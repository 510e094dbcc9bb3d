//! Why metadata or a call is refused.
use std::alloc::{AllocError, AllocFailed};
use thiserror::Error;

/// Why a key and a value don't go into metadata.
#[derive(Debug, Clone, Copy, PartialEq, Eq, Error)]
pub enum MetadataError {
    /// The key is empty or has another character than `a` to `z`, `0` to `9`, `.`, `-` and `_`.
    #[error("invalid key")]
    InvalidKey,
    /// The value has a byte that isn't a printable ASCII character or a space.
    #[error("invalid value")]
    InvalidValue,
    /// There was no memory for the entry; key and value break no rule.
    #[error("out of memory")]
    OutOfMemory,
}

/// How a call ended, as gRPC tells it: a code and a message.
#[derive(Debug, PartialEq, Eq, Drop)]
pub struct Status {
    /// The code, such as 13 for an internal error.
    pub code: i32,
    /// The message for a person who reads it.
    pub message: String,
}

/// Why a [`crate::SecurityHeader`] gave no metadata.
#[derive(Debug, PartialEq, Eq, Drop, Error)]
pub enum CallError {
    /// The caller's function refused the call with this status.
    #[error("refused")]
    Refused(Status),
    /// There was no memory for the security header.
    #[error("out of memory")]
    OutOfMemory,
}

impl From<AllocError> for MetadataError {
    ghost use Rattle.std.specs.Prelude.{◌≡◌};
    ghost use Rattle.broker_header.specs.declared.error.MetadataError.TheVariants.{OutOfMemory};

    ghost from_gives = { λ _ e. e ≡ OutOfMemory };

    fn from(_e: AllocError) -> MetadataError {
        MetadataError::OutOfMemory
    }
}

impl<T: Drop> From<AllocFailed<T>> for MetadataError {
    ghost use Rattle.std.specs.Prelude.{◌≡◌};
    ghost use Rattle.broker_header.specs.declared.error.MetadataError.TheVariants.{OutOfMemory};

    ghost from_gives = { λ _ e. e ≡ OutOfMemory };

    fn from(_e: AllocFailed<T>) -> MetadataError {
        MetadataError::OutOfMemory
    }
}
