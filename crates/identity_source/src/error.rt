//! Why a source has no answer.
use identity_update::UpdateError;
use std::alloc::AllocError;
use thiserror::Error;

/// Why a source was not opened, or a share not given.
#[derive(Clone, Copy, Debug, PartialEq, Eq, Error)]
pub enum SourceError {
    /// No memory was left. Nothing was changed, and the same call may succeed later.
    #[error("out of memory")]
    OutOfMemory,
}

impl From<AllocError> for SourceError {
    fn from(_: AllocError) -> SourceError {
        SourceError::OutOfMemory
    }
}

impl From<SourceError> for UpdateError {
    ghost use Rattle.std.specs.Prelude.{◌≡◌};
    ghost use Rattle.identity_update.specs.declared.error.UpdateError.TheVariants.{OutOfMemory};

    ghost from_gives = { λ _ e. e ≡ OutOfMemory };

    fn from(_: SourceError) -> UpdateError {
        UpdateError::OutOfMemory
    }
}
