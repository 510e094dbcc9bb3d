//! Why a text is no token.
use spiffe_id::SpiffeIdError;
use spiffe_json::{JsonError, ReadError};
use std::alloc::{AllocError, AllocFailed};
use thiserror::Error;

/// The first rule that a token breaks, or want of memory.
#[derive(Debug, Clone, PartialEq, Eq, Drop, Error)]
pub enum JwtSvidError {
    /// The claim `sub` is no SPIFFE ID (JWT-SVID, section 3.1), for this cause.
    #[error("invalid spiffe_id in token 'sub' claim")]
    InvalidSubject(SpiffeIdError),
    /// The header has no `kid`, so no authority can be named.
    #[error("token header 'kid' not found")]
    MissingKeyId,
    /// The header has a `typ` other than the two (JWT-SVID, section 2.3).
    #[error("token header 'typ' should be 'JWT' or 'JOSE'")]
    InvalidTyp,
    /// The claim `exp` is no time of the years -9999 to 9999.
    #[error("invalid token expiration ('exp') claim")]
    InvalidExpiration,
    /// The header's `alg` is none of the algorithms of a JWT-SVID (section 2.1).
    #[error("algorithm in 'alg' header is not supported")]
    UnsupportedAlgorithm,
    /// The text isn't three parts with dots between them (RFC 7515, section 3.1).
    #[error("malformed jwt token: expected 3 dot-separated parts")]
    InvalidJwtFormat,
    /// The header or the claims are too long, or no canonical base64url text without padding.
    #[error("malformed jwt token: invalid base64url encoding")]
    InvalidBase64,
    /// The header or the claims aren't the JSON that they must be.
    #[error("malformed jwt token: invalid json")]
    InvalidJson(JsonError),
    /// There was no memory for the answer; nothing is said of the input.
    #[error("out of memory")]
    OutOfMemory,
}

impl From<AllocError> for JwtSvidError {
    ghost use Rattle.std.specs.Prelude.{◌≡◌};
    ghost use Rattle.spiffe_token.specs.declared.error.JwtSvidError.TheVariants.{OutOfMemory};

    ghost from_gives = { λ _ e. e ≡ OutOfMemory };

    fn from(_e: AllocError) -> JwtSvidError {
        JwtSvidError::OutOfMemory
    }
}

impl<T: Drop> From<AllocFailed<T>> for JwtSvidError {
    ghost use Rattle.std.specs.Prelude.{◌≡◌};
    ghost use Rattle.spiffe_token.specs.declared.error.JwtSvidError.TheVariants.{OutOfMemory};

    ghost from_gives = { λ _ e. e ≡ OutOfMemory };

    fn from(_e: AllocFailed<T>) -> JwtSvidError {
        JwtSvidError::OutOfMemory
    }
}

impl From<ReadError> for JwtSvidError {
    ghost use Rattle.std.specs.Prelude.{◌≡◌};
    ghost use Rattle.spiffe_token.specs.JwtSvidError.{read_error};

    ghost from_gives = { λ cause e. e ≡ read_error cause };

    fn from(cause: ReadError) -> JwtSvidError {
        match cause {
            ReadError::Json(broken) => JwtSvidError::InvalidJson(broken),
            ReadError::OutOfMemory => JwtSvidError::OutOfMemory,
        }
    }
}

impl From<SpiffeIdError> for JwtSvidError {
    ghost use Rattle.std.specs.Prelude.{◌≡◌};
    ghost use Rattle.spiffe_token.specs.JwtSvidError.{subject_error};

    ghost from_gives = { λ cause e. e ≡ subject_error cause };

    fn from(cause: SpiffeIdError) -> JwtSvidError {
        match cause {
            SpiffeIdError::OutOfMemory => JwtSvidError::OutOfMemory,
            other => JwtSvidError::InvalidSubject(other),
        }
    }
}
