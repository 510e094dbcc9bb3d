//! Why a token isn't verified.
use spiffe_id::TrustDomain;
use spiffe_json::JsonError;
use spiffe_token::{JwtAlg, JwtSvidError};
use std::alloc::{AllocError, AllocFailed};
use std::marker::Model;

/// A member of an authority's JSON (RFC 7517, section 4; RFC 7518, section 6).
#[derive(Clone, Copy, Debug, PartialEq, Eq)]
pub enum Field {
    /// `alg`, the algorithm that the key is meant for.
    Alg,
    /// `use`, what the key is meant for.
    Use,
    /// `key_ops`, the operations that the key is meant for.
    KeyOps,
    /// `kty`, the key's type.
    Kty,
    /// `crv`, the curve of an elliptic curve key.
    Crv,
    /// `x`, a coordinate on the curve.
    X,
    /// `y`, a coordinate on the curve.
    Y,
    /// `n`, the modulus of an RSA key.
    N,
    /// `e`, the exponent of an RSA key.
    E,
}

/// What a token that could be judged failed at.
#[derive(Clone, Copy, Debug, PartialEq, Eq)]
pub enum JwtVerificationErrorKind {
    /// Its time has ended.
    Expired,
    /// Its time hasn't begun.
    NotYetValid,
    /// It is for none of the expected audiences.
    AudienceMismatch,
    /// The authority didn't sign it.
    InvalidSignature,
    /// It has no signature that can be judged.
    Other,
}

/// Why a token isn't valid. Contracts see its kind.
#[derive(Clone, Copy, Debug, PartialEq, Eq)]
pub struct JwtVerificationError {
    kind: JwtVerificationErrorKind,
}

impl Model for JwtVerificationError {
    ghost use Rattle.identity_verify.specs.declared.error.JwtVerificationErrorKind.{JwtVerificationErrorKind};

    ghost Value = { JwtVerificationErrorKind };

    ghost view = { λ e. e.kind };

    ghost inverse = { λ k. record { kind = k } };
}

impl JwtVerificationError {
    ghost use Rattle.std.specs.Prelude.{◌≡◌};

    pub(crate) fn new(kind: JwtVerificationErrorKind) -> Self
        ensures { result ≡ kind }
    {
        JwtVerificationError { kind }
    }

    /// What the token failed at.
    pub fn kind(&self) -> JwtVerificationErrorKind
        ensures { result ≡ self.now }
    {
        self.kind
    }
}

/// The first rule that breaks, or want of memory. `E` is why the source of bundles has no answer.
#[derive(Debug, Drop)]
pub enum VerifyError<E> {
    /// The time of the verification is before 1970 or after the year 9999.
    InvalidVerificationTime,
    /// The text is no token, for this cause.
    Token(JwtSvidError),
    /// The header isn't JSON, or has other members than `alg`, `kid` and `typ`.
    InvalidJoseHeader(JsonError),
    /// The claim `nbf` is no time.
    InvalidNotBefore,
    /// Tokens of this algorithm aren't verified.
    BackendUnsupportedAlgorithm(JwtAlg),
    /// The source has no answer for the token's trust domain.
    BundleSourceError(E),
    /// The source has no bundle of the token's trust domain.
    BundleNotFound(TrustDomain),
    /// The bundle has no authority of the token's key ID.
    AuthorityNotFound(String),
    /// This member of the authority isn't what it must be.
    InvalidAuthorityMetadata(Field),
    /// The authority is for another algorithm.
    AuthorityAlgorithmMismatch {
        /// The authority's.
        authority: JwtAlg,
        /// The token's.
        token: JwtAlg,
    },
    /// The authority isn't for signatures.
    UnsupportedAuthorityPurpose,
    /// The authority isn't for the verification of signatures.
    AuthorityVerificationNotPermitted,
    /// The authority isn't on the curve of this algorithm, which is the token's.
    AuthorityCurveMismatch(JwtAlg),
    /// This member of the authority isn't the bytes that it must be.
    InvalidAuthorityKeyComponent(Field),
    /// This member of the authority begins with a byte of zeros.
    NonCanonicalRsaComponent(Field),
    /// The authority's modulus has so few bits.
    WeakRsaAuthority(usize),
    /// The token isn't valid.
    InvalidToken(JwtVerificationError),
    /// There was no memory for the answer; nothing is said of the token.
    OutOfMemory,
}

impl<E> From<AllocError> for VerifyError<E> {
    ghost use Rattle.std.specs.Prelude.{◌≡◌};
    ghost use Rattle.identity_verify.specs.declared.error.VerifyError.TheVariants.{OutOfMemory};

    ghost from_gives = { λ _ e. e ≡ OutOfMemory };

    fn from(_e: AllocError) -> VerifyError<E> {
        VerifyError::OutOfMemory
    }
}

impl<E> From<JwtSvidError> for VerifyError<E> {
    ghost use Rattle.std.specs.Prelude.{◌≡◌};
    ghost use Rattle.identity_verify.specs.VerifyError.{token_error};

    ghost from_gives = { λ cause e. e ≡ token_error cause };

    fn from(cause: JwtSvidError) -> VerifyError<E> {
        match cause {
            JwtSvidError::OutOfMemory => VerifyError::OutOfMemory,
            broken => VerifyError::Token(broken),
        }
    }
}
