//! Why a public key was not read, made or written.
use der_small::ObjectIdentifier;
use std::{error, fmt};

/// What a call of this crate answers.
pub type Result<T> = std::result::Result<T, Error>;

/// Why a public key was not read, made or written.
#[derive(Clone, Copy, Debug, PartialEq, Eq)]
pub enum Error {
    /// The identifier has no parameters where some are needed.
    AlgorithmParametersMissing,

    /// The bytes, the value or the file were refused below.
    Asn1(der_small::Error),

    /// The key is not one of its algorithm. Only callers make this.
    KeyMalformed,

    /// The algorithm, or its parameters, are others than the caller wants.
    OidUnknown {
        /// What the identifier holds.
        oid: ObjectIdentifier,
    },

    /// There was no memory left.
    OutOfMemory,
}

impl error::Error for Error {}

impl fmt::Display for Error {
    ghost use Rattle.spki.specs.Error.{error_text};
    ghost use Rattle.std.specs.Prelude.{Some};

    ghost output = { λ e. Some (error_text e) };

    fn fmt<W: fmt::Write>(&self, f: &mut fmt::Formatter<W>) -> fmt::Result {
        match self {
            Error::AlgorithmParametersMissing => {
                write!(f, "AlgorithmIdentifier parameters missing")
            }
            Error::Asn1(error) => write!(f, "ASN.1 error: {error}"),
            Error::KeyMalformed => write!(f, "SPKI cryptographic key data malformed"),
            Error::OidUnknown { oid } => write!(f, "unknown/unsupported algorithm OID: {oid}"),
            Error::OutOfMemory => write!(f, "out of memory"),
        }
    }
}

impl From<der_small::Error> for Error {
    ghost use Rattle.std.specs.Prelude.{◌≡◌};
    ghost use Rattle.spki.specs.Error.{from_der_error};

    ghost from_gives = { λ error result. result ≡ from_der_error error };

    fn from(error: der_small::Error) -> Error {
        match error {
            der_small::Error::OidUnknown { oid } => Error::OidUnknown { oid },
            der_small::Error::OutOfMemory => Error::OutOfMemory,
            error => Error::Asn1(error),
        }
    }
}
