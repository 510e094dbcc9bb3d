//! Why a private key was not read, made or written.
use std::{error, fmt};

/// What a call of this crate answers.
pub type Result<T> = std::result::Result<T, Error>;

/// Why a private key was not read, made or written.
#[derive(Clone, Copy, Debug, PartialEq, Eq)]
pub enum Error {
    /// The bytes, the value or the file were refused below.
    Asn1(der_small::Error),

    /// The key is not one of its algorithm. Only callers make this.
    KeyMalformed(KeyError),

    /// The parameters are not those of the algorithm. Only callers make this.
    ParametersMalformed,

    /// The public key was refused.
    PublicKey(spki::Error),

    /// There was no memory left.
    OutOfMemory,
}

/// What is wrong with a key.
#[derive(Clone, Copy, Debug, PartialEq, Eq)]
pub enum KeyError {
    /// It is no key of its algorithm.
    Invalid,

    /// It has fewer bytes than its algorithm wants.
    TooShort,

    /// It has more bytes than its algorithm wants.
    TooLong,
}

impl error::Error for Error {}

impl error::Error for KeyError {}

impl fmt::Display for Error {
    ghost use Rattle.pkcs8.specs.Error.{error_text};
    ghost use Rattle.std.specs.Prelude.{Some};

    ghost output = { λ e. Some (error_text e) };

    fn fmt<W: fmt::Write>(&self, f: &mut fmt::Formatter<W>) -> fmt::Result {
        match self {
            Error::Asn1(error) => write!(f, "PKCS#8 ASN.1 error: {error}"),
            Error::KeyMalformed(error) => write!(f, "PKCS#8 key malformed: {error}"),
            Error::ParametersMalformed => write!(f, "PKCS#8 algorithm parameters malformed"),
            Error::PublicKey(error) => write!(f, "public key error: {error}"),
            Error::OutOfMemory => write!(f, "out of memory"),
        }
    }
}

impl fmt::Display for KeyError {
    ghost use Rattle.pkcs8.specs.Error.{key_error_text};
    ghost use Rattle.std.specs.Prelude.{Some};

    ghost output = { λ e. Some (key_error_text e) };

    fn fmt<W: fmt::Write>(&self, f: &mut fmt::Formatter<W>) -> fmt::Result {
        match self {
            KeyError::Invalid => write!(f, "key invalid"),
            KeyError::TooShort => write!(f, "key too short"),
            KeyError::TooLong => write!(f, "key too long"),
        }
    }
}

impl From<KeyError> for Error {
    ghost use Rattle.std.specs.Prelude.{◌≡◌};
    ghost use Rattle.pkcs8.specs.declared.error.Error.TheVariants.{KeyMalformed};

    ghost from_gives = { λ error result. result ≡ KeyMalformed error };

    fn from(error: KeyError) -> Error {
        Error::KeyMalformed(error)
    }
}

impl From<der_small::Error> for Error {
    ghost use Rattle.std.specs.Prelude.{◌≡◌};
    ghost use Rattle.pkcs8.specs.Error.{from_der_error};

    ghost from_gives = { λ error result. result ≡ from_der_error error };

    fn from(error: der_small::Error) -> Error {
        match error {
            der_small::Error::OutOfMemory => Error::OutOfMemory,
            error => Error::Asn1(error),
        }
    }
}

impl From<spki::Error> for Error {
    ghost use Rattle.std.specs.Prelude.{◌≡◌};
    ghost use Rattle.pkcs8.specs.Error.{from_spki_error};

    ghost from_gives = { λ error result. result ≡ from_spki_error error };

    fn from(error: spki::Error) -> Error {
        match error {
            spki::Error::OutOfMemory => Error::OutOfMemory,
            spki::Error::Asn1(der_small::Error::OutOfMemory) => Error::OutOfMemory,
            error => Error::PublicKey(error),
        }
    }
}

impl From<Error> for spki::Error {
    ghost use Rattle.std.specs.Prelude.{◌≡◌};
    ghost use Rattle.pkcs8.specs.Error.{to_spki_error};

    ghost from_gives = { λ error result. result ≡ to_spki_error error };

    fn from(error: Error) -> spki::Error {
        match error {
            Error::Asn1(der_small::Error::OutOfMemory) => spki::Error::OutOfMemory,
            Error::Asn1(error) => spki::Error::Asn1(error),
            Error::PublicKey(spki::Error::Asn1(der_small::Error::OutOfMemory)) => {
                spki::Error::OutOfMemory
            }
            Error::PublicKey(error) => error,
            Error::OutOfMemory => spki::Error::OutOfMemory,
            Error::KeyMalformed(_) | Error::ParametersMalformed => spki::Error::KeyMalformed,
        }
    }
}
