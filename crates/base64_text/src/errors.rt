//! Why a call is refused.
#![tactic(auto)]

ghost use Rattle.std.specs.Prelude.{◌≡◌, Some, codes};
ghost use Rattle.std.specs.IoError.{error_kind};
ghost use Rattle.base64_text.specs.Errors.{error_text, io_kind};
ghost use Rattle.base64_text.specs.declared.errors.Error.TheVariants.{InvalidEncoding, InvalidLength, OutOfMemory};

use std::alloc::AllocError;
use std::str::Utf8Error;
use std::{fmt, io};

const INVALID_ENCODING_MSG: &str = "invalid Base64 encoding";

const INVALID_LENGTH_MSG: &str = "invalid Base64 length";

/// An output that is too short, or an input that is too long.
#[derive(Clone, Copy, Debug, PartialEq, Eq)]
pub struct InvalidLengthError;

impl fmt::Display for InvalidLengthError {
    ghost output = { λ _. Some (codes "invalid Base64 length") };

    fn fmt<W: fmt::Write>(&self, f: &mut fmt::Formatter<W>) -> fmt::Result {
        f.write_str(INVALID_LENGTH_MSG)
    }
}

/// A text that is no encoding.
#[derive(Clone, Copy, Debug, PartialEq, Eq)]
pub struct InvalidEncodingError;

impl fmt::Display for InvalidEncodingError {
    ghost output = { λ _. Some (codes "invalid Base64 encoding") };

    fn fmt<W: fmt::Write>(&self, f: &mut fmt::Formatter<W>) -> fmt::Result {
        f.write_str(INVALID_ENCODING_MSG)
    }
}

/// Any refusal of this crate.
#[derive(Clone, Copy, Debug, PartialEq, Eq)]
pub enum Error {
    /// The text is no encoding: a character outside the table, wrong padding, bits after the last byte that
    /// aren't zero, or a line of another length.
    InvalidEncoding = 1,

    /// An output is too short, an input too long, a text in lines is empty, or a line width is below 4.
    InvalidLength = 2,

    /// No memory was left. Nothing was changed, and the same call may succeed later.
    OutOfMemory = 3,
}

impl fmt::Display for Error {
    ghost output = { λ e. Some (error_text e) };

    fn fmt<W: fmt::Write>(&self, f: &mut fmt::Formatter<W>) -> fmt::Result {
        f.write_str(match self {
            Error::InvalidEncoding => INVALID_ENCODING_MSG,
            Error::InvalidLength => INVALID_LENGTH_MSG,
            Error::OutOfMemory => "out of memory",
        })
    }
}

impl From<InvalidEncodingError> for Error {
    ghost from_gives = { λ _ e. e ≡ InvalidEncoding };

    fn from(_error: InvalidEncodingError) -> Error {
        Error::InvalidEncoding
    }
}

impl From<InvalidLengthError> for Error {
    ghost from_gives = { λ _ e. e ≡ InvalidLength };

    fn from(_error: InvalidLengthError) -> Error {
        Error::InvalidLength
    }
}

impl From<Utf8Error> for Error {
    ghost from_gives = { λ _ e. e ≡ InvalidEncoding };

    fn from(_error: Utf8Error) -> Error {
        Error::InvalidEncoding
    }
}

impl From<AllocError> for Error {
    ghost from_gives = { λ _ e. e ≡ OutOfMemory };

    fn from(_error: AllocError) -> Error {
        Error::OutOfMemory
    }
}

/// The kind alone is kept: `InvalidData`, or `OutOfMemory` for want of memory.
impl From<Error> for io::Error {
    ghost from_gives = { λ e io. error_kind io ≡ io_kind e };

    fn from(error: Error) -> io::Error {
        io::Error::from(match error {
            Error::InvalidEncoding | Error::InvalidLength => io::ErrorKind::InvalidData,
            Error::OutOfMemory => io::ErrorKind::OutOfMemory,
        })
    }
}
