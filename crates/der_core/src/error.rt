//! Why a value was not read, made or written.
ghost use Rattle.std.specs.Prelude.{◌≡◌};
ghost use Rattle.der_core.specs.declared.error.Error.TheVariants.{OutOfMemory};

use crate::{ObjectIdentifier, Tag};
use std::alloc::AllocError;
use std::{error, fmt};

/// Why a value was not read, made or written.
#[derive(Clone, Copy, Debug, PartialEq, Eq)]
pub enum Error {
    /// No front of the bytes is an encoding, or an argument is no value of the profile.
    Malformed,

    /// The bytes begin with an encoding, and more follow it.
    TrailingData {
        /// How many bytes the encoding has.
        decoded: usize,

        /// How many bytes follow it.
        remaining: usize,
    },

    /// A value of any tag was read as one of another tag.
    TagUnexpected {
        /// The tag that was asked for.
        expected: Tag,

        /// The tag that the value has.
        actual: Tag,
    },

    /// The encoding, or a part of it, would reach 2^32 bytes.
    Overlength,

    /// The text is no object identifier.
    OidMalformed,

    /// An identifier that the caller has no use for. Nothing here answers it: it is for crates above.
    OidUnknown {
        /// The identifier.
        oid: ObjectIdentifier,
    },

    /// The disk has no file of this path.
    FileMissing,

    /// The disk failed.
    FileFault,

    /// The file is longer than a disk reads.
    FileTooLong,

    /// There was no memory left.
    OutOfMemory,
}

impl error::Error for Error {}

impl From<AllocError> for Error {
    ghost from_gives = { λ _ error. error ≡ OutOfMemory };

    fn from(_error: AllocError) -> Error {
        Error::OutOfMemory
    }
}

impl fmt::Display for Error {
    ghost use Rattle.der_core.specs.Error.{error_text};
    ghost use Rattle.std.specs.Prelude.{Some};

    ghost output = { λ e. Some (error_text e) };

    #[tactic(auto, using(std::proofs::lemmas::Fmt::hex_byte))]
    fn fmt<W: fmt::Write>(&self, f: &mut fmt::Formatter<W>) -> fmt::Result {
        match self {
            Error::Malformed => write!(f, "malformed"),
            Error::TrailingData { decoded, remaining } => {
                let decoded = *decoded;
                let remaining = *remaining;
                write!(f, "trailing data: decoded {decoded}, remaining {remaining}")
            }
            Error::TagUnexpected { expected, actual } => {
                let expected = expected.byte();
                let actual = actual.byte();
                write!(
                    f,
                    "unexpected tag: expected {expected:02X}, actual {actual:02X}"
                )
            }
            Error::Overlength => write!(f, "length too large"),
            Error::OidMalformed => write!(f, "malformed OID"),
            Error::OidUnknown { oid } => write!(f, "unknown OID: {oid}"),
            Error::FileMissing => write!(f, "file missing"),
            Error::FileFault => write!(f, "file fault"),
            Error::FileTooLong => write!(f, "file too long"),
            Error::OutOfMemory => write!(f, "out of memory"),
        }
    }
}
