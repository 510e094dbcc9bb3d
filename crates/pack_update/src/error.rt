//! Why nothing was packed.
use identity_update::UpdateError;
use pack_manifest::ManifestError;
use spiffe_id::SpiffeIdError;
use std::alloc::{AllocError, AllocFailed};
use std::fmt;

/// Why a file that the manifest names was not taken.
#[derive(Clone, Copy, Debug, PartialEq, Eq)]
pub enum FileError {
    /// There is no file of this path.
    Missing,

    /// The file has more than 16,777,216 bytes.
    TooLong,

    /// The file begins with no value of DER, or holds one that is no key.
    Malformed,

    /// The file holds one value and more bytes.
    TrailingData {
        /// How many bytes the value has.
        decoded: usize,

        /// How many bytes follow it.
        remaining: usize,
    },
}

/// The first rule that a manifest and its files break, or what kept the rules from being tried. Entries and bundles are counted from 0.
#[derive(Clone, Debug, Drop, PartialEq, Eq)]
pub enum PackError {
    /// The lines of the text would have fewer than 4 characters.
    Width,

    /// The file is no manifest.
    Manifest(ManifestError),

    /// The `id` of an entry is no SPIFFE ID.
    Subject {
        /// Which entry it is.
        entry: usize,

        /// The rule of SPIFFE IDs that it breaks.
        cause: SpiffeIdError,
    },

    /// The file `key` of an entry holds no private key.
    KeyFile {
        /// Which entry it is.
        entry: usize,

        /// What is wrong with the file.
        cause: FileError,
    },

    /// The file `public` of an entry holds no public key.
    PublicFile {
        /// Which entry it is.
        entry: usize,

        /// What is wrong with the file.
        cause: FileError,
    },

    /// An entry names no file `public`, and its private key's document holds no public key.
    NoPublicKey {
        /// Which entry it is.
        entry: usize,
    },

    /// The `domain` of a bundle is no trust domain.
    Domain {
        /// Which bundle it is.
        bundle: usize,

        /// The rule of trust domains that it breaks.
        cause: SpiffeIdError,
    },

    /// The file `jwks` of a bundle was not read: it is missing or too long.
    JwksFile {
        /// Which bundle it is.
        bundle: usize,

        /// What is wrong with the file.
        cause: FileError,
    },

    /// The entries and bundles are no lawful update.
    Update(UpdateError),

    /// The disk failed, and its count of faults rose.
    Fault,

    /// No memory was left.
    OutOfMemory,
}

impl From<AllocError> for PackError {
    ghost use Rattle.std.specs.Prelude.{◌≡◌};
    ghost use Rattle.pack_update.specs.declared.error.PackError.TheVariants.{OutOfMemory};

    ghost from_gives = { λ _ e. e ≡ OutOfMemory };

    fn from(_: AllocError) -> Self {
        PackError::OutOfMemory
    }
}

impl<T: Drop> From<AllocFailed<T>> for PackError {
    ghost use Rattle.std.specs.Prelude.{◌≡◌};
    ghost use Rattle.pack_update.specs.declared.error.PackError.TheVariants.{OutOfMemory};

    ghost from_gives = { λ _ e. e ≡ OutOfMemory };

    fn from(_: AllocFailed<T>) -> Self {
        PackError::OutOfMemory
    }
}

impl fmt::Display for FileError {
    ghost use Rattle.std.specs.Prelude.{Some};
    ghost use Rattle.pack_update.specs.FileError.{file_rule};

    ghost output = { λ e. Some (file_rule e) };

    fn fmt<W: fmt::Write>(&self, f: &mut fmt::Formatter<W>) -> fmt::Result {
        match self {
            FileError::Missing => write!(f, "missing"),
            FileError::TooLong => write!(f, "too long"),
            FileError::Malformed => write!(f, "malformed"),
            FileError::TrailingData { decoded, remaining } => {
                write!(f, "trailing data: decoded {decoded}, remaining {remaining}")
            }
        }
    }
}
