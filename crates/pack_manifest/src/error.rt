//! Why a text is no manifest.
use std::fmt;

/// Why a file is no manifest.
#[derive(Clone, Copy, Debug, PartialEq, Eq)]
pub enum ManifestError {
    /// There is no file of this path.
    Missing,

    /// The file has more than 16,777,216 bytes.
    TooLong,

    /// The bytes aren't one JSON value in UTF-8 that nests at most 127 deep and whose numbers a float holds.
    Syntax,

    /// A number has a fraction or an exponent, doesn't fit 64 bits, or is `-0`.
    Number,

    /// The value isn't an object with the members of a manifest, each of its kind and none twice, and no others.
    Shape,
}

/// Why no manifest was read.
#[derive(Clone, Copy, Debug, PartialEq, Eq)]
pub enum ReadError {
    /// The text breaks this rule.
    Manifest(ManifestError),

    /// No memory was left.
    OutOfMemory,
}

impl fmt::Display for ManifestError {
    ghost use Rattle.std.specs.Prelude.{Some};
    ghost use Rattle.pack_manifest.specs.ManifestError.{manifest_rule};

    ghost output = { λ e. Some (manifest_rule e) };

    fn fmt<W: fmt::Write>(&self, f: &mut fmt::Formatter<W>) -> fmt::Result {
        match self {
            ManifestError::Missing => write!(f, "missing"),
            ManifestError::TooLong => write!(f, "too long"),
            ManifestError::Syntax => write!(f, "invalid JSON"),
            ManifestError::Number => write!(f, "number not allowed"),
            ManifestError::Shape => write!(f, "bad shape"),
        }
    }
}
