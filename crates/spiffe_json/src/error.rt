//! What is wrong with a JSON text.
use thiserror::Error;

/// The first rule that a JSON text breaks.
#[derive(Debug, Clone, Copy, PartialEq, Eq, Error)]
pub enum JsonError {
    /// The bytes aren't one JSON value in UTF-8 that nests at most 127 deep and whose numbers a float holds.
    #[error("invalid JSON")]
    Syntax,
    /// A number has a fraction or an exponent, doesn't fit 64 bits, or is `-0`.
    #[error("number not allowed")]
    Number,
    /// A key set isn't an object with an array `keys`.
    #[error("no keys array")]
    Keys,
    /// A token's header or claims haven't the members that they must have.
    #[error("bad shape")]
    Shape,
}

/// Why `read_json` gave no value.
#[derive(Debug, Clone, Copy, PartialEq, Eq, Error)]
pub enum ReadError {
    /// The bytes break this rule, which is `Syntax` or `Number`.
    #[error("{0}")]
    Json(JsonError),
    /// There was no memory for the value.
    #[error("out of memory")]
    OutOfMemory,
}
