//! JSON, tokens and their times.
use spiffe_core::{JwtSvid, JwtSvidError};
use spiffe_json::{ReadError, read_json, write_json};
use std::alloc::{AllocError, Global};
use token_time::nanoseconds;

// cut: compact
/// A JSON text whose numbers are whole, without blanks and with its members in order; none for any other text.
pub fn compact(alloc: Global, text: &[u8]) -> Result<Option<Vec<u8>>, AllocError> {
    match read_json(alloc, text) {
        Ok(value) => Ok(Some(write_json(alloc, &value)?)),
        Err(ReadError::Json(_)) => Ok(None),
        Err(ReadError::OutOfMemory) => Err(AllocError),
    }
}
// end

// cut: subject
/// The subject of a token, whose signature nobody has checked.
pub fn subject(alloc: Global, token: &str) -> Result<String, JwtSvidError> {
    let svid = JwtSvid::parse_insecure(alloc, token)?;
    Ok(String::from_str(alloc, svid.claims().sub())?)
}
// end

// cut: is_past
/// Whether the time that a JSON number of seconds writes is behind another, in nanoseconds since 1970.
pub fn is_past(number: &[u8], now: i128) -> Option<bool> {
    Some(nanoseconds(number)? <= now)
}
// end
