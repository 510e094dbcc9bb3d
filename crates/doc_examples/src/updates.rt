//! Updates.
use base64ct::LineEnding;
use identity_update::{Update, UpdateError};
use std::alloc::Global;

// cut: rewrap
/// An update's text in lines of 76 characters, of one in lines of 64.
pub fn rewrap(alloc: Global, text: &[u8]) -> Result<String, UpdateError> {
    let update = Update::read(alloc, text, 64)?;
    Ok(update.to_text(alloc, 76, LineEnding::CRLF)?)
}
// end

// cut: withdraw
/// The text of an update that withdraws all identities for a reason of 1 to 255 bytes.
pub fn withdraw(alloc: Global, reason: &str) -> Result<String, UpdateError> {
    let update = Update::withdrawal(alloc, reason, Vec::new(alloc))?;
    Ok(update.to_text(alloc, 64, LineEnding::LF)?)
}
// end
