//! The identity source.
use identity_source::{IdentitySource, UpdateError};
use std::sync::Wait;

// cut: rotate
/// Applies an update, and gives the revision of its state; a refused text publishes nothing. `apply` may wait for readers,
/// who never wait: `reader.told(receipt)` makes sure that a reader's next state isn't earlier.
pub fn rotate<R: Wait>(
    rt: &R,
    source: &mut IdentitySource,
    text: &[u8],
) -> Result<u64, UpdateError> {
    let receipt = source.apply(rt, text, 64)?;
    Ok(receipt.revision())
}
// end
