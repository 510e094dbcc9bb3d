//! The security header of the Broker API.
use spiffe_core::{CallError, Metadata, SecurityHeader};

// cut: with_header
/// Metadata with the header, and without an entry that isn't to leave.
pub fn with_header(metadata: Metadata) -> Result<Metadata, CallError> {
    let mut header = SecurityHeader::with_interceptor(|metadata: &mut Metadata| {
        metadata.remove("authorization");
        Ok(())
    });
    header.call(metadata)
}
// end
