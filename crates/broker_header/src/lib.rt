//! The security header of the SPIFFE Broker API: a [`SecurityHeader`] sets it in the [`Metadata`] of each call, after a
//! function of the caller's. It ports a part of the crate `spiffe` and is offered under Apache-2.0 alone.
//!
//! ```rust
//! /// Metadata with the header, and without an entry that isn't to leave.
//! pub fn with_header(metadata: Metadata) -> Result<Metadata, CallError> {
//!     let mut header = SecurityHeader::with_interceptor(|metadata: &mut Metadata| {
//!         metadata.remove("authorization");
//!         Ok(())
//!     });
//!     header.call(metadata)
//! }
//! ```
#![tactic(auto)]

mod error;
mod metadata;
mod security_header;

pub use error::{CallError, MetadataError, Status};
pub use metadata::Metadata;
pub use security_header::{InterceptorFn, SecurityHeader};

#[cfg(test)]
mod tests;
