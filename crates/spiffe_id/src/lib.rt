//! SPIFFE IDs and trust domains: text becomes a [`SpiffeId`] or a [`TrustDomain`] in canonical form, or
//! the answer names the first rule of the SPIFFE-ID standard that it breaks. It ports a part of the crate `spiffe`, and
//! is offered under the licence Apache-2.0.
//!
//! ```rust
//! /// Whether the workload of this text is one of the trust domain.
//! pub fn is_member(alloc: Global, id: &str, domain: &TrustDomain) -> Result<bool, SpiffeIdError> {
//!     Ok(SpiffeId::new(alloc, id)?.is_member_of(domain))
//! }
//! ```
#![tactic(auto)]

mod constants;
mod error;
mod laws;
mod path;
mod scheme;
mod spiffe_id;
mod threads;
mod trust_domain;

pub use constants::{DEFAULT_SVID, SPIFFE_SCHEME, SPIFFE_SCHEME_PREFIX, SPIFFE_SOCKET_ENV};
pub use error::SpiffeIdError;
pub use laws::{have_same_text, reread_id, reread_trust_domain, reread_trust_domain_id};
pub use scheme::uri_has_spiffe_scheme;
pub use spiffe_id::SpiffeId;
pub use trust_domain::TrustDomain;
