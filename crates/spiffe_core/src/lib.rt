//! SPIFFE identifiers, tokens, JWT authorities, trust bundles and the Broker header under one name: parsed once,
//! kept in canonical form, and shared between threads. It ports a part of the crate `spiffe`, and is offered under the licence Apache-2.0.
//!
//! It has no item of its own, and no library of this repository stands on it: each lists the crate whose items it uses.
//!
//! ```rust
//! /// Whether the workload of this text is one of the trust domain.
//! pub fn is_member(alloc: Global, id: &str, domain: &TrustDomain) -> Result<bool, SpiffeIdError> {
//!     Ok(SpiffeId::new(alloc, id)?.is_member_of(domain))
//! }
//! ```
#![tactic(auto)]

pub use broker_header::{
    CallError, InterceptorFn, Metadata, MetadataError, SecurityHeader, Status,
};
pub use spiffe_bundle::{
    BundleSource, Bundles, JwtAuthorities, JwtAuthority, JwtBundle, JwtBundleError, JwtBundleSet,
};
pub use spiffe_id::{
    DEFAULT_SVID, SPIFFE_SCHEME, SPIFFE_SCHEME_PREFIX, SPIFFE_SOCKET_ENV, SpiffeId, SpiffeIdError,
    TrustDomain, have_same_text, reread_id, reread_trust_domain, reread_trust_domain_id,
    uri_has_spiffe_scheme,
};
pub use spiffe_json::JsonError;
pub use spiffe_token::{Claims, JwtAlg, JwtSvid, JwtSvidError, Member, top_members};
