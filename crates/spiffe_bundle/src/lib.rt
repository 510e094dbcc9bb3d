//! JWT authorities, trust bundles and sets of them, as the SPIFFE Trust Domain and Bundle standard has them: read from
//! JSON Web Key sets, kept by key id and by trust domain, and shared between threads. It ports a part of the crate
//! `spiffe`, and is offered under the licence Apache-2.0. Callers mostly list `spiffe_core`, which passes these items on.
//!
//! ```rust
//! /// The JWK that a trust domain publishes under this key ID.
//! pub fn key_of(
//!     alloc: Global,
//!     bundle: &JwtBundle,
//!     key_id: &str,
//! ) -> Result<Option<Vec<u8>>, JwtBundleError> {
//!     match bundle.find_jwt_authority(key_id) {
//!         Some(authority) => Ok(Some(Vec::from_slice(alloc, authority.jwk_json())?)),
//!         None => Ok(None),
//!     }
//! }
//! ```
#![tactic(auto)]

mod bundle_source;
mod bundles;
mod error;
mod jwt_authorities;
mod jwt_authority;
mod jwt_bundle;
mod jwt_bundle_set;
mod threads;

pub use bundle_source::BundleSource;
pub use bundles::Bundles;
pub use error::JwtBundleError;
pub use jwt_authorities::JwtAuthorities;
pub use jwt_authority::JwtAuthority;
pub use jwt_bundle::JwtBundle;
pub use jwt_bundle_set::JwtBundleSet;
