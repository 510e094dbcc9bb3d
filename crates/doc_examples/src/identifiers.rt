//! SPIFFE IDs and key sets.
use spiffe_core::{JwtBundle, JwtBundleError, SpiffeId, SpiffeIdError, TrustDomain};
use std::alloc::Global;

// cut: is_member
/// Whether the workload of this text is one of the trust domain.
pub fn is_member(alloc: Global, id: &str, domain: &TrustDomain) -> Result<bool, SpiffeIdError> {
    Ok(SpiffeId::new(alloc, id)?.is_member_of(domain))
}
// end

// cut: key_of
/// The JWK that a trust domain publishes under this key ID.
pub fn key_of(
    alloc: Global,
    bundle: &JwtBundle,
    key_id: &str,
) -> Result<Option<Vec<u8>>, JwtBundleError> {
    match bundle.find_jwt_authority(key_id) {
        Some(authority) => Ok(Some(Vec::from_slice(alloc, authority.jwk_json())?)),
        None => Ok(None),
    }
}
// end
