//! Identifiers are moved to other threads and shared with them.
use crate::error::SpiffeIdError;
use crate::spiffe_id::SpiffeId;
use crate::trust_domain::TrustDomain;

fn is_shared<T: Send + Sync>() {}

pub(crate) fn identifiers_are_shared() {
    is_shared::<SpiffeId>();
    is_shared::<TrustDomain>();
    is_shared::<SpiffeIdError>();
}
