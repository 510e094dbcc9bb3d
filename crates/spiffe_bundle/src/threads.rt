//! Authorities, bundles and sets are moved to other threads and shared with them.
use crate::error::JwtBundleError;
use crate::jwt_authority::JwtAuthority;
use crate::jwt_bundle::JwtBundle;
use crate::jwt_bundle_set::JwtBundleSet;
use std::sync::Arc;

fn is_shared<T: Send + Sync>() {}

pub(crate) fn bundles_are_shared() {
    is_shared::<JwtAuthority>();
    is_shared::<JwtBundle>();
    is_shared::<JwtBundleSet>();
    is_shared::<Arc<JwtBundle>>();
    is_shared::<JwtBundleError>();
}
