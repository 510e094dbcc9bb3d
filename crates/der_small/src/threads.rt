//! Values are moved to other threads and shared with them.
use crate::{
    BitString, BitStringRef, Document, OctetString, OctetStringRef, SecretDocument, Utf8Ref,
};

fn is_shared<T: Send + Sync>() {}

pub(crate) fn values_are_shared() {
    is_shared::<BitStringRef<'static>>();
    is_shared::<BitString>();
    is_shared::<OctetStringRef<'static>>();
    is_shared::<OctetString>();
    is_shared::<Utf8Ref<'static>>();
    is_shared::<Document>();
    is_shared::<SecretDocument>();
}
