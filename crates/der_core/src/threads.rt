//! Values are moved to other threads and shared with them.
use crate::{Any, AnyRef, Error, Length, ObjectIdentifier, Tag};

fn is_shared<T: Send + Sync>() {}

pub(crate) fn values_are_shared() {
    is_shared::<Tag>();
    is_shared::<Length>();
    is_shared::<ObjectIdentifier>();
    is_shared::<AnyRef<'static>>();
    is_shared::<Any>();
    is_shared::<Error>();
}
