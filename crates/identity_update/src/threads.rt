//! Updates are moved to other threads and shared with them.
use crate::error::UpdateError;
use crate::update::Update;

fn is_shared<T: Send + Sync>() {}

pub(crate) fn updates_are_shared() {
    is_shared::<Update>();
    is_shared::<UpdateError>();
}
