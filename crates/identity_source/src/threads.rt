//! Readers, receipts and snapshots are sent to other threads.
use crate::kept_reader::{IdentityReader, KeptReader};
use crate::missing::Missing;
use crate::receipt::Receipt;
use crate::snapshot::Snapshot;
use crate::source::IdentitySource;
use crate::window::Window;

fn is_sent<T: Send>() {}

fn is_shared<T: Send + Sync>() {}

pub(crate) fn sources_and_readers_are_sent() {
    is_sent::<IdentitySource>();
    is_sent::<IdentityReader>();
}

pub(crate) fn receipts_and_snapshots_are_shared() {
    is_shared::<Receipt>();
    is_shared::<Snapshot>();
}

pub(crate) fn readers_over_any_window_are_sent<W: Window + Send>() {
    is_sent::<Missing<W>>();
    is_sent::<KeptReader<W>>();
    is_sent::<KeptReader<Missing<W>>>();
}
