//! Sources and sinks.
use identity_io::{ReadError, Sink, Source, read_all, write_all};
use std::alloc::Global;

// cut: copy
/// Copies all that is left of a source to a sink; `false` where the sink failed.
pub fn copy<S: Source, K: Sink>(
    alloc: Global,
    source: &mut S,
    sink: &mut K,
) -> Result<bool, ReadError> {
    let bytes = read_all(alloc, source)?;
    Ok(write_all(sink, &bytes).is_ok())
}
// end
