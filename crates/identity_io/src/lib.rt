//! Byte sources and sinks that count their faults, so that a contract can say what caused an answer:
//! the traits, forms in memory that fail on demand, adapters over std's readers and writers, and
//! reading or writing a whole input.
//!
//! ```rust
//! /// Copies all that is left of a source to a sink; `false` where the sink failed.
//! pub fn copy<S: Source, K: Sink>(
//!     alloc: Global,
//!     source: &mut S,
//!     sink: &mut K,
//! ) -> Result<bool, ReadError> {
//!     let bytes = read_all(alloc, source)?;
//!     Ok(write_all(sink, &bytes).is_ok())
//! }
//! ```
#![tactic(auto)]

mod disk;
pub mod laws;
mod memory_disk;
mod memory_sink;
mod memory_source;
mod sink;
mod source;
mod standard;
mod standard_disk;
mod sure;
mod whole;

pub use disk::{Disk, DiskError};
pub use memory_disk::MemoryDisk;
pub use memory_sink::MemorySink;
pub use memory_source::MemorySource;
pub use sink::Sink;
pub use source::{Failed, Source};
pub use standard::{StdSink, StdSource};
pub use standard_disk::StdDisk;
pub use sure::{SureSink, SureSource};
pub use whole::{LIMIT, ReadError, read_all, write_all};

#[cfg(test)]
mod tests;
