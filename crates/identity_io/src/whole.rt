//! Reading an input to its end, and writing all of some bytes.
ghost use Rattle.std.specs.Prelude.{ℕ, ◌≡◌, ◌≤◌, ◌<◌, Err, IfOk, IfSome, OnOk, length};
ghost use Rattle.std.specs.Io.KnownBytes.{Appends, Consumes, IsAtEnd};
ghost use Rattle.identity_io.specs.Causes.{HasCause, Rose};
ghost use Rattle.identity_io.specs.Whole.{AppendsPrefix};

use crate::{Failed, Sink, Source};
use std::alloc::{AllocError, Global};

/// The most bytes that one input or file may have: 16 MiB.
pub const LIMIT: usize = 16_777_216;

/// Why an input was not read to its end.
#[derive(Clone, Copy, Debug, PartialEq, Eq)]
pub enum ReadError {
    /// The source failed.
    Failed,
    /// The input has more than `LIMIT` bytes.
    TooLong,
    /// No memory was left.
    OutOfMemory,
}

impl From<AllocError> for ReadError {
    ghost use Rattle.identity_io.specs.declared.whole.ReadError.TheVariants.{OutOfMemory};

    ghost from_gives = { λ _ e. e ≡ OutOfMemory };

    fn from(_: AllocError) -> Self {
        ReadError::OutOfMemory
    }
}

/// Reads all the bytes that are left, in pieces of 64 KiB: `TooLong` where they are more than 16 MiB, `Failed` where the source fails,
/// `OutOfMemory`.
pub fn read_all<S: Source>(alloc: Global, source: &mut S) -> Result<Vec<u8>, ReadError>
    ensures bytes { IfOk result (λ v. Consumes (S.left source.old) (S.left source.new) v.items × IsAtEnd (S.left source.new)) }
    ensures within { IfOk result (λ v. length v.items ≤ LIMIT) }
    ensures too_long { result ≡ Err ReadError.TooLong → IfSome (S.left source.old) (λ xs. LIMIT < length xs) }
    ensures failed { result ≡ Err ReadError.Failed → Rose (S.faults source.old) (S.faults source.new) }
    ensures later { S.faults source.old ≤ S.faults source.new }
{
    let mut all = Vec::new(alloc);
    let mut piece = [0u8; 65536];
    'pieces: while all.len() <= LIMIT {
        let count = match source.read(&mut piece) {
            Ok(count) => count,
            Err(Failed) => return Err(ReadError::Failed),
        };
        if count == 0 {
            return Ok(all);
        }
        all.extend_from_slice(&piece[..count])?;
    }
    Err(ReadError::TooLong)
}

/// Writes all of the bytes, in as many pieces as the sink asks for: `Failed` where the sink fails, and then a first part of them was written.
pub fn write_all<K: Sink>(sink: &mut K, bytes: &[u8]) -> Result<(), Failed>
    ensures ok { OnOk result (Appends (K.written sink.old) (K.written sink.new) bytes.now) }
    ensures prefix { AppendsPrefix (K.written sink.old) (K.written sink.new) bytes.now }
    ensures cause { HasCause (K.faults sink.old) (K.faults sink.new) result }
{
    let mut done = 0;
    'pieces: while done < bytes.len() {
        done += sink.write(&bytes[done..])?;
    }
    Ok(())
}
