//! Bytes that were read and not yet taken.
ghost use Rattle.std.specs.Prelude.{◌≡◌, ◌≤◌, ◌<◌, ◌+◌, ◌++◌, ℕ, List, [], drop, length, true, false, Err, IfOk, OnErr, OnOk};
ghost use Rattle.std.specs.Io.KnownBytes.{Keeps, IsAtEnd, prepend_known};
ghost use Rattle.identity_io.specs.Causes.{Rose};

use identity_io::{Failed, Source};
use std::alloc::{AllocError, Global};
use std::marker::Model;

/// Why reading stopped.
#[derive(Clone, Copy, Debug, PartialEq, Eq)]
pub enum Stop {
    /// The source failed.
    Failed,

    /// No memory was left.
    OutOfMemory,
}

impl From<AllocError> for Stop {
    ghost use Rattle.tool_script.specs.declared.ahead.Stop.TheVariants.{OutOfMemory};

    ghost from_gives = { λ _ stop. stop ≡ OutOfMemory };

    fn from(_: AllocError) -> Self {
        Stop::OutOfMemory
    }
}

/// Bytes that were read ahead of what was taken. It holds no more than one request and what one reading brought behind it.
#[derive(Drop)]
pub struct Ahead {
    bytes: Vec<u8>,
}

impl Model for Ahead {
    ghost Value = { List ℕ };

    ghost view = { λ a. a.bytes.items };
}

impl Ahead {
    /// Nothing was read yet.
    pub fn new(alloc: Global) -> Self
        ensures { result ≡ [] }
    {
        Ahead {
            bytes: Vec::new(alloc),
        }
    }

    /// The bytes in their order.
    pub fn as_slice(&self) -> &[u8]
        ensures { result.now ≡ self.now }
    {
        &self.bytes
    }

    /// Lets go of the first bytes.
    pub fn skip(&mut self, count: usize)
        requires { count ≤ length self.old }
        ensures { self.new ≡ drop count self.old }
    {
        let kept = self.bytes.len() - count;
        self.bytes.copy_within(count.., 0);
        self.bytes.truncate(kept);
    }

    /// Reads another piece. `false` is the end of the source. It errs where the source fails, and for want of memory.
    pub fn fill<S: Source>(&mut self, source: &mut S) -> Result<bool, Stop>
        ensures pending { OnOk result (Keeps (prepend_known self.old (S.left source.old)) (prepend_known self.new (S.left source.new))) }
        ensures grows { OnOk result ((more : List ℕ) × (self.new ≡ self.old ++ more)) }
        ensures more { IfOk result (λ more. more ≡ true → length self.old < length self.new) }
        ensures end { IfOk result (λ more. more ≡ false → (self.new ≡ self.old) × IsAtEnd (S.left source.new)) }
        ensures stopped { result ≡ Err Stop.Failed → (self.new ≡ self.old) × Keeps (S.left source.old) (S.left source.new) }
        ensures failed { result ≡ Err Stop.Failed → Rose (S.faults source.old) (S.faults source.new) }
        ensures later { S.faults source.old ≤ S.faults source.new }
    {
        let mut piece = [0u8; 8192];
        let count = match source.read(&mut piece) {
            Ok(count) => count,
            Err(Failed) => return Err(Stop::Failed),
        };
        if count == 0 {
            return Ok(false);
        }
        self.bytes.extend_from_slice(&piece[..count])?;
        Ok(true)
    }
}
