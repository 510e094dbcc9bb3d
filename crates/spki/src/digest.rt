//! Hashing what is written.
ghost use Rattle.std.specs.Prelude.{ℕ};

use der_small::{Result, Writer};
use sha2::{Digest, Sha256};

/// A SHA-256 digest of 32 bytes.
pub type FingerprintBytes = [u8; 32];

/// A writer that hashes what it is given and keeps none of it.
#[derive(Drop)]
pub struct DigestWriter<'d>(pub &'d mut Sha256);

impl<'d> Writer for DigestWriter<'d> {
    ghost HasTold = { λ w m. ⟦<Sha256 as Digest>⟧.holds w.0.now m };

    // It never refuses.
    ghost refusals = { λ _. 0 };

    ghost borrow = { λ w. w.0.ghost_name };

    fn write(&mut self, slice: &[u8]) -> Result<()> {
        self.0.update(slice);
        Ok(())
    }
}
