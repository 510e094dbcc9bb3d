//! What bytes are written to.
ghost use Rattle.std.specs.Prelude.{◌≡◌, ◌++◌, ◌≤◌, ℕ, List, [], Option as Maybe, Some, None, IfErr, is_ok, if◌then◌else◌};
ghost use Rattle.identity_io.specs.Causes.{Rose};
ghost use Rattle.identity_io.specs.Memory.{one_more};
ghost use Rattle.der_core.specs.declared.error.Error.{Error as DerError};
ghost use Rattle.der_core.specs.declared.error.Error.TheVariants as error;
ghost use Rattle.der_core.specs.Encode.{Refused};

use crate::Error;

/// What bytes are written to.
pub trait Writer {
    // Holds of a writer and the bytes that it was given. It never holds of one that does not tell.
    ghost HasTold: { Self → List ℕ → Type 0 };

    // How often it refused.
    ghost refusals: { Self → ℕ };

    // The error of its last refusal, where it refused.
    ghost last_refusal: { Self → Maybe DerError } = { λ _. None };

    // The borrow that it writes through, where it has one.
    ghost borrow: { Self → ℕ } = { λ _. 0 };

    /// Takes the whole slice, or refuses it and takes nothing. A refusal may be any error.
    fn write(&mut self, slice: &[u8]) -> Result<(), Error>
        ensures told { (m : List ℕ) → HasTold self.old m → HasTold self.new (if is_ok result then m ++ slice.now else m) }
        ensures count { refusals self.old ≤ refusals self.new }
        ensures same_borrow { borrow self.new ≡ borrow self.old }
        ensures refused { IfErr result (Refused refusals last_refusal self.old self.new) };
}

/// A writer that keeps the bytes, behind those that its vector has. It refuses only for want of memory.
#[derive(Drop)]
pub struct VecWriter {
    pub bytes: Vec<u8>,
    /// How often it refused.
    pub refusals: u64,
}

impl VecWriter {
    /// A writer behind the bytes of this vector.
    pub fn behind(bytes: Vec<u8>) -> Self
        ensures kept { result.bytes ≡ bytes }
        ensures none { result.refusals ≡ 0 }
    {
        VecWriter { bytes, refusals: 0 }
    }
}

impl Writer for VecWriter {
    ghost HasTold = { λ w m. w.bytes.items ≡ m };

    ghost refusals = { λ w. w.refusals };

    ghost last_refusal = { λ _. Some error.OutOfMemory };

    fn write(&mut self, slice: &[u8]) -> Result<(), Error>
        ensures told { self.new.bytes.items ≡ (if is_ok result then self.old.bytes.items ++ slice.now else self.old.bytes.items) }
        ensures count { self.old.refusals ≤ self.new.refusals }
        ensures refused { IfErr result (λ e. (e ≡ Error.OutOfMemory) × Rose self.old.refusals self.new.refusals) }
        ensures refusals { self.new.refusals ≡ (if is_ok result then self.old.refusals else one_more self.old.refusals) }
    {
        if self.bytes.extend_from_slice(slice).is_ok() {
            return Ok(());
        }
        if self.refusals < u64::MAX {
            self.refusals += 1;
        }
        Err(Error::OutOfMemory)
    }
}
