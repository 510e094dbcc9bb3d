//! Decoding in pieces.
ghost use Rattle.std.specs.Prelude.{◌≡◌, ◌≢◌, ◌≤◌, ◌<◌, ◌++◌, ◌⊎◌, List, ℕ, length, map, take, sum, Err, Some, None, Contains, IsOk, IfErr, OnOk};

use base64ct::{Decoder, Encoding, Error};
use std::alloc::Global;

/// Appends the next bytes of a text, which are decoded in pieces of the given lengths: the same bytes however they
/// are cut. `InvalidLength` tells that fewer are left, `InvalidEncoding` that a block that they need is bad; what
/// was decoded before stays appended.
pub fn decode_pieces<E: Encoding>(
    alloc: Global,
    decoder: &mut Decoder<'_, E>,
    lengths: &[usize],
    bytes: &mut Vec<u8>,
) -> Result<(), Error>
    ensures bytes { OnOk result ((b : List ℕ) × (length b ≡ sum lengths.now) × (decoder.old ≡ map Some b ++ decoder.new)
        × (bytes.new.items ≡ bytes.old.items ++ b)) }
    ensures err { IfErr result (λ e. (e ≡ Error.OutOfMemory) ⊎ (((e ≡ Error.InvalidLength) × (length decoder.old < sum lengths.now))
        ⊎ ((e ≡ Error.InvalidEncoding) × Contains (take (sum lengths.now) decoder.old) None))) }
    ensures whole { (b : List ℕ) → decoder.old ≡ map Some b → sum lengths.now ≤ length b → result ≢ Err Error.OutOfMemory
        → IsOk result × (bytes.new.items ≡ bytes.old.items ++ take (sum lengths.now) b) }
{
    let mut piece = Vec::new(alloc);
    for length in lengths {
        piece.clear();
        piece.resize(*length, 0)?;
        bytes.extend_from_slice(decoder.decode(&mut piece)?)?;
    }
    Ok(())
}
