//! Answers of a length that the input decides, in a buffer of the caller's.
ghost use Rattle.std.specs.Prelude.{◌≡◌, ◌≢◌, ◌⊎◌};
ghost use Rattle.kamzirda_c.specs.Buffers.{Wanting, WantingBoth, Written, WrittenBoth};
ghost use Rattle.kamzirda_c.specs.Status.{done, no_room};

use crate::status::{DONE, NO_ROOM};

/// How much an answer in two buffers takes.
#[repr(C)]
#[derive(Clone, Copy)]
pub struct KamzirdaRoom {
    /// Elements of the array.
    pub count: usize,

    /// Bytes of the buffer.
    pub bytes: usize,
}

/// Copies the content to the front of the output where it fits, and tells its length.
pub(crate) fn fill(content: &[u8], output: &mut [u8], len: &mut usize) -> u32
    ensures known { (result ≡ done) ⊎ (result ≡ no_room) }
    ensures done { result ≡ done → Written output.old output.new len.new content.now }
    ensures no_room { result ≡ no_room → Wanting output.old output.new len.new content.now }
{
    *len = content.len();
    if output.len() < content.len() {
        return NO_ROOM;
    }
    output[..content.len()].copy_from_slice(content);
    DONE
}

/// Copies elements and bytes to the fronts of two outputs where both fit, and tells how many they are.
pub(crate) fn fill_both<T: Copy>(
    told: &[T],
    bytes: &[u8],
    elements: &mut [T],
    buffer: &mut [u8],
    room: &mut KamzirdaRoom,
) -> u32
    ensures known { (result ≡ done) ⊎ (result ≡ no_room) }
    ensures done { result ≡ done → WrittenBoth elements.old elements.new buffer.old buffer.new room.new told.now bytes.now }
    ensures no_room { result ≡ no_room → WantingBoth elements.old buffer.old room.new told.now bytes.now }
    ensures same { result ≢ done → (elements.new ≡ elements.old) × (buffer.new ≡ buffer.old) }
{
    *room = KamzirdaRoom {
        count: told.len(),
        bytes: bytes.len(),
    };
    if elements.len() < told.len() || buffer.len() < bytes.len() {
        return NO_ROOM;
    }
    elements[..told.len()].copy_from_slice(told);
    buffer[..bytes.len()].copy_from_slice(bytes);
    DONE
}
