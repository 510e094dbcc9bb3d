//! Reading a SEQUENCE OF.
ghost use Rattle.std.specs.Prelude.{◌≡◌, ◌⊎◌, List, IfOk, IfErr, IsErrOf};
ghost use Rattle.update_document.specs.Elements.{Elements};

use der_small::{Cursor, Decode, Error, Result};
use std::alloc::Global;

/// Reads a content as the encodings of values of one type, one behind the other. It is the content of a SEQUENCE OF, without tag and length.
/// `Malformed` where it isn't such a list, or `OutOfMemory`.
pub fn decode_all<'a, T: Decode<'a>>(alloc: Global, content: &'a [u8]) -> Result<Vec<T>>
    ensures value { IfOk result (λ values. Elements T.Reads values.items content.now) }
    ensures none { IsErrOf result Error.Malformed → (values : List T) → Elements T.Reads values content.now → ⊥ }
    ensures causes { IfErr result (λ e. (e ≡ Error.Malformed) ⊎ (e ≡ Error.OutOfMemory)) }
{
    let mut values = Vec::new(alloc);
    let mut cursor = Cursor::new(content);
    while !cursor.is_finished() {
        let Ok(value) = T::decode(&mut cursor) else {
            return Err(Error::Malformed);
        };
        if values.push(value).is_err() {
            return Err(Error::OutOfMemory);
        }
    }
    Ok(values)
}
