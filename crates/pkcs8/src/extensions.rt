//! Extension fields.
ghost use Rattle.std.specs.Prelude.{◌≡◌, ◌↔◌, ◌<◌, [], length, IsTrue, IfSome, IfNone};
ghost use Rattle.der_core.specs.Der.{IsValue};
ghost use Rattle.pkcs8.specs.Extensions.{IsExtensions};

use der_small::Cursor;

/// Whether the bytes are exactly one value.
fn is_one_value(bytes: &[u8]) -> bool
    ensures { IsTrue result ↔ IsValue bytes.now }
{
    let mut at = Cursor::new(bytes);
    match at.read_value() {
        Ok(_) => at.is_finished(),
        Err(_) => false,
    }
}

/// What follows the extension at the front.
fn after_extension(bytes: &[u8]) -> Option<&[u8]>
    ensures shorter { IfSome result (λ rest. length rest.now < length bytes.now) }
    ensures same { IfSome result (λ rest. IsExtensions rest.now ↔ IsExtensions bytes.now) }
    ensures none { IfNone result (IsExtensions bytes.now → bytes.now ≡ []) }
{
    let mut at = Cursor::new(bytes);
    let Ok(field) = at.read_value() else {
        return None;
    };
    let tag = field.tag().byte();
    if tag < 0xa0 {
        return None;
    }
    if tag > 0xbe {
        return None;
    }
    if !is_one_value(field.value()) {
        return None;
    }
    Some(at.rest())
}

/// Whether the bytes are extensions, and nothing after them.
pub(crate) fn are_extensions(bytes: &[u8]) -> bool
    ensures { IsTrue result ↔ IsExtensions bytes.now }
{
    let mut rest = bytes;
    while !rest.is_empty() {
        match after_extension(rest) {
            Some(after) => rest = after,
            None => return false,
        }
    }
    true
}
