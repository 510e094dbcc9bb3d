//! Subidentifiers, of which the content of an object identifier is made.
ghost use Rattle.std.specs.Prelude.{◌≡◌, ◌++◌, ◌<◌, ◌^◌, ◌↔◌, ℕ, List, IsTrue, IfSome, IfNone};
ghost use Rattle.der_core.specs.Oid.{AreSubidentifiers, subidentifier_bytes};

/// The subidentifier at the front, and what follows it.
pub(crate) fn subidentifier_at(bytes: &[u8]) -> Option<(u32, &[u8])>
    ensures found { IfSome result (λ found. bytes.now ≡ subidentifier_bytes found.0 ++ found.1.now) }
    ensures small { IfSome result (λ found. found.0 < 2 ^ 32) }
    ensures none { IfNone result ((n : ℕ) (rest : List ℕ) → n < 2 ^ 32 → bytes.now ≡ subidentifier_bytes n ++ rest → ⊥) }
{
    if bytes.is_empty() || bytes[0] == 0x80 {
        return None;
    }
    let mut number: u64 = 0;
    for (i, byte) in bytes.iter().enumerate() {
        number = number * 128 + u64::from(*byte % 128);
        if number >= 0x1_0000_0000 {
            return None;
        }
        if *byte < 0x80 {
            return Some((number as u32, &bytes[i + 1..]));
        }
    }
    None
}

/// Whether the bytes are subidentifiers, one after another.
pub(crate) fn are_subidentifiers(bytes: &[u8]) -> bool
    ensures { IsTrue result ↔ AreSubidentifiers bytes.now }
{
    let mut rest = bytes;
    while !rest.is_empty() {
        let Some((_, after)) = subidentifier_at(rest) else {
            return false;
        };
        rest = after;
    }
    true
}
