//! Callers that list `base64ct`, `der_small` and `spiffe_core` alone: their contracts speak in the words that these crates pass on from those below.
#![tactic(auto)]

ghost use Rattle.std.specs.Prelude.{◌≡◌, Ok, IfSome};
ghost use Rattle.base64ct.specs.Encoding.{encoding_of};
ghost use Rattle.der_small.specs.ObjectIdentifier.{oid_content};
ghost use Rattle.spiffe_core.specs.SpiffeId.{id_of};

use base64ct::Encoding;
use der_small::ObjectIdentifier;
use spiffe_core::SpiffeId;
use std::alloc::Global;

/// The bytes whose encoding a text is.
pub fn decoded<E: Encoding>(alloc: Global, text: &str) -> Option<Vec<u8>>
    ensures { IfSome result (λ bytes. text.now ≡ encoding_of E.form bytes.items) }
{
    match E::decode_vec(alloc, text) {
        Ok(bytes) => Some(bytes),
        Err(_) => None,
    }
}

/// The object identifier of this content.
pub fn identifier(content: &[u8]) -> Option<ObjectIdentifier>
    ensures { IfSome result (λ oid. oid_content oid ≡ content.now) }
{
    match ObjectIdentifier::from_bytes(content) {
        Ok(oid) => Some(oid),
        Err(_) => None,
    }
}

/// The SPIFFE ID that a text is.
pub fn workload(alloc: Global, text: &str) -> Option<SpiffeId>
    ensures { IfSome result (λ id. id_of text.now ≡ Ok id) }
{
    match SpiffeId::new(alloc, text) {
        Ok(id) => Some(id),
        Err(_) => None,
    }
}
