//! Tokens.
use identity_source::IdentityReader;
use identity_verify::{Backend, Signature, verify_current};
use spiffe_core::JwtAlg;
use std::alloc::Global;

// cut: backend
/// A backend that knows no algorithm: each signature is one that it can't judge.
pub struct NoAlgorithms;

impl Backend for NoAlgorithms {
    ghost use Rattle.identity_verify.specs.declared.backend.Signature.TheVariants.{Unusable};

    ghost answer = { λ _ _ _ _ _. Unusable };

    fn verify(&self, _alg: JwtAlg, _jwk: &[u8], _message: &[u8], _signature: &[u8]) -> Signature {
        Signature::Unusable
    }
}
// end

// cut: let_in
/// Whether a token is good for this audience in the state that the reader has, at a time in nanoseconds since 1970.
pub fn let_in<K: Backend>(
    alloc: Global,
    reader: &mut IdentityReader,
    token: &str,
    audience: &[String],
    now: i128,
    backend: &K,
) -> bool {
    verify_current(alloc, reader, token, audience, now, backend).is_ok()
}
// end
