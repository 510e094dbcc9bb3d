//! A backend for tests.
ghost use Rattle.std.specs.Prelude.{◌≡◌, ◌++◌, nat_eq};
ghost use Rattle.std.specs.Cmp.Lexicographic.{pointwise};
ghost use Rattle.sha2.specs.Sha256.{sha256};
ghost use Rattle.identity_verify.specs.DigestBackend.{digest_answer};

use crate::backend::{Backend, Signature};
use sha2::{Digest, Sha256};
use spiffe_token::JwtAlg;

/// No backend for signatures: it is for tests. Whoever knows a public key and a message makes what it calls good.
///
/// That is the SHA-256 digest (FIPS 180-4) of the JWK's bytes followed by the message.
#[derive(Clone, Copy, Debug)]
pub struct DigestBackend;

fn digest_of(jwk_json: &[u8], message: &[u8]) -> [u8; 32]
    ensures { result ≡ sha256 (jwk_json.now ++ message.now) }
{
    let mut hasher = Sha256::new();
    hasher.update(jwk_json);
    hasher.update(message);
    hasher.finalize()
}

impl Backend for DigestBackend {
    ghost answer = { λ _ _ jwk_json message signature. digest_answer jwk_json message signature };

    fn verify(&self, _alg: JwtAlg, jwk_json: &[u8], message: &[u8], signature: &[u8]) -> Signature {
        if signature.is_empty() {
            return Signature::Unusable;
        }
        if digest_of(jwk_json, message).as_slice() == signature {
            return Signature::Good;
        }
        Signature::Bad
    }
}
