//! Arithmetic of signatures, which is handed in.
ghost use Rattle.std.specs.Prelude.{◌≡◌, ℕ, List};

use spiffe_token::JwtAlg;

/// What a backend finds of a signature.
#[derive(Clone, Copy, Debug, PartialEq, Eq)]
pub enum Signature {
    /// The key made it.
    Good,
    /// The key didn't make it.
    Bad,
    /// It or the key can't be used.
    Unusable,
}

/// What judges signatures. Its answer follows from what it holds and what it is asked.
pub trait Backend {
    ghost use Rattle.spiffe_token.specs.declared.jwt_alg.JwtAlg.{JwtAlg};
    ghost use Rattle.identity_verify.specs.declared.backend.Signature.{Signature};

    ghost answer: { Self → JwtAlg → List ℕ → List ℕ → List ℕ → Signature };

    /// Whether the signature of the message (RFC 7515, section 5.2) is the key's, which is given as a JWK.
    fn verify(&self, alg: JwtAlg, jwk_json: &[u8], message: &[u8], signature: &[u8]) -> Signature
        ensures { result ≡ answer self.now alg jwk_json.now message.now signature.now };
}
