//! Laws of tokens, each as the contract of a function.
ghost use Rattle.std.specs.Prelude.{◌≡◌, ℕ, List, Result};
ghost use Rattle.spiffe_token.specs.declared.error.JwtSvidError.{JwtSvidError};
ghost use Rattle.spiffe_token.specs.JwtSvid.{Svid, Answers};

/// A token has one answer, so the relation of tokens and their answers may be used as a function.
pub fn token_has_one_answer()
    ensures { (token : List ℕ) (a b : Result Svid JwtSvidError) → Answers token a → Answers token b → a ≡ b }
{}
