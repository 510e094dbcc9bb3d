//! Algorithms of signatures.
ghost use Rattle.std.specs.Prelude.{◌≡◌};
ghost use Rattle.std.specs.Cmp.{partial_equiv_from_equiv};
ghost use Rattle.spiffe_token.specs.JwtAlg.{alg_name, alg_of, alg_eq, alg_equiv};

/// An algorithm that a JWT-SVID may be signed with (JWT-SVID, section 2.1; RFC 7518, section 3.1).
#[derive(Clone, Copy, Debug)]
pub enum JwtAlg {
    /// RSASSA-PKCS1-v1_5 with SHA-256.
    RS256,
    /// RSASSA-PKCS1-v1_5 with SHA-384.
    RS384,
    /// RSASSA-PKCS1-v1_5 with SHA-512.
    RS512,
    /// ECDSA over P-256 with SHA-256.
    ES256,
    /// ECDSA over P-384 with SHA-384.
    ES384,
    /// ECDSA over P-521 with SHA-512.
    ES512,
    /// RSASSA-PSS with SHA-256.
    PS256,
    /// RSASSA-PSS with SHA-384.
    PS384,
    /// RSASSA-PSS with SHA-512.
    PS512,
}

impl JwtAlg {
    #[tactic(auto, unfolding(crate::specs::JwtAlg::alg_of))]
    pub(crate) fn parse(name: &str) -> Option<JwtAlg>
        ensures { result ≡ alg_of name.now }
    {
        match name {
            "RS256" => Some(JwtAlg::RS256),
            "RS384" => Some(JwtAlg::RS384),
            "RS512" => Some(JwtAlg::RS512),
            "ES256" => Some(JwtAlg::ES256),
            "ES384" => Some(JwtAlg::ES384),
            "ES512" => Some(JwtAlg::ES512),
            "PS256" => Some(JwtAlg::PS256),
            "PS384" => Some(JwtAlg::PS384),
            "PS512" => Some(JwtAlg::PS512),
            _ => None,
        }
    }

    pub(crate) fn name(self) -> &'static str
        ensures { result.now ≡ alg_name self }
    {
        match self {
            JwtAlg::RS256 => "RS256",
            JwtAlg::RS384 => "RS384",
            JwtAlg::RS512 => "RS512",
            JwtAlg::ES256 => "ES256",
            JwtAlg::ES384 => "ES384",
            JwtAlg::ES512 => "ES512",
            JwtAlg::PS256 => "PS256",
            JwtAlg::PS384 => "PS384",
            JwtAlg::PS512 => "PS512",
        }
    }
}

impl PartialEq for JwtAlg {
    ghost eq = { alg_eq };

    ghost laws = { partial_equiv_from_equiv alg_equiv };

    fn eq(&self, other: &Self) -> bool {
        self.name() == other.name()
    }
}

impl Eq for JwtAlg {
    ghost laws = { alg_equiv };
}
