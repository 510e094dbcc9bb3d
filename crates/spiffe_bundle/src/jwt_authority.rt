//! JWT authorities.
ghost use Rattle.std.specs.Prelude.{◌≡◌, ◌≤◌, Ok, IfOk, IfErr, false, option_map};
ghost use Rattle.std.specs.Cmp.{partial_equiv_from_equiv};
ghost use Rattle.serde_json.specs.Data.{depth};
ghost use Rattle.serde_json.specs.Read.{max_depth};
ghost use Rattle.serde_json.specs.View.{view};
ghost use Rattle.serde_json.specs.Written.{has_float};
ghost use Rattle.spiffe_bundle.specs.JwtBundleError.{IsRefusal};
ghost use Rattle.spiffe_bundle.specs.JwtAuthority.{IsJwk, key_id_of, authority_of, jwk_of, authority_eq, authority_equiv};

use crate::error::JwtBundleError;
use serde_json::Value;
use spiffe_json::{read_json, write_json};
use std::alloc::Global;
use std::marker::Model;

/// A public key that signs tokens, as the JSON of a JWK (RFC 7517, section 4) with a key ID.
///
/// The key itself is not judged here: an authority can be one that no token verifies with.
#[derive(Debug, Drop)]
pub struct JwtAuthority {
    kid: String,
    jwk_json: Vec<u8>,
}

impl Model for JwtAuthority {
    ghost use Rattle.std.specs.Prelude.{string_bytes};
    ghost use Rattle.spiffe_bundle.specs.JwtAuthority.{Authority, IsJwk};

    ghost Value = { Authority };

    ghost view = { λ a. record { key_id = string_bytes a.kid; jwk_json = a.jwk_json.items } };

    ghost invariant = { λ a. IsJwk (string_bytes a.kid) a.jwk_json.items };
}

impl JwtAuthority {
    /// Reads one JWK, which is not a key set; take `JwtBundle::from_jwt_authorities` for that. `Deserialize` where it is no JSON whose numbers
    /// are whole, `MissingKeyId` where it is no object with a text `kid`, `OutOfMemory`.
    #[tactic(auto, unfolding(crate::specs::JwtAuthority::jwk_of))]
    pub fn from_jwk_json(alloc: Global, jwk_json: &[u8]) -> Result<Self, JwtBundleError>
        ensures ok { IfOk result (λ a. jwk_of jwk_json.now ≡ Ok a) }
        ensures err { IfErr result (IsRefusal (jwk_of jwk_json.now)) }
    {
        let value = read_json(alloc, jwk_json)?;
        JwtAuthority::from_value(alloc, &value)
    }

    pub(crate) fn from_value(alloc: Global, value: &Value) -> Result<Self, JwtBundleError>
        requires whole { has_float (view value.now) ≡ false }
        requires nests { depth (view value.now) ≤ max_depth }
        ensures ok { IfOk result (λ a. authority_of (view value.now) ≡ Ok a) }
        ensures err { IfErr result (IsRefusal (authority_of (view value.now))) }
    {
        let Some(key_id) = key_id_of(value) else {
            return Err(JwtBundleError::MissingKeyId);
        };
        let kid = String::from_str(alloc, key_id)?;
        let jwk_json = write_json(alloc, value)?;
        Ok(JwtAuthority { kid, jwk_json })
    }

    /// The key ID, by which a token's header names its key.
    pub fn key_id(&self) -> &str
        ensures { result.now ≡ self.now.key_id }
    {
        self.kid.as_str()
    }

    /// The JWK, without blanks and with the names of each object in ascending order.
    pub fn jwk_json(&self) -> &[u8]
        ensures json { result.now ≡ self.now.jwk_json }
        ensures valid { IsJwk self.now.key_id self.now.jwk_json }
    {
        self.jwk_json.as_slice()
    }

    /// A copy in memory of its own. `OutOfMemory` alone refuses it.
    pub fn try_clone(&self, alloc: Global) -> Result<Self, JwtBundleError>
        ensures ok { IfOk result (λ a. a ≡ self.now) }
        ensures err { IfErr result (λ e. e ≡ JwtBundleError.OutOfMemory) }
    {
        let kid = String::from_str(alloc, self.kid.as_str())?;
        let jwk_json = Vec::from_slice(alloc, self.jwk_json.as_slice())?;
        Ok(JwtAuthority { kid, jwk_json })
    }
}

fn key_id_of(value: &Value) -> Option<&str>
    ensures { option_map (λ s. s.now) result ≡ key_id_of (view value.now) }
{
    value.get("kid").and_then(Value::as_str)
}

impl PartialEq for JwtAuthority {
    ghost eq = { authority_eq };

    ghost laws = { partial_equiv_from_equiv authority_equiv };

    fn eq(&self, other: &Self) -> bool {
        self.kid == other.kid && self.jwk_json == other.jwk_json
    }
}

impl Eq for JwtAuthority {
    ghost laws = { authority_equiv };
}
