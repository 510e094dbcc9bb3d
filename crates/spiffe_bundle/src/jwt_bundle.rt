//! JWT bundles.
ghost use Rattle.std.specs.Prelude.{◌≡◌, ◌≢◌, ◌≤◌, ℕ, List, [], length, map, Some, Ok, IfOk, IfErr, IfSome, OnOk, OnErr, false, option_map};
ghost use Rattle.std.specs.Arc.{arc_value};
ghost use Rattle.std.specs.Cmp.{partial_equiv_from_equiv};
ghost use Rattle.std.specs.Map.{values_of};
ghost use Rattle.serde_json.specs.Data.{items_depth};
ghost use Rattle.serde_json.specs.Read.{max_depth};
ghost use Rattle.serde_json.specs.View.{view, items_view};
ghost use Rattle.serde_json.specs.Written.{items_have_float};
ghost use Rattle.spiffe_id.specs.Rules.{map_ok};
ghost use Rattle.spiffe_bundle.specs.Entries.{AreNamed, IsAscending};
ghost use Rattle.spiffe_bundle.specs.JwtBundleError.{IsRefusal};
ghost use Rattle.spiffe_bundle.specs.JwtAuthority.{Authority, jwk_of};
ghost use Rattle.spiffe_bundle.specs.KeySet.{with_authority, find_authority, authorities_of, by_key_id, keys_of, key_set_of};
ghost use Rattle.spiffe_bundle.specs.JwtBundle.{bundle_eq, bundle_equiv};

use crate::error::JwtBundleError;
use crate::jwt_authorities::JwtAuthorities;
use crate::jwt_authority::JwtAuthority;
use serde_json::Value;
use spiffe_id::TrustDomain;
use spiffe_json::{JsonError, read_json};
use std::alloc::Global;
use std::collections::BTreeMap;
use std::fmt;
use std::marker::Model;
use std::sync::Arc;

/// The authorities of one trust domain, which sign the tokens of its workloads.
#[derive(Drop)]
pub struct JwtBundle {
    alloc: Global,
    trust_domain: TrustDomain,
    jwt_authorities: BTreeMap<String, Arc<JwtAuthority>>,
}

impl Model for JwtBundle {
    ghost use Rattle.spiffe_bundle.specs.Entries.{AreNamed};
    ghost use Rattle.spiffe_bundle.specs.JwtBundle.{Bundle, stored_authorities};

    ghost Value = { Bundle };

    ghost view = { λ b. record { trust_domain = b.trust_domain; authorities = stored_authorities b.jwt_authorities.entries } };

    // Each authority stands at its own key ID.
    ghost invariant = { λ b. AreNamed (λ a. a.key_id) (stored_authorities b.jwt_authorities.entries) };
}

impl JwtBundle {
    /// A bundle without authorities.
    pub fn new(alloc: Global, trust_domain: TrustDomain) -> Self
        ensures { result ≡ record { trust_domain = trust_domain; authorities = [] } }
    {
        JwtBundle {
            alloc,
            trust_domain,
            jwt_authorities: BTreeMap::new(alloc),
        }
    }

    /// Whose authorities these are.
    pub fn trust_domain(&self) -> &TrustDomain
        ensures { result.now ≡ self.now.trust_domain }
    {
        &self.trust_domain
    }

    /// Reads the authorities from a JWK set (RFC 7517, section 5), whose keys must all have key IDs: `Deserialize` where it is no JSON whose
    /// numbers are whole, or no object with an array `keys`, `MissingKeyId` where an element has no text `kid`, `OutOfMemory`.
    ///
    /// A SPIFFE bundle document holds keys of other uses too: pick out those for tokens before this call.
    #[tactic(auto, unfolding(crate::specs::KeySet::key_set_of))]
    pub fn from_jwt_authorities(
        alloc: Global,
        trust_domain: TrustDomain,
        jwks: &[u8],
    ) -> Result<Self, JwtBundleError>
        ensures domain { IfOk result (λ b. b.trust_domain ≡ trust_domain) }
        ensures authorities { IfOk result (λ b. key_set_of jwks.now ≡ Ok b.authorities) }
        ensures err { IfErr result (IsRefusal (key_set_of jwks.now)) }
    {
        let value = read_json(alloc, jwks)?;
        let keys = keys_of(&value)?;
        read_keys(alloc, trust_domain, keys)
    }

    /// The authority that a token's key ID names.
    pub fn find_jwt_authority(&self, key_id: &str) -> Option<&Arc<JwtAuthority>>
        ensures found { option_map (λ a. arc_value a.now) result
            ≡ find_authority key_id.now self.now.authorities }
        ensures named { IfSome result (λ a. (arc_value a.now).key_id ≡ key_id.now) }
    {
        self.jwt_authorities.get(key_id)
    }

    /// Adds an authority, in place of one with its key ID. `OutOfMemory` alone refuses it, and then the bundle is as it was.
    pub fn add_jwt_authority(&mut self, authority: JwtAuthority) -> Result<(), JwtBundleError>
        ensures ok { OnOk result (self.new ≡ record self.old
            { authorities = with_authority self.old.authorities authority }) }
        ensures found { OnOk result
            (find_authority authority.key_id self.new.authorities ≡ Some authority) }
        ensures others { OnOk result ((q : List ℕ) → q ≢ authority.key_id
            → find_authority q self.new.authorities ≡ find_authority q self.old.authorities) }
        ensures err { IfErr result (λ e. e ≡ JwtBundleError.OutOfMemory) }
        ensures kept { OnErr result (self.new ≡ self.old) }
    {
        let kid = String::from_str(self.alloc, authority.key_id())?;
        let shared = Arc::new(self.alloc, authority)?;
        self.jwt_authorities.insert(kid, shared)?;
        Ok(())
    }

    /// Reads one JWK and adds it, in place of one with its key ID. It refuses as `JwtAuthority::from_jwk_json` does, and then the bundle is as
    /// it was.
    pub fn add_jwk_authority_json(&mut self, jwk_json: &[u8]) -> Result<(), JwtBundleError>
        ensures ok { OnOk result ((a : Authority) × (jwk_of jwk_json.now ≡ Ok a)
            × (self.new ≡ record self.old
            { authorities = with_authority self.old.authorities a })) }
        ensures err { IfErr result (IsRefusal (jwk_of jwk_json.now)) }
        ensures kept { OnErr result (self.new ≡ self.old) }
    {
        let authority = JwtAuthority::from_jwk_json(self.alloc, jwk_json)?;
        self.add_jwt_authority(authority)
    }

    /// All authorities, ascending by key ID.
    pub fn jwt_authorities(&self) -> JwtAuthorities<'_>
        ensures all { result ≡ values_of self.now.authorities }
        ensures ascending { IsAscending self.now.authorities }
        ensures named { AreNamed (λ a. a.key_id) self.now.authorities }
    {
        JwtAuthorities {
            inner: self.jwt_authorities.values(),
        }
    }

    /// The number of authorities.
    pub fn authority_count(&self) -> usize
        ensures { result ≡ length self.now.authorities }
    {
        self.jwt_authorities.len()
    }

    /// A copy whose authorities are shared with this bundle. `OutOfMemory` alone refuses it.
    pub fn try_clone(&self, alloc: Global) -> Result<Self, JwtBundleError>
        ensures ok { IfOk result (λ b. b ≡ self.now) }
        ensures err { IfErr result (λ e. e ≡ JwtBundleError.OutOfMemory) }
    {
        let trust_domain = self.trust_domain.copy(alloc)?;
        let jwt_authorities = self.jwt_authorities.clone()?;
        Ok(JwtBundle {
            alloc,
            trust_domain,
            jwt_authorities,
        })
    }
}

fn keys_of(value: &Value) -> Result<&Vec<Value>, JwtBundleError>
    ensures { map_ok (λ v. items_view v.now.items) result ≡ keys_of (view value.now) }
{
    match value.get("keys").and_then(Value::as_array) {
        Some(keys) => Ok(keys),
        None => Err(JwtBundleError::Deserialize(JsonError::Keys)),
    }
}

fn read_keys(
    alloc: Global,
    trust_domain: TrustDomain,
    keys: &[Value],
) -> Result<JwtBundle, JwtBundleError>
    requires whole { items_have_float (items_view keys.now) ≡ false }
    requires nests { items_depth (items_view keys.now) ≤ max_depth }
    ensures domain { IfOk result (λ b. b.trust_domain ≡ trust_domain) }
    ensures authorities { IfOk result
        (λ b. map_ok by_key_id (authorities_of (items_view keys.now)) ≡ Ok b.authorities) }
    ensures err { IfErr result (IsRefusal (map_ok by_key_id (authorities_of (items_view keys.now)))) }
{
    let mut bundle = JwtBundle::new(alloc, trust_domain);
    for key in keys {
        let authority = JwtAuthority::from_value(alloc, key)?;
        bundle.add_jwt_authority(authority)?;
    }
    Ok(bundle)
}

impl PartialEq for JwtBundle {
    ghost eq = { bundle_eq };

    ghost laws = { partial_equiv_from_equiv bundle_equiv };

    fn eq(&self, other: &Self) -> bool {
        self.trust_domain == other.trust_domain && self.jwt_authorities == other.jwt_authorities
    }
}

impl Eq for JwtBundle {
    ghost laws = { bundle_equiv };
}

impl fmt::Debug for JwtBundle {
    fn fmt<W: fmt::Write>(&self, f: &mut fmt::Formatter<W>) -> fmt::Result {
        f.debug_struct("JwtBundle")
            .field("trust_domain", &self.trust_domain)
            .field("jwt_authorities", &self.jwt_authorities)
            .finish()
    }
}
