//! SPIFFE IDs.
ghost use Rattle.std.specs.Prelude.{◌≡◌, ◌++◌, ◌↔◌, map, Some, Ok, IfOk, IfErr, IsTrue, string_bytes};
ghost use Rattle.std.specs.Ordering.{as_partial_cmp};
ghost use Rattle.std.specs.Hash as fed;
ghost use Rattle.std.specs.Cmp.{partial_order_from_own_ties};
ghost use Rattle.std.specs.Cmp.Rules.{hashing, comparing};
ghost use Rattle.std.proofs.Common.{rules};
ghost use Rattle.spiffe_id.specs.Rules.{map_ok};
ghost use Rattle.spiffe_id.specs.SpiffeIdError.{IsRefusal};
ghost use Rattle.spiffe_id.specs.TrustDomain.{IsTrustDomain, trust_domain_check};
ghost use Rattle.spiffe_id.specs.Path.{IsPath};
ghost use Rattle.spiffe_id.specs.SpiffeId.{id_of, id_from, id_parts, id_text, id_eq, id_cmp};

use crate::constants::SPIFFE_SCHEME_PREFIX;
use crate::error::SpiffeIdError;
use crate::path::{joined, joined_fits, split_path, validate_path, validate_segments};
use crate::scheme::strip_spiffe_scheme;
use crate::trust_domain::{TrustDomain, validate_trust_domain};
use std::alloc::{AllocError, Global};
use std::cmp::Ordering;
use std::fmt;
use std::hash::{Hash, Hasher};
use std::marker::Model;

// An id should not be made longer than what every implementation must support (SPIFFE-ID, section 2.3).
const MAX_SPIFFE_ID_URI_LENGTH: usize = 2048;

/// A validated SPIFFE ID (SPIFFE-ID, section 2): a trust domain, and a path as it was written.
#[derive(Debug, Drop)]
pub struct SpiffeId {
    trust_domain: TrustDomain,
    path: String,
}

impl Model for SpiffeId {
    ghost use Rattle.std.specs.Prelude.{string_bytes};
    ghost use Rattle.spiffe_id.specs.Path.{IsPath};
    ghost use Rattle.spiffe_id.specs.SpiffeId.{Id};

    ghost Value = { Id };

    ghost view = { λ i. record { trust_domain = i.trust_domain; path = string_bytes i.path } };

    ghost invariant = { λ i. IsPath (string_bytes i.path) };
}

impl SpiffeId {
    /// Reads an id from its URI, or answers the first rule that the text breaks, or `OutOfMemory`. The whole text has no limit in length.
    #[tactic(auto, unfolding(crate::specs::SpiffeId::id_of))]
    pub fn new(alloc: Global, id: &str) -> Result<Self, SpiffeIdError>
        ensures ok { IfOk result (λ v. id_of id.now ≡ Ok v) }
        ensures err { IfErr result (IsRefusal (id_of id.now)) }
    {
        let (domain, path) = split_id(id)?;
        let trust_domain = TrustDomain::lowered(alloc, domain)?;
        let path = String::from_str(alloc, path)?;
        Ok(SpiffeId { trust_domain, path })
    }

    /// Makes an id in a trust domain from the segments of its path, which hold no slashes, or answers the first rule that these break,
    /// `SpiffeIdTooLong` above 2048 bytes in all, or `OutOfMemory`.
    ///
    /// Without segments it is the id of the trust domain itself.
    #[tactic(auto, unfolding(crate::specs::SpiffeId::id_from))]
    pub fn from_segments(
        alloc: Global,
        trust_domain: TrustDomain,
        segments: &[String],
    ) -> Result<Self, SpiffeIdError>
        ensures ok { IfOk result (λ v. id_from trust_domain (map string_bytes segments.now) ≡ Ok v) }
        ensures err { IfErr result (IsRefusal (id_from trust_domain (map string_bytes segments.now))) }
    {
        validate_segments(segments)?;
        let without_path = SPIFFE_SCHEME_PREFIX.len() + trust_domain.as_str().len();
        if !joined_fits(segments, MAX_SPIFFE_ID_URI_LENGTH - without_path) {
            return Err(SpiffeIdError::SpiffeIdTooLong {
                max: MAX_SPIFFE_ID_URI_LENGTH,
            });
        }
        let path = joined(alloc, segments)?;
        Ok(SpiffeId { trust_domain, path })
    }

    /// The trust domain that the workload belongs to.
    pub fn trust_domain(&self) -> &TrustDomain
        ensures { result.now ≡ self.now.trust_domain }
    {
        &self.trust_domain
    }

    /// The name of the trust domain.
    pub fn trust_domain_name(&self) -> &str
        ensures name { result.now ≡ self.now.trust_domain }
        ensures valid { IsTrustDomain self.now.trust_domain }
    {
        self.trust_domain.as_str()
    }

    /// The path with its leading slash, or nothing for the id of a trust domain.
    pub fn path(&self) -> &str
        ensures path { result.now ≡ self.now.path }
        ensures valid { IsPath self.now.path }
    {
        self.path.as_str()
    }

    /// Whether the workload belongs to this trust domain.
    pub fn is_member_of(&self, trust_domain: &TrustDomain) -> bool
        ensures { IsTrue result ↔ (self.now.trust_domain ≡ trust_domain.now) }
    {
        self.trust_domain == *trust_domain
    }

    /// A copy in memory of its own, refused as [`SpiffeIdError::OutOfMemory`] alone.
    pub fn try_clone(&self, alloc: Global) -> Result<Self, SpiffeIdError>
        ensures ok { IfOk result (λ v. v ≡ self.now) }
        ensures err { IfErr result (λ e. e ≡ SpiffeIdError.OutOfMemory) }
    {
        Ok(self.copy(alloc)?)
    }

    /// The same copy for callers that have errors of their own: it is refused for want of memory alone.
    pub fn copy(&self, alloc: Global) -> Result<Self, AllocError>
        ensures { IfOk result (λ v. v ≡ self.now) }
    {
        let trust_domain = self.trust_domain.copy(alloc)?;
        let path = String::from_str(alloc, self.path.as_str())?;
        Ok(SpiffeId { trust_domain, path })
    }
}

// The trust domain and the path of an id, as they are written.
#[tactic(auto, unfolding(crate::specs::SpiffeId::id_parts))]
fn split_id(id: &str) -> Result<(&str, &str), SpiffeIdError>
    ensures parts { map_ok (λ p. (p.0.now, p.1.now)) result ≡ id_parts id.now }
    ensures domain { IfOk result (λ p. trust_domain_check p.0.now ≡ Ok tt) }
    ensures path { IfOk result (λ p. IsPath p.1.now) }
{
    if id.is_empty() {
        return Err(SpiffeIdError::Empty);
    }
    let rest = strip_spiffe_scheme(id)?;
    let (domain, path) = split_path(rest);
    validate_trust_domain(domain.as_bytes())?;
    validate_path(path.as_bytes())?;
    Ok((domain, path))
}

impl PartialEq for SpiffeId {
    ghost eq = { id_eq };

    ghost laws = { Prim.search (comparing, rules) };

    fn eq(&self, other: &Self) -> bool {
        self.trust_domain == other.trust_domain && self.path == other.path
    }
}

impl Eq for SpiffeId {
    ghost laws = { Prim.search (comparing, rules) };
}

impl PartialOrd for SpiffeId {
    ghost partial_cmp = { as_partial_cmp id_cmp };

    ghost laws = { partial_order_from_own_ties (Prim.search (comparing, rules)) (Prim.search (comparing, rules)) };

    fn partial_cmp(&self, other: &Self) -> Option<Ordering> {
        Some(self.cmp(other))
    }
}

impl Ord for SpiffeId {
    ghost cmp = { id_cmp };

    ghost total = { Prim.search (comparing, rules) };

    ghost matches_partial_cmp = { Prim.search (comparing, rules) };

    ghost matches_eq = { Prim.search (comparing, rules) };

    fn cmp(&self, other: &Self) -> Ordering {
        self.trust_domain
            .cmp(&other.trust_domain)
            .then(self.path.cmp(&other.path))
    }
}

impl Hash for SpiffeId {
    ghost hash_input = { λ id. fed.str id.trust_domain ++ fed.str id.path };

    ghost respects_eq = { Prim.search (hashing, rules) };

    fn hash<H: Hasher>(&self, state: &mut H) {
        self.trust_domain.hash(state);
        self.path.hash(state);
    }
}

impl fmt::Display for SpiffeId {
    ghost output = { λ id. Some (id_text id) };

    fn fmt<W: fmt::Write>(&self, f: &mut fmt::Formatter<W>) -> fmt::Result {
        write!(f, "spiffe://{}{}", self.trust_domain, self.path)
    }
}
