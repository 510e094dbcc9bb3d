//! Trust domains.
ghost use Rattle.std.specs.Prelude.{◌≡◌, ◌<◌, ◌++◌, ℕ, List, length, map, true, Some, Ok, IfOk, IfErr, nat_eq, refl, string_bytes, codes};
ghost use Rattle.std.specs.Char.{to_ascii_lowercase};
ghost use Rattle.std.specs.List.{list_all};
ghost use Rattle.std.specs.Ordering.{nat_cmp};
ghost use Rattle.std.specs.Hash as fed;
ghost use Rattle.std.specs.Cmp.{partial_equiv_from_equiv};
ghost use Rattle.std.specs.Cmp.Lexicographic.{pointwise, slice_cmp, nat_list_eq_equiv, nat_list_cmp_total, texts_ties, texts_po};
ghost use Rattle.std.specs.Cmp.Rules.{hashing};
ghost use Rattle.std.proofs.Common.{rules};
ghost use Rattle.spiffe_id.specs.Rules.{map_ok};
ghost use Rattle.spiffe_id.specs.SpiffeIdError.{IsRefusal};
ghost use Rattle.spiffe_id.specs.TrustDomain.{IsTrustDomain, is_name_byte, trust_domain_check, contains_text, written_trust_domain, trust_domain_of};

use crate::constants::SPIFFE_SCHEME_PREFIX;
use crate::error::SpiffeIdError;
use crate::path::split_path;
use crate::scheme::strip_spiffe_scheme;
use std::alloc::{AllocError, Global};
use std::cmp::Ordering;
use std::fmt;
use std::hash::{Hash, Hasher};
use std::marker::Model;

const MAX_TRUST_DOMAIN_LENGTH: usize = 255;

/// A validated trust domain (SPIFFE-ID, section 2.1), kept in lower case.
#[derive(Debug, Drop)]
pub struct TrustDomain {
    name: String,
}

impl Model for TrustDomain {
    ghost use Rattle.std.specs.Prelude.{List, ℕ, string_bytes};
    ghost use Rattle.spiffe_id.specs.TrustDomain.{IsTrustDomain};

    ghost Value = { List ℕ };

    ghost view = { λ d. string_bytes d.name };

    ghost invariant = { λ d. IsTrustDomain (string_bytes d.name) };
}

impl TrustDomain {
    /// Reads a trust domain from its name, or from an id of which only the trust domain is looked at. It answers the first rule that the text
    /// breaks, or `OutOfMemory`.
    ///
    /// Take `SpiffeId::new` to judge an id's path too.
    #[tactic(auto, unfolding(crate::specs::TrustDomain::trust_domain_of))]
    pub fn new(alloc: Global, id_or_name: &str) -> Result<Self, SpiffeIdError>
        ensures ok { IfOk result (λ d. trust_domain_of id_or_name.now ≡ Ok d) }
        ensures err { IfErr result (IsRefusal (trust_domain_of id_or_name.now)) }
    {
        let written = written_trust_domain(id_or_name)?;
        let domain = TrustDomain::lowered(alloc, written)?;
        Ok(domain)
    }

    pub(crate) fn lowered(alloc: Global, written: &str) -> Result<Self, AllocError>
        requires { trust_domain_check written.now ≡ Ok tt }
        ensures { IfOk result (λ d. d ≡ map to_ascii_lowercase written.now) }
    {
        let name = lower_case(alloc, written)?;
        Ok(TrustDomain { name })
    }

    /// The name, for comparing and printing.
    pub fn as_str(&self) -> &str
        ensures name { result.now ≡ self.now }
        ensures valid { IsTrustDomain self.now }
    {
        self.name.as_str()
    }

    /// The id of the trust domain itself, whose path is empty. `OutOfMemory` alone refuses it.
    pub fn id_string(&self, alloc: Global) -> Result<String, SpiffeIdError>
        ensures ok { IfOk result (λ s. string_bytes s ≡ codes "spiffe://" ++ self.now) }
        ensures err { IfErr result (λ e. e ≡ SpiffeIdError.OutOfMemory) }
    {
        let mut text = String::from_str(alloc, SPIFFE_SCHEME_PREFIX)?;
        text.push_str(self.as_str())?;
        Ok(text)
    }

    /// A copy in memory of its own, refused as [`SpiffeIdError::OutOfMemory`] alone.
    pub fn try_clone(&self, alloc: Global) -> Result<Self, SpiffeIdError>
        ensures ok { IfOk result (λ d. d ≡ self.now) }
        ensures err { IfErr result (λ e. e ≡ SpiffeIdError.OutOfMemory) }
    {
        Ok(self.copy(alloc)?)
    }

    /// The same copy for callers that have errors of their own: it is refused for want of memory alone.
    pub fn copy(&self, alloc: Global) -> Result<Self, AllocError>
        ensures { IfOk result (λ d. d ≡ self.now) }
    {
        let name = String::from_str(alloc, self.name.as_str())?;
        Ok(TrustDomain { name })
    }
}

fn is_name_byte(b: u8) -> bool
    ensures { result ≡ is_name_byte b }
{
    b.is_ascii_alphanumeric() || b == b'-' || b == b'.' || b == b'_'
}

pub(crate) fn are_name_bytes(bytes: &[u8]) -> bool
    ensures { result ≡ list_all is_name_byte bytes.now }
{
    bytes.iter().all(|b| is_name_byte(*b))
}

pub(crate) fn validate_trust_domain(written: &[u8]) -> Result<(), SpiffeIdError>
    ensures { result ≡ trust_domain_check written.now }
{
    if written.is_empty() {
        return Err(SpiffeIdError::MissingTrustDomain);
    }
    if written.len() > MAX_TRUST_DOMAIN_LENGTH {
        return Err(SpiffeIdError::TrustDomainTooLong {
            max: MAX_TRUST_DOMAIN_LENGTH,
        });
    }
    if !are_name_bytes(written) {
        return Err(SpiffeIdError::BadTrustDomainChar);
    }
    Ok(())
}

fn contains_text(text: &str, part: &str) -> bool
    requires { 0 < length part.now }
    ensures { result ≡ contains_text part.now text.now }
{
    text.contains(part)
}

#[tactic(auto, unfolding(crate::specs::TrustDomain::written_trust_domain))]
fn written_trust_domain(text: &str) -> Result<&str, SpiffeIdError>
    ensures written { map_ok (λ d. d.now) result ≡ written_trust_domain text.now }
    ensures valid { IfOk result (λ d. trust_domain_check d.now ≡ Ok tt) }
{
    if contains_text(text, "://") {
        let rest = strip_spiffe_scheme(text)?;
        let (domain, _) = split_path(rest);
        validate_trust_domain(domain.as_bytes())?;
        return Ok(domain);
    }
    if contains_text(text, ":/") {
        return Err(SpiffeIdError::WrongScheme);
    }
    validate_trust_domain(text.as_bytes())?;
    Ok(text)
}

fn lower_case_bytes(alloc: Global, bytes: &[u8]) -> Result<Vec<u8>, AllocError>
    ensures { IfOk result (λ v. v.items ≡ map to_ascii_lowercase bytes.now) }
{
    bytes.iter().map(|b| b.to_ascii_lowercase()).collect(alloc)
}

fn lower_case(alloc: Global, name: &str) -> Result<String, AllocError>
    requires { list_all is_name_byte name.now ≡ true }
    ensures { IfOk result (λ s. string_bytes s ≡ map to_ascii_lowercase name.now) }
{
    let bytes = lower_case_bytes(alloc, name.as_bytes())?;
    Ok(String::from_utf8(bytes).unwrap())
}

impl PartialEq for TrustDomain {
    ghost eq = { pointwise nat_eq };

    ghost laws = { partial_equiv_from_equiv nat_list_eq_equiv };

    fn eq(&self, other: &Self) -> bool {
        self.as_str() == other.as_str()
    }
}

impl Eq for TrustDomain {
    ghost laws = { nat_list_eq_equiv };
}

impl PartialOrd for TrustDomain {
    ghost partial_cmp = { λ x y. Some (slice_cmp nat_cmp x y) };

    ghost laws = { texts_po };

    fn partial_cmp(&self, other: &Self) -> Option<Ordering> {
        Some(self.cmp(other))
    }
}

impl Ord for TrustDomain {
    ghost cmp = { slice_cmp nat_cmp };

    ghost total = { nat_list_cmp_total };

    ghost matches_partial_cmp = { λ x y. refl };

    ghost matches_eq = { texts_ties };

    fn cmp(&self, other: &Self) -> Ordering {
        self.as_str().cmp(other.as_str())
    }
}

impl Hash for TrustDomain {
    ghost hash_input = { fed.str };

    ghost respects_eq = { Prim.search (hashing, rules) };

    fn hash<H: Hasher>(&self, state: &mut H) {
        self.as_str().hash(state);
    }
}

impl fmt::Display for TrustDomain {
    ghost output = { λ d. Some d };

    fn fmt<W: fmt::Write>(&self, f: &mut fmt::Formatter<W>) -> fmt::Result {
        f.write_str(self.as_str())
    }
}
