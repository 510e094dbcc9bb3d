//! Laws of identifiers, each the contract of a function.
ghost use Rattle.std.specs.Prelude.{◌≡◌, ◌↔◌, IfOk, IfErr, IsTrue};

use crate::error::SpiffeIdError;
use crate::spiffe_id::SpiffeId;
use crate::trust_domain::TrustDomain;
use std::alloc::Global;

/// Reads the text that an id displays: it is that id again. `OutOfMemory` alone refuses it.
pub fn reread_id(alloc: Global, id: &SpiffeId) -> Result<SpiffeId, SpiffeIdError>
    ensures same { IfOk result (λ v. v ≡ id.now) }
    ensures memory { IfErr result (λ e. e ≡ SpiffeIdError.OutOfMemory) }
{
    let text = format!(in alloc; "{id}")?;
    let _ = id.path();
    let _ = id.trust_domain_name();
    SpiffeId::new(alloc, text.as_str())
}

/// Compares the texts that two ids display: they are equal exactly where the ids are. `OutOfMemory` alone refuses it.
pub fn have_same_text(alloc: Global, a: &SpiffeId, b: &SpiffeId) -> Result<bool, SpiffeIdError>
    ensures same { IfOk result (λ same. IsTrue same ↔ (a.now ≡ b.now)) }
    ensures memory { IfErr result (λ e. e ≡ SpiffeIdError.OutOfMemory) }
{
    let first = format!(in alloc; "{a}")?;
    let second = format!(in alloc; "{b}")?;
    let _ = a.path();
    let _ = b.path();
    let _ = a.trust_domain_name();
    let _ = b.trust_domain_name();
    Ok(first.as_str() == second.as_str())
}

/// Reads the name of a trust domain: it is that trust domain again. `OutOfMemory` alone refuses it.
pub fn reread_trust_domain(
    alloc: Global,
    domain: &TrustDomain,
) -> Result<TrustDomain, SpiffeIdError>
    ensures same { IfOk result (λ d. d ≡ domain.now) }
    ensures memory { IfErr result (λ e. e ≡ SpiffeIdError.OutOfMemory) }
{
    TrustDomain::new(alloc, domain.as_str())
}

/// Reads the id of a trust domain: it names that trust domain again. `OutOfMemory` alone refuses it.
pub fn reread_trust_domain_id(
    alloc: Global,
    domain: &TrustDomain,
) -> Result<TrustDomain, SpiffeIdError>
    ensures same { IfOk result (λ d. d ≡ domain.now) }
    ensures memory { IfErr result (λ e. e ≡ SpiffeIdError.OutOfMemory) }
{
    let id = domain.id_string(alloc)?;
    let _ = domain.as_str();
    TrustDomain::new(alloc, id.as_str())
}
