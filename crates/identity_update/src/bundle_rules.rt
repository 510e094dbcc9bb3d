//! The rules of bundles.
ghost use Rattle.std.specs.Prelude.{◌≡◌, ◌⊎◌, ◌++◌, ◌∷◌, [], ℕ, List, Ok, map, IfOk, IfErr, OnOk};
ghost use Rattle.std.specs.List.{AllByRecursion};
ghost use Rattle.spiffe_bundle.specs.JwtBundleSet.{with_bundle};
ghost use Rattle.spiffe_bundle.specs.KeySet.{key_set_of};
ghost use Rattle.spiffe_id.specs.TrustDomain.{trust_domain_of};
ghost use Rattle.update_document.specs.Refs.{written_bundle};
ghost use Rattle.identity_update.specs.Bundle.{plain_bundle};
ghost use Rattle.identity_update.specs.BundleMap.{bundle_map, keys_of_bundle};
ghost use Rattle.identity_update.specs.Lawful.{HasCanonicalDomain};
ghost use Rattle.identity_update.specs.PartsVerdict.{key_sets_check};
ghost use Rattle.identity_update.specs.Verdict.{IsRefusal, bundle_check, bundles_check, map_refusal};
ghost use Rattle.identity_update.specs.declared.error.UpdateError.TheVariants.{Authorities, Domain};

use crate::bundle::BundleParts;
use crate::error::UpdateError;
use spiffe_bundle::{JwtBundle, JwtBundleError, JwtBundleSet};
use spiffe_id::{SpiffeIdError, TrustDomain};
use std::alloc::Global;
use update_document::BundleRef;

/// The bundles as they are listed, and the set of them.
#[derive(Drop)]
pub(crate) struct CheckedBundles {
    pub(crate) parts: Vec<BundleParts>,
    pub(crate) set: JwtBundleSet,
}

fn domain(alloc: Global, number: usize, text: &str) -> Result<TrustDomain, UpdateError>
    ensures ok { IfOk result (λ d. map_refusal (Domain number) (trust_domain_of text.now) ≡ Ok d) }
    ensures err { IfErr result (IsRefusal (map_refusal (Domain number) (trust_domain_of text.now))) }
{
    match TrustDomain::new(alloc, text) {
        Ok(domain) => Ok(domain),
        Err(SpiffeIdError::OutOfMemory) => Err(UpdateError::OutOfMemory),
        Err(cause) => Err(UpdateError::Domain {
            bundle: number,
            cause,
        }),
    }
}

fn key_set(
    alloc: Global,
    number: usize,
    domain: TrustDomain,
    jwks: &[u8],
) -> Result<JwtBundle, UpdateError>
    ensures domain { IfOk result (λ b. b.trust_domain ≡ domain) }
    ensures ok { IfOk result (λ b. map_refusal (Authorities number) (key_set_of jwks.now) ≡ Ok b.authorities) }
    ensures keys { IfOk result (λ b. key_set_of jwks.now ≡ Ok b.authorities) }
    ensures err { IfErr result (IsRefusal (map_refusal (Authorities number) (key_set_of jwks.now))) }
{
    match JwtBundle::from_jwt_authorities(alloc, domain, jwks) {
        Ok(bundle) => Ok(bundle),
        Err(JwtBundleError::OutOfMemory) => Err(UpdateError::OutOfMemory),
        Err(cause) => Err(UpdateError::Authorities {
            bundle: number,
            cause,
        }),
    }
}

/// A bundle as it is listed, and as it is read.
fn check_bundle(
    alloc: Global,
    number: usize,
    bundle: &BundleRef<'_>,
) -> Result<(BundleParts, JwtBundle), UpdateError>
    ensures ok { IfOk result (λ both. bundle_check number (written_bundle bundle.now) ≡ Ok (plain_bundle both.0)) }
    ensures keys { IfOk result (λ both. both.1 ≡ keys_of_bundle (plain_bundle both.0)) }
    ensures err { IfErr result (IsRefusal (bundle_check number (written_bundle bundle.now))) }
{
    let trust_domain = domain(alloc, number, bundle.text.as_str())?;
    let copy = trust_domain.copy(alloc)?;
    let read = key_set(alloc, number, copy, bundle.jwks.as_bytes())?;
    let jwks = Vec::from_slice(alloc, bundle.jwks.as_bytes())?;
    Ok((BundleParts { trust_domain, jwks }, read))
}

fn add(set: &mut JwtBundleSet, bundle: JwtBundle) -> Result<(), UpdateError>
    ensures ok { OnOk result (set.new ≡ with_bundle set.old bundle) }
    ensures err { IfErr result (λ e. e ≡ UpdateError.OutOfMemory) }
{
    match set.add_bundle(bundle) {
        Ok(()) => Ok(()),
        Err(_) => Err(UpdateError::OutOfMemory),
    }
}

/// Tries the rules of each bundle in turn. Each key set is read once.
pub(crate) fn check_bundles(
    alloc: Global,
    bundles: &[BundleRef<'_>],
) -> Result<CheckedBundles, UpdateError>
    ensures ok { IfOk result (λ checked. bundles_check 0 (map written_bundle bundles.now) ≡ Ok (map plain_bundle checked.parts.items)) }
    ensures set { IfOk result (λ checked. checked.set ≡ bundle_map (map plain_bundle checked.parts.items)) }
    ensures err { IfErr result (IsRefusal (bundles_check 0 (map written_bundle bundles.now))) }
{
    let mut parts = Vec::with_capacity(alloc, bundles.len())?;
    let mut set = JwtBundleSet::new(alloc);
    for (number, bundle) in bundles.iter().enumerate() {
        let (listed, read) = check_bundle(alloc, number, bundle)?;
        add(&mut set, read)?;
        parts.push(listed)?;
    }
    Ok(CheckedBundles { parts, set })
}

// The keys of a bundle.
fn own_key_set(alloc: Global, number: usize, bundle: &BundleParts) -> Result<JwtBundle, UpdateError>
    ensures ok { IfOk result (λ keys. map_refusal (Authorities number) (key_set_of bundle.now.jwks.items) ≡ Ok keys.authorities) }
    ensures keys { IfOk result (λ keys. keys ≡ keys_of_bundle (plain_bundle bundle.now)) }
    ensures domain { HasCanonicalDomain (plain_bundle bundle.now) }
    ensures err { IfErr result (IsRefusal (map_refusal (Authorities number) (key_set_of bundle.now.jwks.items))) }
{
    let _ = bundle.trust_domain.as_str();
    let domain = bundle.trust_domain.copy(alloc)?;
    key_set(alloc, number, domain, &bundle.jwks)
}

/// Tries the rule of each bundle's key set in turn, and answers the set of the bundles. Each key set is read once.
pub(crate) fn check_key_sets(
    alloc: Global,
    bundles: &[BundleParts],
) -> Result<JwtBundleSet, UpdateError>
    ensures ok { OnOk result (key_sets_check 0 (map plain_bundle bundles.now) ≡ Ok tt) }
    ensures domains { OnOk result (AllByRecursion HasCanonicalDomain (map plain_bundle bundles.now)) }
    ensures set { IfOk result (λ set. set ≡ bundle_map (map plain_bundle bundles.now)) }
    ensures err { IfErr result (IsRefusal (key_sets_check 0 (map plain_bundle bundles.now))) }
{
    let mut set = JwtBundleSet::new(alloc);
    for (number, bundle) in bundles.iter().enumerate() {
        let keys = own_key_set(alloc, number, bundle)?;
        add(&mut set, keys)?;
    }
    Ok(set)
}
