//! The entries and the bundle that `make` makes an update of.
ghost use Rattle.std.specs.Prelude.{◌≡◌, ◌<◌, ◌≤◌, ◌%◌, ◌==◌, IfOk, IsNone, Some, None, map, option_map, if◌then◌else◌};
ghost use Rattle.std.specs.List.{repeat};
ghost use Rattle.der_core.specs.ObjectIdentifier.{oid_content};
ghost use Rattle.der_small.specs.BitString.{plain_bits_ref};
ghost use Rattle.spki.specs.PlainPublicKey.{plain_public_key};
ghost use Rattle.pkcs8.specs.PlainPrivateKey.{plain_private_key};
ghost use Rattle.identity_update.specs.Bundle.{plain_bundle};
ghost use Rattle.identity_update.specs.EntryParts.{plain_entry};
ghost use Rattle.tool_commands.specs.Made.{ed25519_oid, key_of, made_bundle, made_domain, made_entries, made_entry, made_id, made_octets, private_key_of};

use der_small::{BitStringRef, ObjectIdentifier, OctetStringRef};
use identity_source::{BundleParts, EntryParts};
use pkcs8::{PrivateKeyInfoOwned, PrivateKeyInfoRef};
use spiffe_id::{SpiffeId, TrustDomain};
use spki::{AlgorithmIdentifierRef, SubjectPublicKeyInfoOwned, SubjectPublicKeyInfoRef};
use std::alloc::{AllocError, Global};

const DOMAIN: &str = "example.org";

const KEY_SET: &[u8] = b"{\"keys\":[{\"kid\":\"k0\"}]}";

// 1.3.101.112
const ED25519: [u8; 3] = [0x2b, 0x65, 0x70];

fn ed25519<'a>() -> Result<AlgorithmIdentifierRef<'a>, AllocError>
    ensures oid { IfOk result (λ algorithm. oid_content algorithm.oid ≡ ed25519_oid) }
    ensures parameters { IfOk result (λ algorithm. IsNone algorithm.parameters) }
{
    match ObjectIdentifier::from_bytes(&ED25519) {
        Ok(oid) => Ok(AlgorithmIdentifierRef {
            oid,
            parameters: None,
        }),
        Err(_) => Err(AllocError),
    }
}

fn domain(alloc: Global) -> Result<TrustDomain, AllocError>
    ensures { IfOk result (λ domain. domain ≡ made_domain) }
{
    match TrustDomain::new(alloc, DOMAIN) {
        Ok(domain) => Ok(domain),
        Err(_) => Err(AllocError),
    }
}

fn id_at(alloc: Global, n: u64) -> Result<SpiffeId, AllocError>
    ensures { IfOk result (λ id. id ≡ made_id n) }
{
    let domain = domain(alloc)?;
    let mut segments = Vec::new(alloc);
    segments.push(String::from_str(alloc, "w")?)?;
    segments.push(format!(in alloc; "{n}")?)?;
    match SpiffeId::from_segments(alloc, domain, &segments) {
        Ok(id) => Ok(id),
        Err(_) => Err(AllocError),
    }
}

// The bytes, so many times.
fn repeated(alloc: Global, bytes: &[u8], times: usize) -> Result<Vec<u8>, AllocError>
    ensures { IfOk result (λ all. all.items ≡ repeat times bytes.now) }
{
    let mut all = Vec::new(alloc);
    for _ in 0..times {
        all.extend_from_slice(bytes)?;
    }
    Ok(all)
}

fn octets_at(alloc: Global, n: u32) -> Result<Vec<u8>, AllocError>
    ensures { IfOk result (λ octets. octets.items ≡ made_octets n) }
{
    let mut octets = Vec::from_slice(alloc, &[4, 32])?;
    octets.extend_from_slice(&repeated(alloc, &[(n % 251) as u8], 32)?)?;
    Ok(octets)
}

// An odd number's private key holds the public one.
fn held<'a>(n: u32, key: BitStringRef<'a>) -> Option<BitStringRef<'a>>
    ensures { option_map plain_bits_ref result ≡ (if n % 2 == 1 then Some (plain_bits_ref key.entry) else None) }
{
    if n % 2 == 1 { Some(key) } else { None }
}

fn public_key(alloc: Global, key: BitStringRef<'_>) -> Result<SubjectPublicKeyInfoOwned, AllocError>
    ensures { IfOk result (λ info. plain_public_key info ≡ key_of (plain_bits_ref key.entry)) }
{
    let info = SubjectPublicKeyInfoRef {
        algorithm: ed25519()?,
        subject_public_key: key,
    };
    match info.ref_to_owned(alloc) {
        Ok(info) => Ok(info),
        Err(_) => Err(AllocError),
    }
}

fn private_key(
    alloc: Global,
    octets: &[u8],
    held: Option<BitStringRef<'_>>,
) -> Result<PrivateKeyInfoOwned, AllocError>
    ensures { IfOk result (λ info. plain_private_key info ≡ private_key_of octets.now (option_map plain_bits_ref held.entry)) }
{
    let Ok(private_key) = OctetStringRef::new(octets) else {
        return Err(AllocError);
    };
    let info = PrivateKeyInfoRef {
        algorithm: ed25519()?,
        private_key,
        attributes: None,
        public_key: held,
    };
    match info.ref_to_owned(alloc) {
        Ok(info) => Ok(info),
        Err(_) => Err(AllocError),
    }
}

fn entry_at(alloc: Global, n: u64) -> Result<EntryParts, AllocError>
    requires { n < 10000 }
    ensures { IfOk result (λ entry. plain_entry entry ≡ made_entry n) }
{
    let number = n as u32;
    let octets = octets_at(alloc, number)?;
    let key = repeated(alloc, &number.to_be_bytes(), 8)?;
    let Ok(bits) = BitStringRef::new(0, &key) else {
        return Err(AllocError);
    };
    Ok(EntryParts {
        id: id_at(alloc, n)?,
        private_key: private_key(alloc, &octets, held(number, bits))?,
        public_key: public_key(alloc, bits)?,
    })
}

/// The entries of the numbers below `n`, in ascending order.
pub(crate) fn entries(alloc: Global, n: u64) -> Result<Vec<EntryParts>, AllocError>
    requires { n ≤ 10000 }
    ensures { IfOk result (λ entries. map plain_entry entries.items ≡ made_entries n) }
{
    let mut entries = Vec::new(alloc);
    for i in 0..n {
        entries.push(entry_at(alloc, i)?)?;
    }
    Ok(entries)
}

/// The one bundle.
pub(crate) fn bundle(alloc: Global) -> Result<BundleParts, AllocError>
    ensures { IfOk result (λ bundle. plain_bundle bundle ≡ made_bundle) }
{
    Ok(BundleParts {
        trust_domain: domain(alloc)?,
        jwks: Vec::from_slice(alloc, KEY_SET)?,
    })
}
