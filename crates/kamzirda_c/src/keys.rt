//! Documents of keys.
ghost use Rattle.std.specs.Prelude.{◌≡◌, ◌≢◌, ◌⊎◌, ◌<◌, ◌+◌, ◌≤◌, ◌^◌, length, string_bytes, IfOk, IfErr, OnOk};
ghost use Rattle.der_core.specs.ObjectIdentifier.{oid_content};
ghost use Rattle.der_core.specs.Oid.{oid_text};
ghost use Rattle.kamzirda_c.specs.Buffers.{Wanting, Written};
ghost use Rattle.kamzirda_c.specs.Keys.{BreaksDocument, HasBits, HasFingerprint, WritesOid};
ghost use Rattle.kamzirda_c.specs.Status.{done, no_memory, no_room, refused};
ghost use Rattle.sha2.specs.Sha256.{sha256};
ghost use Rattle.spki.specs.PlainPublicKey.{ReadsPublicKey, plain_public_key, public_key_der};

use crate::buffers::fill;
use crate::status::{DONE, NO_MEMORY, REFUSED};
use der_small::{Error, ObjectIdentifier};
use spki::SubjectPublicKeyInfoOwned;
use std::alloc::{AllocError, Global};

/// Where the octets of a bit string stand in a document.
#[repr(C)]
#[derive(Clone, Copy)]
pub struct KamzirdaBits {
    /// Where they begin.
    pub offset: usize,

    /// How many there are.
    pub len: usize,

    /// How many bits of the last one are unused, 0 to 7.
    pub unused_bits: u32,
}

/// Where the parts of a private key stand in its document.
#[repr(C)]
#[derive(Clone, Copy)]
pub struct KamzirdaPrivateKey {
    /// 0, or 1 where the document holds the public key.
    pub version: u32,

    /// Where the octets of the private key begin.
    pub octets_offset: usize,

    /// How many there are.
    pub octets_len: usize,

    /// The public key, all 0 where there is none.
    pub public_key: KamzirdaBits,
}

/// A public key's document as its key, or the status of a refusal.
fn public_key(
    alloc: Global,
    document: &[u8],
    rule: &mut u32,
) -> Result<SubjectPublicKeyInfoOwned, u32>
    ensures key { IfOk result (λ key. ReadsPublicKey document.now (plain_public_key key)) }
    ensures known { IfErr result (λ status. (status ≡ refused) ⊎ (status ≡ no_memory)) }
    ensures refused { IfErr result (λ status. status ≡ refused → BreaksDocument ReadsPublicKey document.now rule.new) }
    ensures no_rule { IfErr result (λ status. status ≢ refused → rule.new ≡ rule.old) }
    ensures kept { OnOk result (rule.new ≡ rule.old) }
{
    match SubjectPublicKeyInfoOwned::from_der(alloc, document) {
        Ok(key) => Ok(key),
        Err(Error::Malformed) => {
            *rule = 3;
            Err(REFUSED)
        }
        Err(Error::TrailingData { .. }) => {
            *rule = 4;
            Err(REFUSED)
        }
        Err(_) => Err(NO_MEMORY),
    }
}

// The fingerprint of a key whose document fits.
fn fingerprint(key: &SubjectPublicKeyInfoOwned) -> [u8; 32]
    requires { length (public_key_der (plain_public_key key.now)) < 2 ^ 32 }
    ensures { result ≡ sha256 (public_key_der (plain_public_key key.now)) }
{
    match key.fingerprint_bytes() {
        Ok(digest) => digest,
        Err(_) => unreachable!(),
    }
}

/// The SHA-256 fingerprint of a public key's document (RFC 7469, section 2.4).
#[unsafe(no_mangle)]
pub extern "C" fn kamzirda_spki_fingerprint(
    alloc: Global,
    document: &[u8],
    digest: &mut [u8; 32],
    rule: &mut u32,
) -> u32
    ensures known { (result ≡ done) ⊎ (result ≡ refused) ⊎ (result ≡ no_memory) }
    ensures done { result ≡ done → HasFingerprint document.now digest.new }
    ensures refused { result ≡ refused → BreaksDocument ReadsPublicKey document.now rule.new }
    ensures kept { result ≢ done → digest.new ≡ digest.old }
    ensures no_rule { result ≢ refused → rule.new ≡ rule.old }
{
    match public_key(alloc, document, rule) {
        Ok(key) => {
            *digest = fingerprint(&key);
            DONE
        }
        Err(status) => status,
    }
}

/// Where the key's own bits stand in a public key's document.
#[unsafe(no_mangle)]
pub extern "C" fn kamzirda_spki_bits(
    alloc: Global,
    document: &[u8],
    bits: &mut KamzirdaBits,
    rule: &mut u32,
) -> u32
    ensures known { (result ≡ done) ⊎ (result ≡ refused) ⊎ (result ≡ no_memory) }
    ensures done { result ≡ done → HasBits document.now bits.new }
    ensures refused { result ≡ refused → BreaksDocument ReadsPublicKey document.now rule.new }
    ensures kept { result ≢ done → bits.new ≡ bits.old }
    ensures no_rule { result ≢ refused → rule.new ≡ rule.old }
{
    match public_key(alloc, document, rule) {
        Ok(key) => {
            *bits = last_bits(document, &key);
            DONE
        }
        Err(status) => status,
    }
}

// The bits of a key, which its document ends with.
fn last_bits(document: &[u8], key: &SubjectPublicKeyInfoOwned) -> KamzirdaBits
    requires { ReadsPublicKey document.now (plain_public_key key.now) }
    ensures unused_bits { result.unused_bits ≡ (plain_public_key key.now).key.unused_bits }
    ensures len { result.len ≡ length (plain_public_key key.now).key.octets }
    ensures last { result.offset + result.len ≡ length document.now }
{
    let octets = key.subject_public_key.raw_bytes();
    KamzirdaBits {
        offset: document.len() - octets.len(),
        len: octets.len(),
        unused_bits: u32::from(key.subject_public_key.unused_bits()),
    }
}

// An identifier in dotted decimals.
fn dotted(alloc: Global, oid: &ObjectIdentifier) -> Result<String, AllocError>
    ensures { IfOk result (λ text. string_bytes text ≡ oid_text (oid_content oid.now)) }
{
    format!(in alloc; "{oid}")
}

/// The object identifier of a public key's algorithm, in dotted decimals.
#[unsafe(no_mangle)]
pub extern "C" fn kamzirda_spki_oid(
    alloc: Global,
    document: &[u8],
    text: &mut [u8],
    len: &mut usize,
    rule: &mut u32,
) -> u32
    ensures known { (result ≡ done) ⊎ (result ≡ refused) ⊎ (result ≡ no_memory) ⊎ (result ≡ no_room) }
    ensures done { result ≡ done → WritesOid document.now (Written text.old text.new len.new) }
    ensures no_room { result ≡ no_room → WritesOid document.now (Wanting text.old text.new len.new) }
    ensures refused { result ≡ refused → BreaksDocument ReadsPublicKey document.now rule.new }
    ensures same { result ≢ done → text.new ≡ text.old }
    ensures kept { result ≢ done → result ≢ no_room → len.new ≡ len.old }
    ensures no_rule { result ≢ refused → rule.new ≡ rule.old }
{
    let key = match public_key(alloc, document, rule) {
        Ok(key) => key,
        Err(status) => return status,
    };
    match dotted(alloc, &key.algorithm.oid) {
        Ok(oid) => fill(oid.as_bytes(), text, len),
        Err(_) => NO_MEMORY,
    }
}
