//! One entry of an update.
ghost use Rattle.std.specs.Prelude.{◌≡◌, ◌<◌, ◌^◌, length};
ghost use Rattle.spki.specs.PlainPublicKey.{plain_public_key_ref, public_key_der};
ghost use Rattle.spki.specs.PlainAlgorithm.{plain_algorithm};
ghost use Rattle.der_core.specs.Any.{plain_ref};
ghost use Rattle.der_small.specs.BitString.{plain_bits_ref};
ghost use Rattle.pkcs8.specs.PlainPrivateKey.{plain_private_key_ref};
ghost use Rattle.identity_update.specs.Kept.{IsKept, IsPlaced, kept_algorithm, kept_bits};

use crate::kept::KeptEntry;
use der_core::AnyRef;
use der_small::{BitStringRef, OctetStringRef};
use pkcs8::{AttributesRef, PrivateKeyInfoRef};
use spiffe_id::SpiffeId;
use spki::{
    AlgorithmIdentifier, AlgorithmIdentifierRef, SubjectPublicKeyInfo, SubjectPublicKeyInfoRef,
};
use std::marker::Model;

/// A SPIFFE ID and its key pair, cut out of the document of an update.
#[derive(Drop)]
pub struct Identity<'a> {
    document: &'a [u8],
    entry: &'a KeptEntry,
}

impl<'a> Model for Identity<'a> {
    ghost use Rattle.identity_update.specs.Parts.{Entry};
    ghost use Rattle.identity_update.specs.Kept.{IsKept, kept_entry};

    ghost Value = { Entry };

    ghost view = { λ i. kept_entry i.document.now i.entry.now };

    ghost invariant = { λ i. IsKept i.document.now i.entry.now };
}

impl<'a> Identity<'a> {
    ghost use Rattle.identity_update.specs.Kept.{kept_entry};

    pub(crate) fn cut(document: &'a [u8], entry: &'a KeptEntry) -> Self
        requires { IsKept document.now entry.now }
        ensures { result ≡ kept_entry document.now entry.now }
    {
        Identity { document, entry }
    }

    /// The SPIFFE ID.
    pub fn id(&self) -> &'a SpiffeId
        ensures { result.now ≡ self.now.id }
    {
        &self.entry.id
    }

    /// The private key.
    pub fn private_key(&self) -> PrivateKeyInfoRef<'a>
        ensures { plain_private_key_ref result ≡ self.now.private_key }
    {
        let Ok(octets) = OctetStringRef::new(self.entry.octets.of(self.document)) else {
            unreachable!()
        };
        let algorithm = algorithm(self.document, self.entry);
        let attributes = match self.entry.attributes {
            None => None,
            Some(place) => {
                let Ok(attributes) = AttributesRef::new(place.of(self.document)) else {
                    unreachable!()
                };
                Some(attributes)
            }
        };
        let public_key = if self.entry.holds_public_key {
            Some(bits(self.document, self.entry))
        } else {
            None
        };
        PrivateKeyInfoRef {
            algorithm,
            private_key: octets,
            attributes,
            public_key,
        }
    }

    /// The public key.
    pub fn public_key(&self) -> SubjectPublicKeyInfoRef<'a>
        ensures value { plain_public_key_ref result ≡ self.now.public_key }
        ensures fits { length (public_key_der self.now.public_key) < 2 ^ 32 }
    {
        SubjectPublicKeyInfo {
            algorithm: algorithm(self.document, self.entry),
            subject_public_key: bits(self.document, self.entry),
        }
    }
}

// The algorithm of both keys.
fn algorithm<'a>(document: &'a [u8], entry: &KeptEntry) -> AlgorithmIdentifierRef<'a>
    requires { IsPlaced document.now entry.now }
    ensures { plain_algorithm plain_ref result ≡ kept_algorithm document.now entry.now }
{
    let parameters = match entry.parameters {
        None => None,
        Some(kept) => {
            let Ok(value) = AnyRef::new(kept.tag, kept.content.of(document)) else {
                unreachable!()
            };
            Some(value)
        }
    };
    AlgorithmIdentifier {
        oid: entry.oid,
        parameters,
    }
}

// The public key's bits.
fn bits<'a>(document: &'a [u8], entry: &KeptEntry) -> BitStringRef<'a>
    requires { IsPlaced document.now entry.now }
    ensures { plain_bits_ref result ≡ kept_bits document.now entry.now }
{
    let Ok(bits) = BitStringRef::new(entry.unused_bits, entry.bits.of(document)) else {
        unreachable!()
    };
    bits
}
