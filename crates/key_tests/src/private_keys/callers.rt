ghost use Rattle.std.specs.Prelude.{ℕ, List, [], ◌∷◌, nat_eq, Some, None, if◌then◌else◌};
ghost use Rattle.std.specs.Cmp.Lexicographic.{pointwise};
ghost use Rattle.der_small.specs.OctetString.{octets};
ghost use Rattle.pkcs8.specs.Answers.{ReadAnswer, written_answer};
ghost use Rattle.pkcs8.specs.PlainPrivateKey.{ReadsPrivateKey, private_key_der};
ghost use Rattle.pkcs8.specs.ReadLaws.{private_key_one_answer, read_no_file, written_no_file};
ghost use Rattle.pkcs8.specs.declared.error.Error.TheVariants as refusal;
ghost use Rattle.pkcs8.specs.declared.error.KeyError.TheVariants as why;
ghost use Rattle.spki.specs.SomeKeys.{TakesSome, takes_some_no_file, takes_some_one};
ghost use Rattle.std.specs.Prelude.{◌≡◌};
ghost use Rattle.der_core.specs.Oid.{IsOidContent};
ghost use Rattle.der_core.specs.ObjectIdentifier.{oid_content};

use super::documents::{BY_RFC, WORKED};
use crate::checks::{good, same, same_bytes};
use der_small::{Decode, ObjectIdentifier, OctetString, SecretDocument};
use pkcs8::{
    DecodePrivateKey, EncodePrivateKey, Error, KeyError, PrivateKeyInfo, PrivateKeyInfoOwned,
    PrivateKeyInfoRef, Result,
};
use spki::AlgorithmIdentifierRef;
use std::alloc::Global;

/// The content of id-Ed25519 (RFC 8410, section 3).
const OID: [u8; 3] = [43, 101, 112];

/// The identifier of a content that is known to be one.
fn known(content: &[u8]) -> ObjectIdentifier
    requires { IsOidContent content.now }
    ensures { oid_content result ≡ content.now }
{
    ObjectIdentifier::from_bytes(content).unwrap()
}

/// A caller's own type of private keys: those of Ed25519, by their octets alone. It takes some of the keys that
/// documents hold, and refuses those of other algorithms as invalid.
#[derive(Drop)]
struct Ed25519Key {
    octets: OctetString,
}

impl DecodePrivateKey for Ed25519Key {
    ghost Plain = { List ℕ };

    ghost plain = { λ k. octets k.octets };

    // Of the keys that `PrivateKeyInfoOwned` reads it takes those with this identifier.
    ghost HasAnswer = { TakesSome (λ p. if pointwise nat_eq p.algorithm.oid (43 ∷ 101 ∷ 112 ∷ []) then Some p.private_key else None)
        (refusal.KeyMalformed why.Invalid) (ReadAnswer ReadsPrivateKey) };

    fn from_pkcs8_der(alloc: Global, bytes: &[u8]) -> Result<Self> {
        match PrivateKeyInfoOwned::from_pkcs8_der(alloc, bytes) {
            Ok(key) => {
                if key.algorithm.oid.as_bytes() != OID.as_slice() {
                    return Err(Error::KeyMalformed(KeyError::Invalid));
                }
                Ok(Ed25519Key {
                    octets: key.private_key,
                })
            }
            Err(error) => Err(error),
        }
    }

    ghost one_answer = { takes_some_one _ (refusal.KeyMalformed why.Invalid) (ReadAnswer ReadsPrivateKey) private_key_one_answer };

    ghost no_file = { takes_some_no_file _ (refusal.KeyMalformed why.Invalid) (ReadAnswer ReadsPrivateKey) _ (λ no. no) (read_no_file ReadsPrivateKey) };
}

impl EncodePrivateKey for Ed25519Key {
    ghost document = { λ k. written_answer (private_key_der (record {
      algorithm = record { oid = 43 ∷ 101 ∷ 112 ∷ []; parameters = None };
      private_key = octets k.octets;
      attributes = None;
      public_key = None;
    })) };

    fn to_pkcs8_der(&self, alloc: Global) -> Result<SecretDocument> {
        let algorithm = AlgorithmIdentifierRef {
            oid: known(&OID),
            parameters: None,
        };
        let key: PrivateKeyInfoRef = PrivateKeyInfo::new(algorithm, self.octets.owned_to_ref());
        key.to_pkcs8_der(alloc)
    }

    ghost no_file = { λ k. written_no_file _ };
}

#[test]
fn a_key_of_its_own_type(rt: HostRuntime) {
    let key = good(
        &rt,
        "a key",
        Ed25519Key::from_pkcs8_der(rt.alloc(), &WORKED),
    );
    let document = good(&rt, "memory", key.to_pkcs8_der(rt.alloc()));
    same_bytes(&rt, "document", document.as_bytes(), WORKED.as_slice());
}

/// The example of the crate's root file.
fn without_attributes(alloc: Global, document: &[u8]) -> Result<SecretDocument> {
    let mut key = PrivateKeyInfoRef::from_der(document)?;
    key.attributes = None;
    key.to_secret_document(alloc)
}

// The second example of RFC 8410, section 10.3, has 116 bytes, of which its attributes are 33.
#[test]
fn a_key_passed_on_without_attributes(rt: HostRuntime) {
    let document = good(&rt, "a document", without_attributes(rt.alloc(), &BY_RFC));
    let bytes = document.as_bytes();
    same(&rt, "length", &bytes.len(), &83);
    assert!(rt; bytes.get(..2) == Some([0x30, 0x51].as_slice()));
    assert!(rt; bytes.get(2..48) == BY_RFC.get(2..48));
    assert!(rt; bytes.get(48..) == BY_RFC.get(81..));
}
