ghost use Rattle.std.specs.Prelude.{[], ◌∷◌, nat_eq, Some, None, if◌then◌else◌};
ghost use Rattle.std.specs.Cmp.Lexicographic.{pointwise};
ghost use Rattle.der_small.specs.BitString.{plain_bits};
ghost use Rattle.der_small.specs.Bits.{PlainBits};
ghost use Rattle.spki.specs.Answers.{ReadAnswer, written_answer};
ghost use Rattle.spki.specs.PlainPublicKey.{ReadsPublicKey, public_key_der};
ghost use Rattle.spki.specs.ReadLaws.{public_key_one_answer, read_no_file, written_no_file};
ghost use Rattle.spki.specs.SomeKeys.{TakesSome, takes_some_no_file, takes_some_one};
ghost use Rattle.spki.specs.declared.error.Error.TheVariants as refusal;

use super::documents::{ED25519, FINGERPRINT, ON_P256, decoded};
use super::identifiers::known;
use crate::checks::{good, same_bytes, same_text};
use der_small::{BitString, Decode, Document, ObjectIdentifier};
use spki::{
    AlgorithmIdentifierRef, DecodePublicKey, EncodePublicKey, Error, Result, SubjectPublicKeyInfo,
    SubjectPublicKeyInfoOwned, SubjectPublicKeyInfoRef,
};
use std::alloc::Global;

/// The content of id-Ed25519 (RFC 8410, section 3).
const OID: [u8; 3] = [43, 101, 112];

/// A caller's own type of public keys: those of Ed25519. It takes some of the keys that documents hold, and
/// refuses those of other algorithms as malformed.
#[derive(Drop)]
struct Ed25519Key {
    bits: BitString,
}

impl DecodePublicKey for Ed25519Key {
    ghost Plain = { PlainBits };

    ghost plain = { λ k. plain_bits k.bits };

    // Of the keys that `SubjectPublicKeyInfoOwned` reads it takes those with this identifier.
    ghost HasAnswer = { TakesSome (λ p. if pointwise nat_eq p.algorithm.oid (43 ∷ 101 ∷ 112 ∷ []) then Some p.key else None) refusal.KeyMalformed
        (ReadAnswer ReadsPublicKey) };

    fn from_public_key_der(alloc: Global, bytes: &[u8]) -> Result<Self> {
        match SubjectPublicKeyInfoOwned::from_public_key_der(alloc, bytes) {
            Ok(key) => {
                if key.algorithm.oid.as_bytes() != OID.as_slice() {
                    return Err(Error::KeyMalformed);
                }
                Ok(Ed25519Key {
                    bits: key.subject_public_key,
                })
            }
            Err(error) => Err(error),
        }
    }

    ghost one_answer = { takes_some_one _ refusal.KeyMalformed (ReadAnswer ReadsPublicKey) public_key_one_answer };

    ghost no_file = { takes_some_no_file _ refusal.KeyMalformed (ReadAnswer ReadsPublicKey) _ (λ no. no) (read_no_file ReadsPublicKey) };
}

impl EncodePublicKey for Ed25519Key {
    ghost document = { λ k. written_answer (public_key_der (record {
      algorithm = record { oid = 43 ∷ 101 ∷ 112 ∷ []; parameters = None };
      key = plain_bits k.bits;
    })) };

    fn to_public_key_der(&self, alloc: Global) -> Result<Document> {
        let key = SubjectPublicKeyInfo {
            algorithm: AlgorithmIdentifierRef {
                oid: known(&OID),
                parameters: None,
            },
            subject_public_key: self.bits.owned_to_ref(),
        };
        key.to_public_key_der(alloc)
    }

    ghost no_file = { λ k. written_no_file _ };
}

#[test]
fn a_key_of_its_own_type(rt: HostRuntime) {
    let alloc = rt.alloc();
    let bytes = decoded(&rt, alloc, ED25519);
    let key = good(&rt, "a key", Ed25519Key::from_public_key_der(alloc, &bytes));
    let written = good(&rt, "memory", key.to_public_key_der(alloc));
    same_bytes(&rt, "written", written.as_bytes(), bytes.as_slice());
    let made = good(
        &rt,
        "a key",
        SubjectPublicKeyInfoOwned::from_key(alloc, &key),
    );
    let written = good(&rt, "memory", made.to_public_key_der(alloc));
    same_bytes(&rt, "written", written.as_bytes(), bytes.as_slice());
}

/// The example of the crate's root file.
fn ed25519_fingerprint(alloc: Global, document: &[u8]) -> Result<String> {
    let key = SubjectPublicKeyInfoRef::from_der(document)?;
    key.algorithm
        .assert_algorithm_oid(ObjectIdentifier::new("1.3.101.112")?)?;
    key.fingerprint_base64(alloc)
}

#[test]
fn a_fingerprint_of_one_algorithm(rt: HostRuntime) {
    let bytes = decoded(&rt, rt.alloc(), ED25519);
    let text = good(
        &rt,
        "a fingerprint",
        ed25519_fingerprint(rt.alloc(), &bytes),
    );
    same_text(&rt, "a text", text.as_str(), FINGERPRINT);
    let other = decoded(&rt, rt.alloc(), ON_P256);
    let refused = ed25519_fingerprint(rt.alloc(), &other);
    assert!(rt; matches!(&refused, Err(Error::OidUnknown { .. })));
}
