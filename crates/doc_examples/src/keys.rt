//! Keys.
use der_small::{Decode, ObjectIdentifier, SecretDocument};
use pkcs8::PrivateKeyInfoRef;
use spki::SubjectPublicKeyInfoRef;
use std::alloc::Global;

// cut: ed25519_fingerprint
/// The fingerprint of an Ed25519 key, and of no other.
pub fn ed25519_fingerprint(alloc: Global, document: &[u8]) -> spki::Result<String> {
    let key = SubjectPublicKeyInfoRef::from_der(document)?;
    key.algorithm
        .assert_algorithm_oid(ObjectIdentifier::new("1.3.101.112")?)?;
    key.fingerprint_base64(alloc)
}
// end

// cut: without_attributes
/// A private key's document without its attributes.
pub fn without_attributes(alloc: Global, document: &[u8]) -> pkcs8::Result<SecretDocument> {
    let mut key = PrivateKeyInfoRef::from_der(document)?;
    key.attributes = None;
    key.to_secret_document(alloc)
}
// end
