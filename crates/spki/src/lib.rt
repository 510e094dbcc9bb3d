//! Subject public key info (RFC 5280, sections 4.1.1.2 and 4.1.2.7): algorithm identifiers, public keys
//! and their documents, fingerprints, and the traits of types that are read from public key documents
//! or written as such.
//!
//! The fingerprint of an Ed25519 key, and of no other:
//!
//! ```rust
//! /// The fingerprint of an Ed25519 key, and of no other.
//! pub fn ed25519_fingerprint(alloc: Global, document: &[u8]) -> spki::Result<String> {
//!     let key = SubjectPublicKeyInfoRef::from_der(document)?;
//!     key.algorithm
//!         .assert_algorithm_oid(ObjectIdentifier::new("1.3.101.112")?)?;
//!     key.fingerprint_base64(alloc)
//! }
//! ```
#![tactic(auto)]

mod algorithm;
mod digest;
mod error;
mod key_file;
pub mod laws;
mod spki;
mod traits;

pub use algorithm::{
    AlgorithmIdentifier, AlgorithmIdentifierOwned, AlgorithmIdentifierRef,
    AlgorithmIdentifierWithOid, AsAlgorithmIdentifierRef,
};
pub use digest::{DigestWriter, FingerprintBytes};
pub use error::{Error, Result};
pub use spki::{SubjectPublicKeyInfo, SubjectPublicKeyInfoOwned, SubjectPublicKeyInfoRef};
pub use traits::{
    AssociatedAlgorithmIdentifier, DecodePublicKey, DynAssociatedAlgorithmIdentifier,
    DynSignatureAlgorithmIdentifier, EncodePublicKey, SignatureAlgorithmIdentifier,
    SignatureBitStringEncoding,
};
