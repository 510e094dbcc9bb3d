use super::documents::{ED25519, P256};
use crate::checks::{good, same_text};
use der_small::{BitStringRef, Decode, ObjectIdentifier, OctetStringRef};
use pkcs8::{AttributesRef, PrivateKeyInfo, PrivateKeyInfoOwned, PrivateKeyInfoRef};
use spki::AlgorithmIdentifier;
use std::alloc::Global;
use std::process::Abort;

fn plain(rt: &impl Abort) -> PrivateKeyInfoRef<'static> {
    good(rt, "a key", PrivateKeyInfoRef::from_der(&ED25519))
}

fn shown(rt: &impl Abort, alloc: Global, key: &PrivateKeyInfoRef<'_>) -> String {
    good(rt, "memory", format!(in alloc; "{key:?}"))
}

fn octet_string<'a>(rt: &impl Abort, octets: &'a [u8]) -> OctetStringRef<'a> {
    good(rt, "octets", OctetStringRef::new(octets))
}

/// What is shown of a key whose parameters are these octets.
fn shown_with(rt: &impl Abort, alloc: Global, oid: ObjectIdentifier, octets: &[u8]) -> String {
    let parameters = Some(octet_string(rt, octets));
    let key: PrivateKeyInfo<OctetStringRef, OctetStringRef, BitStringRef, AttributesRef> =
        PrivateKeyInfo::new(
            AlgorithmIdentifier { oid, parameters },
            octet_string(rt, &[7]),
        );
    good(rt, "memory", format!(in alloc; "{key:?}"))
}

#[test]
fn octets_and_attributes_are_not_shown(rt: HostRuntime) {
    let key = plain(&rt);
    let text = shown(&rt, rt.alloc(), &key);
    same_text(
        &rt,
        "a text",
        text.as_str(),
        "PrivateKeyInfo { version: V1, algorithm: AlgorithmIdentifier { oid: 1.3.101.112, parameters: None }, public_key: None }",
    );
    let attributes = good(&rt, "attributes", AttributesRef::new(&[0x30, 0]));
    let public_key = good(&rt, "bits", BitStringRef::new(4, &[1, 240]));
    let with_key: PrivateKeyInfoRef = PrivateKeyInfo {
        algorithm: key.algorithm,
        private_key: octet_string(&rt, &[7]),
        attributes: Some(attributes),
        public_key: Some(public_key),
    };
    let text = shown(&rt, rt.alloc(), &with_key);
    same_text(
        &rt,
        "a text",
        text.as_str(),
        "PrivateKeyInfo { version: V2, algorithm: AlgorithmIdentifier { oid: 1.3.101.112, parameters: None }, public_key: Some(BitString { u\
             nused_bits: 4, octets: [1, 240] }) }",
    );
}

// The parameters are shown as their encoding.
#[test]
fn parameters_are_shown(rt: HostRuntime) {
    let key = good(
        &rt,
        "a key",
        PrivateKeyInfoOwned::from_der(rt.alloc(), &P256),
    );
    let text = good(&rt, "memory", format!(in rt.alloc(); "{key:?}"));
    same_text(
        &rt,
        "a text",
        text.as_str(),
        "PrivateKeyInfo { version: V1, algorithm: AlgorithmIdentifier { oid: 1.2.840.10045.2.1, parameters: Some([6, 8, 42, 134, 72, 206, 61\
             , 3, 1, 7]) }, public_key: None }",
    );
}

// Parameters whose encoding has at most 128 bytes are shown, and longer ones not.
#[test]
fn long_parameters_are_not_shown(rt: HostRuntime) {
    let octets = [0; 127];
    let oid = plain(&rt).algorithm.oid;
    let rows = [
        (126, "parameters: Some([4, 126, 0, 0, 0, "),
        (127, "parameters: Some(..) }"),
    ];
    for (len, part) in rows {
        let text = shown_with(&rt, rt.alloc(), oid, &octets[..len]);
        assert!(rt; text.as_str().contains(part), "{text}");
    }
}
