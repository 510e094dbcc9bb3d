use crate::checks::{good, same, same_bytes, same_text};
use der_small::{
    AnyRef, BitStringRef, Decode, Encode, EncodeValue, FixedTag, ObjectIdentifier, OctetStringRef,
};
use pkcs8::laws::{
    copied_errors_are_the_same, copied_keys_are_the_same, equal_attributes_are_the_same,
    equal_keys_are_equal_in_each_part, equal_keys_are_the_same, read_keys_are_read_again,
    read_keys_are_written_alike, same_keys_are_equal, shown_keys_hide_octets_and_attributes,
    written_keys_are_read,
};
use pkcs8::{
    AttributesRef, BitStringLike, DecodePrivateKey, EncodePrivateKey, PrivateKeyInfo,
    PrivateKeyInfoOwned, PrivateKeyInfoRef, Version,
};
use spki::AlgorithmIdentifierRef;
use std::alloc::Global;
use std::process::Abort;

// The worked document of an Ed25519 key (RFC 8410, section 7): 32 octets 11.
pub(super) const WORKED: [u8; 48] = [
    0x30, 0x2e, 0x02, 0x01, 0x00, 0x30, 0x05, 0x06, 0x03, 0x2b, 0x65, 0x70, 0x04, 0x22, 0x04, 0x20,
    0x11, 0x11, 0x11, 0x11, 0x11, 0x11, 0x11, 0x11, 0x11, 0x11, 0x11, 0x11, 0x11, 0x11, 0x11, 0x11,
    0x11, 0x11, 0x11, 0x11, 0x11, 0x11, 0x11, 0x11, 0x11, 0x11, 0x11, 0x11, 0x11, 0x11, 0x11, 0x11,
];

// By `openssl genpkey -algorithm ed25519 -outform DER`.
pub(super) const ED25519: [u8; 48] = [
    0x30, 0x2e, 0x02, 0x01, 0x00, 0x30, 0x05, 0x06, 0x03, 0x2b, 0x65, 0x70, 0x04, 0x22, 0x04, 0x20,
    0x2d, 0xfd, 0x7d, 0x73, 0xfd, 0x9c, 0x8b, 0x5c, 0x6e, 0x87, 0x7e, 0xb8, 0x12, 0x02, 0xe1, 0xf1,
    0x82, 0x02, 0xcd, 0x5e, 0x4c, 0x4e, 0x5b, 0x0b, 0x5b, 0x82, 0xc3, 0xcb, 0x37, 0xc0, 0x0d, 0x66,
];

// By `openssl genpkey -algorithm EC -pkeyopt ec_paramgen_curve:P-256` and
// `openssl pkcs8 -topk8 -nocrypt -outform DER`. Its public key stands inside the octets (RFC 5915, section 3).
pub(super) const P256: [u8; 138] = [
    0x30, 0x81, 0x87, 0x02, 0x01, 0x00, 0x30, 0x13, 0x06, 0x07, 0x2a, 0x86, 0x48, 0xce, 0x3d, 0x02,
    0x01, 0x06, 0x08, 0x2a, 0x86, 0x48, 0xce, 0x3d, 0x03, 0x01, 0x07, 0x04, 0x6d, 0x30, 0x6b, 0x02,
    0x01, 0x01, 0x04, 0x20, 0xab, 0x8d, 0x82, 0xee, 0x2c, 0x76, 0xf8, 0x5e, 0x53, 0xd8, 0x20, 0x36,
    0x62, 0x52, 0x6a, 0x62, 0xfe, 0xcf, 0x3c, 0x78, 0x16, 0x7b, 0xcd, 0xcb, 0x60, 0x64, 0x70, 0xf0,
    0x8d, 0x71, 0x07, 0xef, 0xa1, 0x44, 0x03, 0x42, 0x00, 0x04, 0xf1, 0x5e, 0xa7, 0xad, 0x47, 0xdf,
    0x85, 0xdf, 0x8e, 0xf2, 0x32, 0x62, 0xaa, 0x96, 0xc5, 0xb7, 0x1e, 0xd6, 0xe3, 0x6f, 0xdb, 0xf2,
    0x90, 0xa0, 0x0f, 0x59, 0x55, 0xf1, 0x23, 0x50, 0xa6, 0x62, 0xc1, 0xf9, 0x31, 0x77, 0x1b, 0x28,
    0x48, 0x16, 0x83, 0xb8, 0xbd, 0x92, 0xd8, 0xf1, 0x91, 0x41, 0x75, 0xb6, 0x96, 0x93, 0xd8, 0x4d,
    0xc1, 0xf5, 0x67, 0xa3, 0xa1, 0x55, 0xab, 0xc2, 0xe8, 0x7b,
];

// The second example of RFC 8410, section 10.3: version 2 with attributes and a public key.
pub(super) const BY_RFC: [u8; 116] = [
    0x30, 0x72, 0x02, 0x01, 0x01, 0x30, 0x05, 0x06, 0x03, 0x2b, 0x65, 0x70, 0x04, 0x22, 0x04, 0x20,
    0xd4, 0xee, 0x72, 0xdb, 0xf9, 0x13, 0x58, 0x4a, 0xd5, 0xb6, 0xd8, 0xf1, 0xf7, 0x69, 0xf8, 0xad,
    0x3a, 0xfe, 0x7c, 0x28, 0xcb, 0xf1, 0xd4, 0xfb, 0xe0, 0x97, 0xa8, 0x8f, 0x44, 0x75, 0x58, 0x42,
    0xa0, 0x1f, 0x30, 0x1d, 0x06, 0x0a, 0x2a, 0x86, 0x48, 0x86, 0xf7, 0x0d, 0x01, 0x09, 0x09, 0x14,
    0x31, 0x0f, 0x0c, 0x0d, 0x43, 0x75, 0x72, 0x64, 0x6c, 0x65, 0x20, 0x43, 0x68, 0x61, 0x69, 0x72,
    0x73, 0x81, 0x21, 0x00, 0x19, 0xbf, 0x44, 0x09, 0x69, 0x84, 0xcd, 0xfe, 0x85, 0x41, 0xba, 0xc1,
    0x67, 0xdc, 0x3b, 0x96, 0xc8, 0x50, 0x86, 0xaa, 0x30, 0xb6, 0xb6, 0xcb, 0x0c, 0x5c, 0x38, 0xad,
    0x70, 0x31, 0x66, 0xe1,
];

/// Each way to write the key gives the document.
fn check_written<
    Params: Encode,
    Key: EncodeValue + FixedTag,
    PubKey: BitStringLike,
    Attrs: EncodeValue,
>(
    rt: &impl Abort,
    alloc: Global,
    key: &PrivateKeyInfo<Params, Key, PubKey, Attrs>,
    document: &[u8],
) {
    let written = good(rt, "memory", key.to_der(alloc));
    same_bytes(rt, "written", written.as_slice(), document);
    let written = good(rt, "memory", key.to_secret_document(alloc));
    same_bytes(rt, "written", written.as_bytes(), document);
}

/// The owned form of the key is the same key, is read from the document, and is written as the other.
fn check_owned(rt: &impl Abort, alloc: Global, key: &PrivateKeyInfoRef<'_>, document: &[u8]) {
    let owned = good(rt, "memory", key.ref_to_owned(alloc));
    assert!(rt; owned.owned_to_ref() == *key);
    assert!(rt; PrivateKeyInfoOwned::from_der(alloc, document).is_ok_and(|read| read == owned));
    assert!(rt;
        PrivateKeyInfoOwned::from_pkcs8_der(alloc, document).is_ok_and(|read| read == owned)
    );
    same(rt, "version", &owned.version(), &key.version());
}

/// The key traits of both forms go by the document that is written.
fn check_traits(rt: &impl Abort, alloc: Global, key: &PrivateKeyInfoRef<'_>, document: &[u8]) {
    let written = good(rt, "memory", key.to_pkcs8_der(alloc));
    same_bytes(rt, "written", written.as_bytes(), document);
    let owned = good(rt, "memory", key.ref_to_owned(alloc));
    let written = good(rt, "memory", owned.to_pkcs8_der(alloc));
    same_bytes(rt, "written", written.as_bytes(), document);
}

fn read<'a>(rt: &impl Abort, document: &'a [u8]) -> PrivateKeyInfoRef<'a> {
    good(rt, "a key", PrivateKeyInfoRef::from_der(document))
}

/// Reads the document as a key that is written so, in all its forms.
pub(super) fn check_document<'a>(
    rt: &impl Abort,
    alloc: Global,
    document: &'a [u8],
    written: &[u8],
) -> PrivateKeyInfoRef<'a> {
    let key = read(rt, document);
    check_written(rt, alloc, &key, written);
    check_owned(rt, alloc, &key, document);
    check_traits(rt, alloc, &key, written);
    key
}

// Of the second example of RFC 8410, section 10.3, all four parts are written back.
#[test]
fn keys_in_all_their_forms(rt: HostRuntime) {
    let rows = [
        (WORKED.as_slice(), 14, 34, Version::V1),
        (ED25519.as_slice(), 14, 34, Version::V1),
        (P256.as_slice(), 29, 109, Version::V1),
        (BY_RFC.as_slice(), 14, 34, Version::V2),
    ];
    for (document, start, len, version) in rows {
        let key = check_document(&rt, rt.alloc(), document, document);
        same(&rt, "version", &key.version(), &version);
        assert!(rt; document.get(start..start + len) == Some(key.private_key.as_bytes()));
    }
}

#[test]
fn parts_of_a_key(rt: HostRuntime) {
    let key = read(&rt, &BY_RFC);
    same_bytes(
        &rt,
        "algorithm",
        key.algorithm.oid.as_bytes(),
        &[0x2b, 0x65, 0x70],
    );
    let attributes = key.attributes.expect(&rt, "attributes");
    same_bytes(&rt, "attributes", attributes.as_bytes(), &BY_RFC[50..81]);
    let public_key = key.public_key.expect(&rt, "a public key");
    same(&rt, "unused bits", &public_key.unused_bits(), &0);
    same_bytes(&rt, "public key", public_key.raw_bytes(), &BY_RFC[84..]);
}

// The curve of the key on P-256, as openssl names it.
#[test]
fn a_key_with_parameters(rt: HostRuntime) {
    let ec = good(
        &rt,
        "an identifier",
        ObjectIdentifier::new("1.2.840.10045.2.1"),
    );
    let curve = good(
        &rt,
        "an identifier",
        ObjectIdentifier::new("1.2.840.10045.3.1.7"),
    );
    let key = read(&rt, &P256);
    same(&rt, "oids", &key.algorithm.oids(), &Ok((ec, Some(curve))));
    let key = good(
        &rt,
        "a key",
        PrivateKeyInfo::<ObjectIdentifier, OctetStringRef, BitStringRef, AttributesRef>::from_der(
            &P256,
        ),
    );
    same(&rt, "parameters", &key.algorithm.parameters, &Some(curve));
    check_written(&rt, rt.alloc(), &key, &P256);
}

/// Whether the key is still the same with these attributes and this public key.
fn is_same_with(
    key: &PrivateKeyInfoRef<'_>,
    attributes: Option<AttributesRef<'_>>,
    public_key: Option<BitStringRef<'_>>,
) -> bool {
    let changed: PrivateKeyInfoRef<'_> = PrivateKeyInfo {
        algorithm: key.algorithm,
        private_key: key.private_key,
        attributes,
        public_key,
    };
    changed == *key
}

#[test]
fn keys_differ_in_attributes_and_public_key(rt: HostRuntime) {
    let key = read(&rt, &BY_RFC);
    let empty = Some(good(&rt, "attributes", AttributesRef::new(&[])));
    let rows = [
        (key.attributes, key.public_key, true),
        (None, key.public_key, false),
        (empty, key.public_key, false),
        (key.attributes, None, false),
    ];
    for (attributes, public_key, is_same) in rows {
        assert!(rt; is_same_with(&key, attributes, public_key) == is_same);
    }
}

#[test]
fn keys_differ_in_algorithm_and_octets(rt: HostRuntime) {
    let key = read(&rt, &WORKED);
    let other = read(&rt, &ED25519);
    let of_other: PrivateKeyInfoRef = PrivateKeyInfo::new(key.algorithm, other.private_key);
    assert!(rt; of_other != key);
    assert!(rt; of_other == other);
    let curve = read(&rt, &P256);
    let of_curve: PrivateKeyInfoRef = PrivateKeyInfo::new(curve.algorithm, key.private_key);
    assert!(rt; of_curve != key);
}

#[test]
fn secret_documents_show_their_length(rt: HostRuntime) {
    let key = read(&rt, &WORKED);
    let document = good(&rt, "memory", key.to_secret_document(rt.alloc()));
    let text = good(&rt, "memory", format!(in rt.alloc(); "{document:?}"));
    same_text(&rt, "a text", text.as_str(), "SecretDocument { len: 48 }");
}

#[test]
fn bit_strings_of_public_keys(rt: HostRuntime) {
    let bits = good(&rt, "bits", BitStringRef::new(4, &[0xf0]));
    let owned = good(&rt, "memory", bits.ref_to_owned(rt.alloc()));
    same(&rt, "borrowed", &bits.as_bit_string(), &bits);
    same(&rt, "owned", &owned.as_bit_string(), &bits);
}

/// A key each part of which is these octets.
fn key_of<'a>(rt: &impl Abort, octets: &'a [u8]) -> PrivateKeyInfoRef<'a> {
    PrivateKeyInfo {
        algorithm: AlgorithmIdentifierRef {
            oid: good(rt, "an identifier", ObjectIdentifier::new("1.3.101.112")),
            parameters: None,
        },
        private_key: good(rt, "octets", OctetStringRef::new(octets)),
        attributes: Some(good(rt, "attributes", AttributesRef::new(octets))),
        public_key: Some(good(rt, "bits", BitStringRef::new(0, octets))),
    }
}

// A key of which each part has 65,536 bytes, which are taken whole by each call that takes memory. Each length from
// 65,536 on takes four bytes (X.690, section 8.1.3).
#[test]
fn a_large_key(rt: HostRuntime) {
    let octets = good(&rt, "memory", vec![in rt.alloc(); 7u8; 65536]);
    let key = key_of(&rt, &octets);
    let document = good(&rt, "memory", key.to_der(rt.alloc()));
    same(&rt, "length", &document.len(), &196639);
    let read = check_document(&rt, rt.alloc(), &document, &document);
    assert!(rt; read == key);
}

#[test]
fn laws(_rt: HostRuntime) {
    written_keys_are_read::<AnyRef, OctetStringRef, BitStringRef, AttributesRef>();
    read_keys_are_written_alike::<AnyRef, OctetStringRef, BitStringRef, AttributesRef>();
    read_keys_are_read_again();
    same_keys_are_equal();
    equal_keys_are_the_same();
    equal_keys_are_equal_in_each_part::<AnyRef, OctetStringRef, BitStringRef, AttributesRef>();
    equal_attributes_are_the_same();
    shown_keys_hide_octets_and_attributes::<AnyRef, OctetStringRef, BitStringRef, AttributesRef>();
    copied_keys_are_the_same::<AnyRef, OctetStringRef, BitStringRef, AttributesRef>();
    copied_errors_are_the_same();
}
