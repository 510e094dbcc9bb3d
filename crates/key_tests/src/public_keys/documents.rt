use crate::checks::{good, same, same_bytes, same_text};
use base64ct::{Base64, Encoding};
use der_small::{
    AnyRef, BitStringRef, Decode, DerOrd, Encode, FixedTag, ObjectIdentifier, Tag, ValueOrd,
};
use sha2::{Digest, Sha256};
use spki::laws::{
    copied_errors_are_the_same, copied_identifiers_are_the_same, copied_public_keys_are_the_same,
    equal_identifiers_are_the_same, equal_keys_have_one_fingerprint,
    equal_parts_have_one_fingerprint, equal_public_keys_are_the_same,
    identifiers_are_ordered_by_oid_first, identifiers_hash_both_parts,
    parameters_oid_is_second_of_oids, public_keys_are_compared_in_both_parts,
    read_keys_are_written_again, same_parts_are_equal,
};
use spki::{
    AlgorithmIdentifierRef, DecodePublicKey, DigestWriter, EncodePublicKey, Error,
    SubjectPublicKeyInfo, SubjectPublicKeyInfoOwned, SubjectPublicKeyInfoRef,
};
use std::alloc::Global;
use std::cmp::Ordering;
use std::hash::{DefaultHasher, Hash, Hasher};
use std::process::Abort;

pub(super) fn decoded(rt: &impl Abort, alloc: Global, text: &str) -> Vec<u8> {
    good(rt, "bytes", Base64::decode_vec(alloc, text))
}

fn read<'a>(rt: &impl Abort, document: &'a [u8]) -> SubjectPublicKeyInfoRef<'a> {
    good(rt, "a key", SubjectPublicKeyInfoRef::from_der(document))
}

/// Each way to write the key gives the document.
fn check_written<Params: Encode, Key: Encode>(
    rt: &impl Abort,
    alloc: Global,
    key: &SubjectPublicKeyInfo<Params, Key>,
    document: &[u8],
) {
    let written = good(rt, "memory", key.to_der(alloc));
    same_bytes(rt, "written", written.as_slice(), document);
    let written = good(rt, "memory", key.to_document(alloc));
    same_bytes(rt, "written", written.as_bytes(), document);
}

/// Each way to the key's fingerprint gives it.
fn check_fingerprint<Params: Encode, Key: Encode>(
    rt: &impl Abort,
    alloc: Global,
    key: &SubjectPublicKeyInfo<Params, Key>,
    fingerprint: &str,
) {
    let text = good(rt, "memory", key.fingerprint_base64(alloc));
    same_text(rt, "a text", text.as_str(), fingerprint);
    let mut hasher = Sha256::new();
    good(rt, "a digest", key.encode(&mut DigestWriter(&mut hasher)));
    assert!(rt; key.fingerprint_bytes() == Ok(hasher.finalize()));
}

/// The owned form of the key is the same key, and is read from the document and made from either form.
fn check_owned(rt: &impl Abort, alloc: Global, key: &SubjectPublicKeyInfoRef<'_>, document: &[u8]) {
    let owned = good(rt, "memory", key.ref_to_owned(alloc));
    assert!(rt; owned.owned_to_ref() == *key);
    assert!(rt; owned.fingerprint_bytes() == key.fingerprint_bytes());
    assert!(rt;
        SubjectPublicKeyInfoOwned::from_der(alloc, document).is_ok_and(|read| read == owned)
    );
    assert!(rt;
        SubjectPublicKeyInfoOwned::from_public_key_der(alloc, document).is_ok_and(|read| read
            == owned)
    );
}

/// The key traits of both forms go by the document.
fn check_traits(
    rt: &impl Abort,
    alloc: Global,
    key: &SubjectPublicKeyInfoRef<'_>,
    document: &[u8],
) {
    let written = good(rt, "memory", key.to_public_key_der(alloc));
    same_bytes(rt, "written", written.as_bytes(), document);
    let made = good(rt, "a key", SubjectPublicKeyInfoOwned::from_key(alloc, key));
    assert!(rt; SubjectPublicKeyInfoOwned::from_key(alloc, &made).is_ok_and(|again| again == made));
    let written = good(rt, "memory", made.to_public_key_der(alloc));
    same_bytes(rt, "written", written.as_bytes(), document);
}

// An Ed25519 key (RFC 8410, section 4), whose fingerprint is `openssl dgst -sha256 -binary | base64` of it.
pub(super) const ED25519: &str = "MCowBQYDK2VwAyEATSkWfz8ZEqb3rfopOgUaFcBexnuPFyZ7HFVQ3OhTvQ0=";

pub(super) const FINGERPRINT: &str = "Vd1MdLDkhTTi9OFzzs61DfjyenrCqomRzHrpFOAwvO0=";

// A key on P-256 (RFC 5480, section 2), and its digest by the same call.
pub(super) const ON_P256: &str =
    "MFkwEwYHKoZIzj0CAQYIKoZIzj0DAQcDQgAEHKz/tV8vLO/YnYnrN0smgRUkUoAt7qCZFgaBN9g5z3/EgaREkjBNfvZqwRe+/oOo0I8VXytS+fYY3URwKQSODw==";

const P256_FINGERPRINT: &str = "uZaNVu2NaqP7Q7FfoB41XXo6AgOxQIs/0nM2N8TRZCw=";

// Keys by `openssl genpkey -algorithm ed25519`, `-algorithm EC -pkeyopt ec_paramgen_curve:P-256` and
// `-algorithm RSA -pkeyopt rsa_keygen_bits:2048`, each by `openssl pkey -pubout -outform DER | base64`, and
// their digests by `openssl dgst -sha256 -binary | base64`.
#[test]
fn keys_in_all_their_forms(rt: HostRuntime) {
    let rows = [
        (ED25519, FINGERPRINT),
        (ON_P256, P256_FINGERPRINT),
        (
            "MCowBQYDK2VwAyEAQI0rO0ut7KTkLDQKE+l9XalTNJ47t+7Kmh1Yf3NopXQ=",
            "PT+7WKtGhKertdgETIxXiiYgZg0yz8wwJGtvyhd4YIU=",
        ),
        (
            "MFkwEwYHKoZIzj0CAQYIKoZIzj0DAQcDQgAEnQewH5hVesrHuk1WeeWi0PnZfs8HPwG83FxDdOIgQEjDN84qJAJ6RBXCk65X+gc45kM6wTNuNZetySBKCVy/3g==",
            "aQGz2X+nW1aTUSzBMXhwPqM4FLIOiwat2+v5vj7QqB0=",
        ),
        (
            "MIIBIjANBgkqhkiG9w0BAQEFAAOCAQ8AMIIBCgKCAQEAsF3CeUfnbZzaU3ZtqcfdgqGAIzH4vc9Ajh+85D4NLwCYAENFIGR8N\
             ozzWDqZYl3ABo8k73U5YAS0x4sLqAjwHvBOWJ6lmskSOKt8/zGKtBIdVpnfy+NSK0dDEfZaoQ1lhrMx2KGEtTQXzm6IMZLD1o\
             9/mNAelTukXDfuCN1C5+ZWS/R2dh8lZZC6XzXwwE3ik9IJGz7yhSkpPqppwN6fO5c+GJVbml3d3Uqp2MJu4Lv2MH82KdgEEkz\
             CBg5Z721pZv8/cLMeUCvp4XUG940AhwMFgh2prREc8Hjxa2Z8hejzclTQG0gcf73ntuaJ4PJjmSeungtgbBphisSKIMohKQID\
             AQAB",
            "BwOpJMTIR+sqkGfd1bU+db8Q01VfI5h33qqACPe6h1E=",
        ),
    ];
    for (text, fingerprint) in rows {
        let document = decoded(&rt, rt.alloc(), text);
        let key = read(&rt, &document);
        check_written(&rt, rt.alloc(), &key, &document);
        check_fingerprint(&rt, rt.alloc(), &key, fingerprint);
        check_owned(&rt, rt.alloc(), &key, &document);
        check_traits(&rt, rt.alloc(), &key, &document);
    }
}

// The key on P-256 over parameters that are an object identifier.
#[test]
fn a_key_on_a_named_curve(rt: HostRuntime) {
    let document = decoded(&rt, rt.alloc(), ON_P256);
    let key = good(
        &rt,
        "a key",
        SubjectPublicKeyInfo::<ObjectIdentifier, BitStringRef>::from_der(&document),
    );
    let curve = good(
        &rt,
        "an identifier",
        ObjectIdentifier::new("1.2.840.10045.3.1.7"),
    );
    same(&rt, "parameters", &key.algorithm.parameters, &Some(curve));
    check_written(&rt, rt.alloc(), &key, &document);
    check_fingerprint(&rt, rt.alloc(), &key, P256_FINGERPRINT);
}

fn hash_of<T: Hash>(value: &T) -> u64 {
    let mut state = DefaultHasher::new();
    value.hash(&mut state);
    state.finish()
}

#[test]
fn parts_and_orders(rt: HostRuntime) {
    let document = decoded(&rt, rt.alloc(), ON_P256);
    let key = read(&rt, &document);
    same(
        &rt,
        "unused bits",
        &key.subject_public_key.unused_bits(),
        &0,
    );
    assert!(rt; Some(key.subject_public_key.raw_bytes()) == document.get(26..));
    same(&rt, "value_cmp", &key.value_cmp(&key), &Ok(Ordering::Equal));
    same(&rt, "der_cmp", &key.der_cmp(&key), &Ok(Ordering::Equal));
}

#[test]
fn hashes(rt: HostRuntime) {
    let document = decoded(&rt, rt.alloc(), ON_P256);
    let key = read(&rt, &document);
    let owned = good(&rt, "memory", key.ref_to_owned(rt.alloc()));
    same(&rt, "key", &hash_of(&key), &hash_of(&owned.owned_to_ref()));
    let algorithm = owned.algorithm.owned_to_ref();
    same(
        &rt,
        "algorithm",
        &hash_of(&key.algorithm),
        &hash_of(&algorithm),
    );
}

#[test]
fn tags(rt: HostRuntime) {
    for tag in [
        SubjectPublicKeyInfoRef::tag_byte(),
        AlgorithmIdentifierRef::tag_byte(),
        SubjectPublicKeyInfoRef::TAG,
        AlgorithmIdentifierRef::TAG,
    ] {
        same(&rt, "a tag", &tag, &Tag::SEQUENCE);
    }
}

#[test]
fn laws(_rt: HostRuntime) {
    read_keys_are_written_again::<AnyRef, BitStringRef>();
    parameters_oid_is_second_of_oids();
    equal_keys_have_one_fingerprint();
    equal_parts_have_one_fingerprint::<AnyRef, BitStringRef>();
    same_parts_are_equal();
    equal_identifiers_are_the_same();
    equal_public_keys_are_the_same();
    identifiers_are_ordered_by_oid_first::<AnyRef>();
    identifiers_hash_both_parts::<AnyRef>();
    public_keys_are_compared_in_both_parts::<AnyRef, BitStringRef>();
    copied_identifiers_are_the_same::<AnyRef>();
    copied_public_keys_are_the_same::<AnyRef, BitStringRef>();
    copied_errors_are_the_same();
}

/// An RSA key of 2,048 bits (RFC 8017, appendix A.1.1) whose content is 270 bytes `11`.
fn rsa_document(rt: &impl Abort, alloc: Global) -> Vec<u8> {
    let front: [u8; 24] = [
        0x30, 0x82, 0x01, 0x22, 0x30, 0x0d, 0x06, 0x09, 0x2a, 0x86, 0x48, 0x86, 0xf7, 0x0d, 0x01,
        0x01, 0x01, 0x05, 0x00, 0x03, 0x82, 0x01, 0x0f, 0x00,
    ];
    let mut bytes = good(rt, "memory", Vec::from_slice(alloc, &front));
    for _ in 0..270 {
        bytes.push(0x11).expect(rt, "memory");
    }
    bytes
}

#[test]
fn an_rsa_key(rt: HostRuntime) {
    let bytes = rsa_document(&rt, rt.alloc());
    let key = read(&rt, &bytes);
    let oid = good(
        &rt,
        "an identifier",
        ObjectIdentifier::new("1.2.840.113549.1.1.1"),
    );
    same(&rt, "algorithm", &key.algorithm.oid, &oid);
    assert!(rt;
        key.algorithm
            .parameters
            .is_some_and(|parameters| parameters.is_null())
    );
    same(
        &rt,
        "length",
        &key.subject_public_key.raw_bytes().len(),
        &270,
    );
}

/// The borrowed form, the owned form and the key trait refuse the bytes with this.
fn check_refused(rt: &impl Abort, alloc: Global, bytes: &[u8], error: der_small::Error) {
    let borrowed = SubjectPublicKeyInfoRef::from_der(bytes).err();
    same(rt, "borrowed", &borrowed, &Some(error));
    let owned = SubjectPublicKeyInfoOwned::from_der(alloc, bytes).err();
    same(rt, "owned", &owned, &Some(error));
    let by_trait = SubjectPublicKeyInfoOwned::from_public_key_der(alloc, bytes).err();
    same(rt, "by the trait", &by_trait, &Some(Error::Asn1(error)));
}

// A byte after the document.
#[test]
fn a_document_before_a_byte(rt: HostRuntime) {
    let mut bytes = rsa_document(&rt, rt.alloc());
    bytes.push(0).expect(&rt, "memory");
    let trailing = der_small::Error::TrailingData {
        decoded: 294,
        remaining: 1,
    };
    check_refused(&rt, rt.alloc(), &bytes, trailing);
}

// A document that ends too early, and one with a length of another form.
#[test]
fn refused_documents(rt: HostRuntime) {
    let mut bytes = rsa_document(&rt, rt.alloc());
    let malformed = der_small::Error::Malformed;
    check_refused(&rt, rt.alloc(), &bytes[..bytes.len().min(293)], malformed);
    *bytes.get_mut(1).expect(&rt, "a length") = 0x81;
    check_refused(&rt, rt.alloc(), &bytes, malformed);
}

/// A key whose parameters and bits are these octets.
fn key_of<'a>(rt: &impl Abort, octets: &'a [u8]) -> SubjectPublicKeyInfoRef<'a> {
    let parameters = AnyRef::new(Tag::from_valid(Tag::OCTET_STRING), octets);
    SubjectPublicKeyInfoRef {
        algorithm: AlgorithmIdentifierRef {
            oid: good(rt, "an identifier", ObjectIdentifier::new("1.3.101.112")),
            parameters: Some(good(rt, "parameters", parameters)),
        },
        subject_public_key: good(rt, "bits", BitStringRef::new(0, octets)),
    }
}

// Parameters and a key of 65,536 bytes, which are taken whole by each call that takes memory. Each length from
// 65,536 on takes four bytes (X.690, section 8.1.3).
#[test]
fn a_large_key(rt: HostRuntime) {
    let octets = good(&rt, "memory", vec![in rt.alloc(); 7u8; 65536]);
    let key = key_of(&rt, &octets);
    let document = good(&rt, "memory", key.to_document(rt.alloc()));
    same(&rt, "length", &document.as_bytes().len(), &131098);
    check_owned(&rt, rt.alloc(), &key, document.as_bytes());
    check_traits(&rt, rt.alloc(), &key, document.as_bytes());
}
