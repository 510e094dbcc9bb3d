use crate::checks::{good, same, same_bytes, same_text};
use der_small::{
    AnyRef, BitString, BitStringRef, Decode, DerOrd, Encode, ObjectIdentifier, Tag, ValueOrd,
};
use spki::{
    AlgorithmIdentifier, AlgorithmIdentifierOwned, AlgorithmIdentifierRef,
    AlgorithmIdentifierWithOid, AsAlgorithmIdentifierRef, AssociatedAlgorithmIdentifier,
    DynAssociatedAlgorithmIdentifier, DynSignatureAlgorithmIdentifier, Error,
    SignatureAlgorithmIdentifier, SignatureBitStringEncoding,
};
use std::alloc::Global;
use std::cmp::Ordering;
use std::process::Abort;

// id-ecPublicKey with secp256r1 (RFC 5480, section 2.1.1), by `openssl pkey -pubout`.
const P256: [u8; 21] = [
    0x30, 0x13, 0x06, 0x07, 0x2a, 0x86, 0x48, 0xce, 0x3d, 0x02, 0x01, 0x06, 0x08, 0x2a, 0x86, 0x48,
    0xce, 0x3d, 0x03, 0x01, 0x07,
];

// id-Ed25519 (RFC 8410, section 3), and the same with NULL parameters.
const ED25519: [u8; 7] = [0x30, 0x05, 0x06, 0x03, 0x2b, 0x65, 0x70];

const WITH_NULL: [u8; 9] = [0x30, 0x07, 0x06, 0x03, 0x2b, 0x65, 0x70, 0x05, 0x00];

fn known_oid(rt: &impl Abort, text: &str) -> ObjectIdentifier {
    good(rt, "an identifier", ObjectIdentifier::new(text))
}

fn identifier<'a>(rt: &impl Abort, document: &'a [u8]) -> AlgorithmIdentifierRef<'a> {
    good(
        rt,
        "an algorithm",
        AlgorithmIdentifierRef::from_der(document),
    )
}

#[test]
fn parameters_of_identifiers(rt: HostRuntime) {
    let ec = known_oid(&rt, "1.2.840.10045.2.1");
    let curve = known_oid(&rt, "1.2.840.10045.3.1.7");
    let id = identifier(&rt, &P256);
    same(&rt, "oids", &id.oids(), &Ok((ec, Some(curve))));
    same(&rt, "parameters_oid", &id.parameters_oid(), &Ok(curve));
    let no_algorithm = Err(Error::OidUnknown { oid: ec });
    let no_parameters = Err(Error::OidUnknown { oid: curve });
    for (oid, algorithm, parameters) in [
        (ec, Ok(ec), no_parameters),
        (curve, no_algorithm, Ok(curve)),
    ] {
        same(&rt, "algorithm", &id.assert_algorithm_oid(oid), &algorithm);
        same(
            &rt,
            "parameters",
            &id.assert_parameters_oid(oid),
            &parameters,
        );
    }
}

#[test]
fn both_oids_of_identifiers(rt: HostRuntime) {
    let ec = known_oid(&rt, "1.2.840.10045.2.1");
    let curve = known_oid(&rt, "1.2.840.10045.3.1.7");
    let ed25519 = known_oid(&rt, "1.3.101.112");
    let id = identifier(&rt, &P256);
    let rows = [
        (ec, curve, Ok(())),
        (ed25519, ed25519, Err(Error::OidUnknown { oid: ec })),
        (ec, ed25519, Err(Error::OidUnknown { oid: curve })),
    ];
    for (algorithm, parameters, wanted) in rows {
        same(&rt, "oids", &id.assert_oids(algorithm, parameters), &wanted);
    }
}

#[test]
fn absent_and_null_parameters(rt: HostRuntime) {
    let ed25519 = known_oid(&rt, "1.3.101.112");
    let unexpected = der_small::Error::TagUnexpected {
        expected: Tag::from_valid(Tag::OID),
        actual: Tag::from_valid(Tag::NULL),
    };
    let missing = Error::AlgorithmParametersMissing;
    let rows = [
        (ED25519.as_slice(), Err(missing), missing),
        (WITH_NULL.as_slice(), Ok(true), Error::Asn1(unexpected)),
    ];
    for (document, is_null, refusal) in rows {
        let id = identifier(&rt, document);
        same(&rt, "oids", &id.oids(), &Ok((ed25519, None)));
        same(
            &rt,
            "any",
            &id.parameters_any().map(|p| p.is_null()),
            &is_null,
        );
        same(&rt, "oid", &id.parameters_oid(), &Err(refusal));
    }
    assert!(rt; identifier(&rt, &WITH_NULL) != identifier(&rt, &ED25519));
}

#[test]
fn parameters_of_another_type(rt: HostRuntime) {
    let curve = known_oid(&rt, "1.2.840.10045.3.1.7");
    let known = good(
        &rt,
        "an algorithm",
        AlgorithmIdentifierWithOid::from_der(&P256),
    );
    same(&rt, "parameters", &known.parameters, &Some(curve));
    let written = good(&rt, "memory", known.to_der(rt.alloc()));
    same_bytes(&rt, "written", written.as_slice(), P256.as_slice());
}

#[test]
fn forms_of_identifiers(rt: HostRuntime) {
    let id = identifier(&rt, &P256);
    let owned = good(&rt, "memory", id.ref_to_owned(rt.alloc()));
    let read = good(
        &rt,
        "an algorithm",
        AlgorithmIdentifierOwned::from_der(rt.alloc(), &P256),
    );
    assert!(rt; read == owned);
    same(&rt, "owned_to_ref", &owned.owned_to_ref(), &id);
    same(&rt, "as_algo_ref", &owned.as_algo_ref(), &id.as_algo_ref());
    let written = good(&rt, "memory", owned.to_der(rt.alloc()));
    same_bytes(&rt, "written", written.as_slice(), P256.as_slice());
}

// An absent parameter stands before a present one, and a shorter content before a longer one.
#[test]
fn orders_of_identifiers(rt: HostRuntime) {
    let id = identifier(&rt, &P256);
    let none = identifier(&rt, &ED25519);
    let null = identifier(&rt, &WITH_NULL);
    same(&rt, "absent", &none.value_cmp(&null), &Ok(Ordering::Less));
    same(&rt, "the same", &null.der_cmp(&null), &Ok(Ordering::Equal));
    same(&rt, "longer", &id.value_cmp(&none), &Ok(Ordering::Greater));
    same(&rt, "cmp", &id.cmp(&none), &Ordering::Less);
}

// As Rust derives it: the name of the type, and its fields in order.
#[test]
fn debug_forms(rt: HostRuntime) {
    let null = identifier(&rt, &WITH_NULL);
    let parameters = null.parameters;
    let shown = good(&rt, "memory", format!(in rt.alloc(); "{parameters:?}"));
    same_text(
        &rt,
        "a text",
        shown.as_str(),
        "Some(AnyRef { tag: Tag { byte: 5 }, value: [] })",
    );
    let shown = good(&rt, "memory", format!(in rt.alloc(); "{null:?}"));
    assert!(rt; shown.as_str().starts_with("AlgorithmIdentifier { oid: "));
    assert!(rt;
        shown.as_str().ends_with(", parameters: Some(AnyRef { tag: Tag { byte: 5 }, value: [] }) }")
    );
}

ghost use Rattle.std.specs.Prelude.{◌≡◌, [], ◌∷◌, Some, Ok, IsSome, IfSome};
ghost use Rattle.der_core.specs.Der.{encode};
ghost use Rattle.der_core.specs.Oid.{IsOidContent};
ghost use Rattle.der_core.specs.ObjectIdentifier.{oid_content};

/// The identifier of a content that is known to be one.
pub(super) fn known(content: &[u8]) -> ObjectIdentifier
    requires { IsOidContent content.now }
    ensures { oid_content result ≡ content.now }
{
    ObjectIdentifier::from_bytes(content).unwrap()
}

/// The identifier of keys on P-256.
fn p256() -> AlgorithmIdentifierWithOid
    ensures oid { oid_content result.oid ≡ 42 ∷ 134 ∷ 72 ∷ 206 ∷ 61 ∷ 2 ∷ 1 ∷ [] }
    ensures curve { IfSome result.parameters (λ o. oid_content o ≡ 42 ∷ 134 ∷ 72 ∷ 206 ∷ 61 ∷ 3 ∷ 1 ∷ 7 ∷ []) }
    ensures some { IsSome result.parameters }
{
    AlgorithmIdentifier {
        oid: known(&[42, 134, 72, 206, 61, 2, 1]),
        parameters: Some(known(&[42, 134, 72, 206, 61, 3, 1, 7])),
    }
}

/// A key, or a signature, on P-256.
struct OnCurve;

impl AssociatedAlgorithmIdentifier for OnCurve {
    type Params = ObjectIdentifier;

    ghost algorithm = { record { oid = 42 ∷ 134 ∷ 72 ∷ 206 ∷ 61 ∷ 2 ∷ 1 ∷ []; parameters = Some (encode 6 (42 ∷ 134 ∷ 72 ∷ 206 ∷ 61 ∷ 3 ∷ 1 ∷ 7 ∷ [])) } };

    fn associated_algorithm_identifier() -> AlgorithmIdentifier<ObjectIdentifier> {
        p256()
    }
}

impl SignatureAlgorithmIdentifier for OnCurve {
    type Params = ObjectIdentifier;

    ghost algorithm = { record { oid = 42 ∷ 134 ∷ 72 ∷ 206 ∷ 61 ∷ 2 ∷ 1 ∷ []; parameters = Some (encode 6 (42 ∷ 134 ∷ 72 ∷ 206 ∷ 61 ∷ 3 ∷ 1 ∷ 7 ∷ [])) } };

    fn associated_signature_algorithm_identifier() -> AlgorithmIdentifier<ObjectIdentifier> {
        p256()
    }
}

impl SignatureBitStringEncoding for OnCurve {
    ghost bits = { λ _. Ok (record { unused_bits = 0; octets = 170 ∷ [] }) };

    fn to_bitstring(&self, alloc: Global) -> der_small::Result<BitString> {
        BitStringRef::new(0, &[170])?.ref_to_owned(alloc)
    }
}

#[test]
fn identifiers_of_a_type(rt: HostRuntime) {
    let alloc = rt.alloc();
    let wanted = good(
        &rt,
        "an algorithm",
        AlgorithmIdentifierOwned::from_der(alloc, &P256),
    );
    let of_key = good(&rt, "memory", OnCurve.algorithm_identifier(alloc));
    same(&rt, "of a key", &of_key, &wanted);
    let of_signature = good(&rt, "memory", OnCurve.signature_algorithm_identifier(alloc));
    same(&rt, "of a signature", &of_signature, &wanted);
}

#[test]
fn bits_of_a_signature(rt: HostRuntime) {
    let bits = good(&rt, "memory", OnCurve.to_bitstring(rt.alloc()));
    let written = good(&rt, "memory", bits.to_der(rt.alloc()));
    same_bytes(
        &rt,
        "written",
        written.as_slice(),
        [3, 2, 0, 170].as_slice(),
    );
}
