use crate::checks::{good, same, same_bytes, same_text};
use der_small::{Decode, Encode};
use pkcs8::{Error, KeyError, Version};

#[test]
fn versions(rt: HostRuntime) {
    let refused = Error::Asn1(der_small::Error::Malformed);
    let rows = [
        (0, Ok(Version::V1)),
        (1, Ok(Version::V2)),
        (2, Err(refused)),
    ];
    for (number, version) in rows {
        same(&rt, "a number", &Version::try_from(number), &version);
    }
    same(&rt, "a version", &u8::from(Version::V2), &1);
    assert!(rt; Version::V2.has_public_key());
    assert!(rt; !Version::V1.has_public_key());
}

#[test]
fn versions_in_documents(rt: HostRuntime) {
    let refused = Err(der_small::Error::Malformed);
    for (octet, version) in [(1, Ok(Version::V2)), (2, refused)] {
        same(
            &rt,
            "an octet",
            &Version::from_der(&[2, 1, octet]),
            &version,
        );
    }
    let written = good(&rt, "memory", Version::V1.to_der(rt.alloc()));
    same_bytes(&rt, "written", written.as_slice(), [2, 1, 0].as_slice());
    let shown = good(&rt, "memory", format!(in rt.alloc(); "{:?}", Version::V2));
    same_text(&rt, "a text", shown.as_str(), "V2");
}

#[test]
fn texts_of_errors(rt: HostRuntime) {
    let malformed = der_small::Error::Malformed;
    let rows = [
        (Error::Asn1(malformed), "PKCS#8 ASN.1 error: malformed"),
        (
            Error::from(KeyError::Invalid),
            "PKCS#8 key malformed: key invalid",
        ),
        (
            Error::from(KeyError::TooShort),
            "PKCS#8 key malformed: key too short",
        ),
        (
            Error::from(KeyError::TooLong),
            "PKCS#8 key malformed: key too long",
        ),
        (
            Error::ParametersMalformed,
            "PKCS#8 algorithm parameters malformed",
        ),
        (
            Error::from(spki::Error::KeyMalformed),
            "public key error: SPKI cryptographic key data malformed",
        ),
        (Error::OutOfMemory, "out of memory"),
    ];
    for (error, text) in rows {
        let shown = good(&rt, "memory", format!(in rt.alloc(); "{error}"));
        same_text(&rt, "a text", shown.as_str(), text);
    }
}

#[test]
fn errors_of_other_crates(rt: HostRuntime) {
    let nested = spki::Error::Asn1(der_small::Error::OutOfMemory);
    let of_der = Error::from(der_small::Error::OutOfMemory);
    same(&rt, "of DER", &of_der, &Error::OutOfMemory);
    for error in [nested, spki::Error::OutOfMemory] {
        same(&rt, "of spki", &Error::from(error), &Error::OutOfMemory);
    }
}

#[test]
fn errors_as_those_of_public_keys(rt: HostRuntime) {
    let malformed = der_small::Error::Malformed;
    let nested = spki::Error::Asn1(der_small::Error::OutOfMemory);
    let rows = [
        (Error::Asn1(malformed), spki::Error::Asn1(malformed)),
        (Error::PublicKey(nested), spki::Error::OutOfMemory),
        (
            Error::KeyMalformed(KeyError::Invalid),
            spki::Error::KeyMalformed,
        ),
        (Error::ParametersMalformed, spki::Error::KeyMalformed),
        (Error::OutOfMemory, spki::Error::OutOfMemory),
    ];
    for (error, wanted) in rows {
        same(&rt, "an error", &spki::Error::from(error), &wanted);
    }
}
