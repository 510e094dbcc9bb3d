use crate::checks::{good, same, same_text};
use der_small::ObjectIdentifier;
use spki::Error;

#[test]
fn texts_of_errors(rt: HostRuntime) {
    let oid = good(&rt, "an identifier", ObjectIdentifier::new("1.2.3"));
    let rows = [
        (
            Error::AlgorithmParametersMissing,
            "AlgorithmIdentifier parameters missing",
        ),
        (
            Error::Asn1(der_small::Error::Malformed),
            "ASN.1 error: malformed",
        ),
        (Error::KeyMalformed, "SPKI cryptographic key data malformed"),
        (
            Error::OidUnknown { oid },
            "unknown/unsupported algorithm OID: 1.2.3",
        ),
        (Error::OutOfMemory, "out of memory"),
    ];
    for (error, text) in rows {
        let shown = good(&rt, "memory", format!(in rt.alloc(); "{error}"));
        same_text(&rt, "a text", shown.as_str(), text);
    }
}

#[test]
fn errors_of_der(rt: HostRuntime) {
    let oid = good(&rt, "an identifier", ObjectIdentifier::new("1.2.3"));
    let rows = [
        (
            der_small::Error::OidUnknown { oid },
            Error::OidUnknown { oid },
        ),
        (der_small::Error::OutOfMemory, Error::OutOfMemory),
        (
            der_small::Error::OidMalformed,
            Error::Asn1(der_small::Error::OidMalformed),
        ),
    ];
    for (error, wanted) in rows {
        same(&rt, "an error", &Error::from(error), &wanted);
    }
}
