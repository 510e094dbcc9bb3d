//! Updates that are made of parts. The keys are RFC 8410's, made by OpenSSL; the documents and the texts are put
//! together from the grammar by a few lines of Python.
use crate::checks::{good, same};
use identity_update::{BundleParts, EntryParts, Update, UpdateError};
use pkcs8::PrivateKeyInfoOwned;
use spiffe_bundle::JwtBundleError;
use spiffe_id::{SpiffeId, TrustDomain};
use spiffe_json::JsonError;
use spki::SubjectPublicKeyInfoOwned;
use std::alloc::Global;
use std::process::Abort;

const PLAIN: &[u8] =
    b"\x30\x2e\x02\x01\x00\x30\x05\x06\x03\x2b\x65\x70\x04\x22\x04\x20\x11\x11\x11\x11\x11\x11\x11\x11\x11\x11\x11\x11\x11\x11\x11\x11\x11\
         \x11\x11\x11\x11\x11\x11\x11\x11\x11\x11\x11\x11\x11\x11\x11";

const WITH_ATTRIBUTES: &[u8] =
    b"\x30\x30\x02\x01\x00\x30\x05\x06\x03\x2b\x65\x70\x04\x22\x04\x20\x11\x11\x11\x11\x11\x11\x11\x11\x11\x11\x11\x11\x11\x11\x11\x11\x11\
         \x11\x11\x11\x11\x11\x11\x11\x11\x11\x11\x11\x11\x11\x11\x11\xa0\x00";

// The same with the parameters NULL, and with another public key.
const OTHER_ALGORITHM: &[u8] =
    b"\x30\x30\x02\x01\x00\x30\x07\x06\x03\x2b\x65\x70\x05\x00\x04\x22\x04\x20\x11\x11\x11\x11\x11\x11\x11\x11\x11\x11\x11\x11\x11\x11\x11\
         \x11\x11\x11\x11\x11\x11\x11\x11\x11\x11\x11\x11\x11\x11\x11\x11\x11";

const OTHER_PUBLIC_KEY: &[u8] =
    b"\x30\x51\x02\x01\x01\x30\x05\x06\x03\x2b\x65\x70\x04\x22\x04\x20\x11\x11\x11\x11\x11\x11\x11\x11\x11\x11\x11\x11\x11\x11\x11\x11\x11\
         \x11\x11\x11\x11\x11\x11\x11\x11\x11\x11\x11\x11\x11\x11\x11\x81\x21\x00\x4d\x29\x16\x7f\x3f\x19\x12\xa6\xf7\xad\xfa\x29\x3a\x05\
         \x1a\x15\xc0\x5e\xc6\x7b\x8f\x17\x26\x7b\x1c\x55\x50\xdc\xe8\x53\xbd\x0c";

const PUBLIC_KEY: &[u8] =
    b"\x30\x2a\x30\x05\x06\x03\x2b\x65\x70\x03\x21\x00\x4d\x29\x16\x7f\x3f\x19\x12\xa6\xf7\xad\xfa\x29\x3a\x05\x1a\x15\xc0\x5e\xc6\x7b\x8f\
         \x17\x26\x7b\x1c\x55\x50\xdc\xe8\x53\xbd\x0d";

const KEY_SET: &[u8] = b"{\"keys\":[]}";

// An update of one entry and one bundle, the same with attributes, and one that withdraws.
const ONE_ENTRY: &[u8] =
    b"MIGWMHYwdAwWc3BpZmZlOi8vZXhhbXBsZS5vcmcvYTAuAgEAMAUGAytlcAQiBCAR\nERERERERERERERERERERERERERERERERERERERERETAqMAUGAytlcAMhAE0pFn8/\nGR\
         Km9636KToFGhXAXsZ7jxcmexxVUNzoU70NMBwwGgwLZXhhbXBsZS5vcmcEC3si\na2V5cyI6W119";

const ONE_WITH_ATTRIBUTES: &[u8] =
    b"MIGYMHgwdgwWc3BpZmZlOi8vZXhhbXBsZS5vcmcvYTAwAgEAMAUGAytlcAQiBCAREREREREREREREREREREREREREREREREREREREREREaAAMCowBQYDK2VwAyEATSkWfz8ZEq\
         b3rfopOgUaFcBexnuPFyZ7HFVQ3OhTvQ0wHDAaDAtleGFtcGxlLm9yZwQLeyJrZXlzIjpbXX0=";

const WITHDRAWN: &[u8] = b"MCYwADAcMBoMC2V4YW1wbGUub3JnBAt7ImtleXMiOltdfYAEZ29uZQ==";

fn entry(rt: &impl Abort, alloc: Global, id: &str, private_key: &[u8]) -> EntryParts {
    EntryParts {
        id: good(rt, "an id", SpiffeId::new(alloc, id)),
        private_key: good(
            rt,
            "a key",
            PrivateKeyInfoOwned::from_der(alloc, private_key),
        ),
        public_key: good(
            rt,
            "a key",
            SubjectPublicKeyInfoOwned::from_der(alloc, PUBLIC_KEY),
        ),
    }
}

fn one_bundle(rt: &impl Abort, alloc: Global, domain: &str, jwks: &[u8]) -> Vec<BundleParts> {
    let bundle = BundleParts {
        trust_domain: good(rt, "a trust domain", TrustDomain::new(alloc, domain)),
        jwks: good(rt, "memory", Vec::from_slice(alloc, jwks)),
    };
    let mut bundles = Vec::new(alloc);
    good(rt, "memory", bundles.push(bundle));
    bundles
}

// An update of one entry and one bundle.
fn one_entry(
    rt: &impl Abort,
    alloc: Global,
    id: &str,
    private_key: &[u8],
    jwks: &[u8],
) -> Result<Update, UpdateError> {
    let mut entries = Vec::new(alloc);
    good(
        rt,
        "memory",
        entries.push(entry(rt, alloc, id, private_key)),
    );
    let bundles = one_bundle(rt, alloc, "Example.ORG", jwks);
    Update::from_parts(alloc, entries, bundles)
}

fn read(rt: &impl Abort, alloc: Global, text: &[u8], width: usize) -> Update {
    good(rt, "an update", Update::read(alloc, text, width))
}

#[test]
fn parts_make_the_update_that_is_read(rt: HostRuntime) {
    let alloc = rt.alloc();
    for (id, private_key, text, width) in [
        ("spiffe://example.org/a", PLAIN, ONE_ENTRY, 64),
        ("SPIFFE://Example.ORG/a", PLAIN, ONE_ENTRY, 64),
        (
            "spiffe://example.org/a",
            WITH_ATTRIBUTES,
            ONE_WITH_ATTRIBUTES,
            300,
        ),
    ] {
        let made = one_entry(&rt, alloc, id, private_key, KEY_SET);
        let update = good(&rt, "an update", made);
        assert!(rt; update == read(&rt, alloc, text, width));
        same(&rt, "domains", &update.bundle_set().len(), &1);
        assert!(rt; update.reason().is_none());
    }
}

#[test]
fn first_rules_that_parts_break_are_named(rt: HostRuntime) {
    let alloc = rt.alloc();
    for (id, private_key, jwks, refusal) in [
        (
            "spiffe://example.org/a",
            OTHER_ALGORITHM,
            b"{".as_slice(),
            UpdateError::AlgorithmMismatch { entry: 0 },
        ),
        (
            "spiffe://other.test/a",
            OTHER_PUBLIC_KEY,
            KEY_SET,
            UpdateError::PublicKeyMismatch { entry: 0 },
        ),
        (
            "spiffe://other.test/a",
            PLAIN,
            b"{",
            UpdateError::Authorities {
                bundle: 0,
                cause: JwtBundleError::Deserialize(JsonError::Syntax),
            },
        ),
        (
            "spiffe://other.test/a",
            PLAIN,
            KEY_SET,
            UpdateError::MissingBundle { entry: 0 },
        ),
    ] {
        let made = one_entry(&rt, alloc, id, private_key, jwks);
        same(&rt, id, &made.err(), &Some(refusal));
    }
    let none = Update::from_parts(alloc, Vec::new(alloc), Vec::new(alloc));
    same(
        &rt,
        "no parts",
        &none.err(),
        &Some(UpdateError::MissingRequiredField),
    );
}

#[test]
fn withdrawals_are_made(rt: HostRuntime) {
    let alloc = rt.alloc();
    let bundles = one_bundle(&rt, alloc, "example.org", KEY_SET);
    let gone = good(
        &rt,
        "a withdrawal",
        Update::withdrawal(alloc, "gone", bundles),
    );
    assert!(rt; gone == read(&rt, alloc, WITHDRAWN, 56));
    let broken = one_bundle(&rt, alloc, "example.org", b"{");
    let refusal = UpdateError::Authorities {
        bundle: 0,
        cause: JwtBundleError::Deserialize(JsonError::Syntax),
    };
    let refused = Update::withdrawal(alloc, "gone", broken).err();
    same(&rt, "a broken bundle", &refused, &Some(refusal));
}

#[test]
fn reasons_have_1_to_255_bytes(rt: HostRuntime) {
    let alloc = rt.alloc();
    let malformed = UpdateError::Document(der_core::Error::Malformed);
    for (len, refusal) in [
        (0, Some(malformed)),
        (1, None),
        (255, None),
        (256, Some(UpdateError::Document(der_core::Error::Malformed))),
    ] {
        let reason = good(&rt, "memory", "r".repeat(alloc, len));
        let made = Update::withdrawal(alloc, reason.as_str(), Vec::new(alloc));
        let kept = made
            .as_ref()
            .is_ok_and(|update| update.reason() == Some(reason.as_str()));
        same(&rt, "kept", &kept, &refusal.is_none());
        same(&rt, "refused", &made.err(), &refusal);
    }
}
