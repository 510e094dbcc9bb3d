//! What updates lend, and when they are equal. The documents are put together from the grammar by a few lines of
//! Python, and written by its `base64`; keys are RFC 8410's, made by OpenSSL.
use crate::checks::{good, same, some};
use der_core::Decode;
use identity_update::{Entries, Update};
use pkcs8::PrivateKeyInfoRef;
use spki::SubjectPublicKeyInfoRef;
use std::alloc::Global;
use std::process::Abort;

// A private key with attributes, which are empty, and its public key, by themselves.
const PRIVATE_KEY: &[u8] =
    b"\x30\x53\x02\x01\x01\x30\x05\x06\x03\x2b\x65\x70\x04\x22\x04\x20\x11\x11\x11\x11\x11\x11\x11\x11\x11\x11\x11\x11\x11\x11\x11\x11\x11\
         \x11\x11\x11\x11\x11\x11\x11\x11\x11\x11\x11\x11\x11\x11\x11\xa0\x00\x81\x21\x00\x4d\x29\x16\x7f\x3f\x19\x12\xa6\xf7\xad\xfa\x29\
         \x3a\x05\x1a\x15\xc0\x5e\xc6\x7b\x8f\x17\x26\x7b\x1c\x55\x50\xdc\xe8\x53\xbd\x0d";

const PUBLIC_KEY: &[u8] =
    b"\x30\x2a\x30\x05\x06\x03\x2b\x65\x70\x03\x21\x00\x4d\x29\x16\x7f\x3f\x19\x12\xa6\xf7\xad\xfa\x29\x3a\x05\x1a\x15\xc0\x5e\xc6\x7b\x8f\
         \x17\x26\x7b\x1c\x55\x50\xdc\xe8\x53\xbd\x0d";

// An update whose one entry has these keys.
const WITH_KEYS: &[u8] =
    b"MIG9MIGcMIGZDBZzcGlmZmU6Ly9leGFtcGxlLm9yZy9hMFMCAQEwBQYDK2VwBCIEIBERERERERERERERERERERERERERERERERERERERERERoACBIQBNKRZ/PxkSpvet+ik6BR\
         oVwF7Ge48XJnscVVDc6FO9DTAqMAUGAytlcAMhAE0pFn8/GRKm9636KToFGhXAXsZ7jxcmexxVUNzoU70NMBwwGgwLZXhhbXBsZS5vcmcEC3sia2V5cyI6W119";

// Three entries, and three bundles.
const THREE_ENTRIES: &[u8] =
    b"MIG/MIGEMCoMDHNwaWZmZTovL2EveDANAgEAMAUGAytlcAQBETALMAUGAytlcAMCAE0wKgwMc3BpZmZlOi8vYS95MA0CAQAwBQYDK2VwBAERMAswBQYDK2VwAwIATTAqDAxzcG\
         lmZmU6Ly9hL3owDQIBADAFBgMrZXAEAREwCzAFBgMrZXADAgBNMDYwEAwBYQQLeyJrZXlzIjpbXX0wEAwBYgQLeyJrZXlzIjpbXX0wEAwBYwQLeyJrZXlzIjpbXX0=";

// Two bundles of one trust domain: the first with the key `k1`, the second with `k2`.
const TWO_BUNDLES: &[u8] =
    b"MIHKMHYwdAwWc3BpZmZlOi8vZXhhbXBsZS5vcmcvYTAuAgEAMAUGAytlcAQiBCARERERERERERERERERERERERERERERERERERERERERETAqMAUGAytlcAMhAE0pFn8/GRKm96\
         36KToFGhXAXsZ7jxcmexxVUNzoU70NMFAwJgwLZXhhbXBsZS5vcmcEF3sia2V5cyI6W3sia2lkIjoiazEifV19MCYMC2V4YW1wbGUub3JnBBd7ImtleXMiOlt7ImtpZCI6I\
         msyIn1dfQ==";

fn read(rt: &impl Abort, alloc: Global, text: &[u8]) -> Update {
    good(rt, "an update", Update::read(alloc, text, 500))
}

#[test]
fn keys_are_lent(rt: HostRuntime) {
    let update = read(&rt, rt.alloc(), WITH_KEYS);
    let private_key = good(&rt, "a key", PrivateKeyInfoRef::from_der(PRIVATE_KEY));
    let public_key = good(&rt, "a key", SubjectPublicKeyInfoRef::from_der(PUBLIC_KEY));
    let identity = some(&rt, "an entry", update.entries().next());
    assert!(rt; identity.private_key() == private_key);
    assert!(rt; identity.private_key().attributes.is_some());
    assert!(rt; identity.public_key() == public_key);
}

#[test]
fn entries_come_in_order(rt: HostRuntime) {
    let update = read(&rt, rt.alloc(), THREE_ENTRIES);
    same(&rt, "how many", &update.entries().len(), &3);
    let mut paths = ["/x", "/y", "/z"].iter();
    for identity in update.entries() {
        same(
            &rt,
            "a path",
            &Some(identity.id().path()),
            &paths.next().copied(),
        );
    }
    assert!(rt; Entries::none().next().is_none());
}

#[test]
fn last_bundle_is_kept(rt: HostRuntime) {
    let update = read(&rt, rt.alloc(), TWO_BUNDLES);
    same(&rt, "bundles", &update.bundles().len(), &2);
    same(&rt, "domains", &update.bundle_set().len(), &1);
    for (_, bundle) in update.bundle_set().iter() {
        assert!(rt; bundle.find_jwt_authority("k1").is_none());
        assert!(rt; bundle.find_jwt_authority("k2").is_some());
    }
}

// A row says whether two texts write the same update, and has the two.
const PAIRS: &str =
    "true = MIGWMHYwdAwWc3BpZmZlOi8vZXhhbXBsZS5vcmcvYTAuAgEAMAUGAytlcAQiBCARERERERERERERERERERERERERERERERERERERERERETAqMAUGAytlcAMhAE0pFn8/\
    GRKm9636KToFGhXAXsZ7jxcmexxVUNzoU70NMBwwGgwLZXhhbXBsZS5vcmcEC3sia2V5cyI6W119 = MIGhMHYwdAwWU1BJRkZFOi8vRXhhbXBsZS5PUkcvYTAuAgEAMAUGAytlc\
    AQiBCARERERERERERERERERERERERERERERERERERERERERETAqMAUGAytlcAMhAE0pFn8/GRKm9636KToFGhXAXsZ7jxcmexxVUNzoU70NMCcwJQwWc3BpZmZlOi8vRVhBTVBMR\
    S5vcmcveAQLeyJrZXlzIjpbXX0=
false = MIGWMHYwdAwWc3BpZmZlOi8vZXhhbXBsZS5vcmcvYTAuAgEAMAUGAytlcAQiBCARERERERERERERERERERERERERERERERERERERERERETAqMAUGAytlcAMhAE0pFn8/GRKm\
    9636KToFGhXAXsZ7jxcmexxVUNzoU70NMBwwGgwLZXhhbXBsZS5vcmcEC3sia2V5cyI6W119 = MIGYMHgwdgwWc3BpZmZlOi8vZXhhbXBsZS5vcmcvYTAwAgEAMAUGAytlcAQiB\
    CAREREREREREREREREREREREREREREREREREREREREREaAAMCowBQYDK2VwAyEATSkWfz8ZEqb3rfopOgUaFcBexnuPFyZ7HFVQ3OhTvQ0wHDAaDAtleGFtcGxlLm9yZwQLeyJrZ\
    XlzIjpbXX0=
true = MIGWMHYwdAwWc3BpZmZlOi8vZXhhbXBsZS5vcmcvYTAuAgEAMAUGAytlcAQiBCARERERERERERERERERERERERERERERERERERERERERETAqMAUGAytlcAMhAE0pFn8/GRKm9\
    636KToFGhXAXsZ7jxcmexxVUNzoU70NMBwwGgwLZXhhbXBsZS5vcmcEC3sia2V5cyI6W119 = MIGaMHoweAwWc3BpZmZlOi8vZXhhbXBsZS5vcmcvYTAyAgEAMAUGAytlcAQiBC\
    AREREREREREREREREREREREREREREREREREREREREREaECBQAwKjAFBgMrZXADIQBNKRZ/PxkSpvet+ik6BRoVwF7Ge48XJnscVVDc6FO9DTAcMBoMC2V4YW1wbGUub3JnBAt7Im\
    tleXMiOltdfQ==
false = MCYwADAcMBoMC2V4YW1wbGUub3JnBAt7ImtleXMiOltdfYAEZ29uZQ== = MCYwADAcMBoMC2V4YW1wbGUub3JnBAt7ImtleXMiOltdfYAEbG9zdA==
false = MCYwADAcMBoMC2V4YW1wbGUub3JnBAt7ImtleXMiOltdfYAEZ29uZQ== = MAowADAAgARnb25l";

#[test]
fn updates_are_compared(rt: HostRuntime) {
    for row in PAIRS.lines() {
        let (is_same, texts) = some(&rt, "an answer", row.split_once(" = "));
        let (first, second) = some(&rt, "two texts", texts.split_once(" = "));
        let first = read(&rt, rt.alloc(), first.as_bytes());
        let second = read(&rt, rt.alloc(), second.as_bytes());
        same(&rt, row, &(first == second), &(is_same == "true"));
    }
}
