//! Readers see whole states in their order, while updates with differing identities are applied.
use crate::checks::{good, same};
use base64ct::LineEnding;
use identity_source::{BundleParts, EntryParts, IdentityReader, IdentitySource, Update};
use pkcs8::{DecodePrivateKey, PrivateKeyInfoOwned};
use spiffe_id::{SpiffeId, TrustDomain};
use spki::{DecodePublicKey, SubjectPublicKeyInfoOwned};
use std::alloc::Global;
use std::process::Abort;
use std::sync::Wait;
use std::thread;

// An Ed25519 key pair (RFC 8410, sections 4 and 7), without regard to its arithmetic: the head of each document, and 32 bytes.
const PRIVATE_HEAD: [u8; 16] = [
    0x30, 0x2e, 2, 1, 0, 0x30, 5, 6, 3, 0x2b, 0x65, 0x70, 4, 0x22, 4, 0x20,
];

const PUBLIC_HEAD: [u8; 12] = [0x30, 0x2a, 0x30, 5, 6, 3, 0x2b, 0x65, 0x70, 3, 0x21, 0];

fn document(rt: &impl Abort, alloc: Global, head: &[u8]) -> Vec<u8> {
    let mut document = good(rt, "memory", Vec::from_slice(alloc, head));
    good(rt, "memory", document.extend_from_slice(&[0x11; 32]));
    document
}

fn entry(rt: &impl Abort, alloc: Global, id: &str) -> EntryParts {
    let private_key = document(rt, alloc, &PRIVATE_HEAD);
    let private_key = PrivateKeyInfoOwned::from_pkcs8_der(alloc, &private_key);
    let public_key = document(rt, alloc, &PUBLIC_HEAD);
    let public_key = SubjectPublicKeyInfoOwned::from_public_key_der(alloc, &public_key);
    EntryParts {
        id: good(rt, "an id", SpiffeId::new(alloc, id)),
        private_key: good(rt, "a private key", private_key),
        public_key: good(rt, "a public key", public_key),
    }
}

fn bundle(rt: &impl Abort, alloc: Global) -> BundleParts {
    BundleParts {
        trust_domain: good(rt, "a trust domain", TrustDomain::new(alloc, "example.org")),
        jwks: good(rt, "memory", Vec::from_slice(alloc, b"{\"keys\":[]}")),
    }
}

// The text of an update whose one identity has the path `/number`.
fn numbered(rt: &impl Abort, alloc: Global, number: u64) -> String {
    let id = good(
        rt,
        "memory",
        format!(in alloc; "spiffe://example.org/{number}"),
    );
    let entry = entry(rt, alloc, id.as_str());
    let entries = good(rt, "memory", vec![in alloc; entry]);
    let bundle = bundle(rt, alloc);
    let bundles = good(rt, "memory", vec![in alloc; bundle]);
    let update = good(rt, "an update", Update::from_parts(alloc, entries, bundles));
    good(rt, "a text", update.to_text(alloc, 64, LineEnding::LF))
}

fn apply_all<R: Wait>(rt: &R, source: &mut IdentitySource, texts: &[String]) -> bool {
    let mut applied = true;
    for text in texts {
        applied = source.apply(rt, text.as_bytes(), 64).is_ok() && applied;
    }
    applied
}

// Whether each state is whole and none is earlier than the one before it.
fn are_whole(alloc: Global, mut reader: IdentityReader) -> bool {
    let mut last = 0;
    let mut whole = true;
    for _ in 0..1000 {
        let state = reader.current();
        let revision = state.revision();
        whole = whole && last <= revision;
        last = revision;
        if let Some(identity) = state.svid() {
            let path = format!(in alloc; "/{revision}");
            whole = whole && path.is_ok_and(|path| identity.id().path() == path.as_str());
        }
    }
    whole
}

#[test]
fn whole_states(rt: HostRuntime) {
    let alloc = rt.alloc();
    let mut texts = Vec::new(alloc);
    for number in 1..201 {
        good(&rt, "memory", texts.push(numbered(&rt, alloc, number)));
    }
    let open = IdentitySource::open(&rt, alloc, 0, 4);
    let (mut source, readers) = good(&rt, "a source", open);
    let (applied, whole) = thread::join(
        &rt,
        || apply_all(&rt, &mut source, &texts),
        || { thread::map_vec(&rt, readers, &|reader| are_whole(alloc, reader)) },
    );
    let last = source.latest().revision();
    source.close(&rt);
    same(&rt, "applied", &(applied, last), &(true, 200));
    for whole in good(&rt, "four readers", whole) {
        assert!(rt; whole);
    }
}
