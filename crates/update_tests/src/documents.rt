//! Documents of numbers in place of entries and bundles, put together by hand from X.690, and one update document, put
//! together from the grammar by a few lines of Python over RFC 8410's keys.
use crate::checks::{good, same, same_bytes};
use der_core::{Encode, Error};
use der_small::Utf8Ref;
use update_document::{SequenceOf, WrittenDocument, read_document, read_update};

// The identity `spiffe://example.org/a` with an Ed25519 key pair, and a bundle of `example.org` without keys.
const UPDATE: &[u8] =
    b"\x30\x81\x96\x30\x76\x30\x74\x0c\x16\x73\x70\x69\x66\x66\x65\x3a\x2f\x2f\x65\x78\x61\x6d\x70\x6c\x65\x2e\x6f\x72\x67\x2f\x61\x30\x2e\
         \x02\x01\x00\x30\x05\x06\x03\x2b\x65\x70\x04\x22\x04\x20\x11\x11\x11\x11\x11\x11\x11\x11\x11\x11\x11\x11\x11\x11\x11\x11\x11\x11\
         \x11\x11\x11\x11\x11\x11\x11\x11\x11\x11\x11\x11\x11\x11\x30\x2a\x30\x05\x06\x03\x2b\x65\x70\x03\x21\x00\x4d\x29\x16\x7f\x3f\x19\
         \x12\xa6\xf7\xad\xfa\x29\x3a\x05\x1a\x15\xc0\x5e\xc6\x7b\x8f\x17\x26\x7b\x1c\x55\x50\xdc\xe8\x53\xbd\x0d\x30\x1c\x30\x1a\x0c\x0b\
         \x65\x78\x61\x6d\x70\x6c\x65\x2e\x6f\x72\x67\x04\x0b\x7b\x22\x6b\x65\x79\x73\x22\x3a\x5b\x5d\x7d";

// A document of the entries 1 and 2, the bundle 3 and a reason.
const DOCUMENT: &[u8] = b"\x30\x13\x30\x06\x02\x01\x01\x02\x01\x02\x30\x03\x02\x01\x03\x80\x04gone";

#[test]
fn documents_are_written(rt: HostRuntime) {
    let entries = SequenceOf([1u8, 2].as_slice());
    let written = WrittenDocument {
        entries: &entries,
        bundles: [3u8].as_slice(),
        reason: Utf8Ref::new("gone").ok(),
    };
    let bytes = good(&rt, "memory", written.to_der(rt.alloc()));
    same_bytes(&rt, "document", &bytes, DOCUMENT);
}

#[test]
fn documents_are_read(rt: HostRuntime) {
    let read = good(
        &rt,
        "a document",
        read_document::<u8, u8>(rt.alloc(), DOCUMENT),
    );
    same_bytes(&rt, "entries", &read.entries, &[1, 2]);
    same_bytes(&rt, "bundles", &read.bundles, &[3]);
    same(
        &rt,
        "reason",
        &read.reason.map(|text| text.as_str()),
        &Some("gone"),
    );
}

#[test]
fn updates_are_read(rt: HostRuntime) {
    let update = good(&rt, "an update", read_update(rt.alloc(), UPDATE));
    for entry in &update.entries {
        same(
            &rt,
            "entry",
            &entry.text.as_str(),
            &"spiffe://example.org/a",
        );
    }
    for bundle in &update.bundles {
        same_bytes(&rt, "bundle", bundle.jwks.as_bytes(), b"{\"keys\":[]}");
    }
    same(
        &rt,
        "counts",
        &(update.entries.len(), update.bundles.len()),
        &(1, 1),
    );
    same(&rt, "reason", &update.reason.is_none(), &true);
}

// Bytes, and why they are no document of numbers; none where they are one.
fn rows() -> [(&'static [u8], Option<Error>); 12] {
    let malformed = Some(Error::Malformed);
    let trailing = Some(Error::TrailingData {
        decoded: 6,
        remaining: 1,
    });
    [
        (b"", malformed),
        (b"0\x040\x000\x00", None),
        (b"0\x040\x000\x00\x00", trailing),
        (b"0\x050\x000\x00", malformed),
        (b"0\x020\x00", malformed),
        (b"0\x070\x03\x04\x01\x010\x00", malformed),
        (b"0\x060\x000\x00\x80\x00", malformed),
        (b"0\x070\x000\x00\x80\x01\xff", malformed),
        (b"0\x070\x000\x00\x81\x01a", malformed),
        (b"0\x090\x000\x00\x80\x01a\x05\x00", malformed),
        (
            b"0\x82\x01\x060\x000\x00\x80\x81\xffrrrrrrrrrrrrrrrrrrrrrrrrrrrrrrrrrrrrrrrrrrrrrrrrrrrrrrrrrrrrrrrrrrrrrrrrrrrrrrrrrrrrrrrrrrr\
                 rrrrrrrrrrrrrrrrrrrrrrrrrrrrrrrrrrrrrrrrrrrrrrrrrrrrrrrrrrrrrrrrrrrrrrrrrrrrrrrrrrrrrrrrrrrrrrrrrrrrrrrrrrrrrrrrrrrrrrrrrrr\
                 rrrrrrrrrrrrrrrrrrrrrrrrrrrrrrrrrrrrrrrrr",
            None,
        ),
        (
            b"0\x82\x01\x080\x000\x00\x80\x82\x01\x00rrrrrrrrrrrrrrrrrrrrrrrrrrrrrrrrrrrrrrrrrrrrrrrrrrrrrrrrrrrrrrrrrrrrrrrrrrrrrrrrrrrrrrr\
                 rrrrrrrrrrrrrrrrrrrrrrrrrrrrrrrrrrrrrrrrrrrrrrrrrrrrrrrrrrrrrrrrrrrrrrrrrrrrrrrrrrrrrrrrrrrrrrrrrrrrrrrrrrrrrrrrrrrrrrrrrrr\
                 rrrrrrrrrrrrrrrrrrrrrrrrrrrrrrrrrrrrrrrrrrrrrr",
            malformed,
        ),
    ]
}

#[test]
fn other_bytes_are_refused(rt: HostRuntime) {
    for (bytes, refusal) in rows() {
        same(
            &rt,
            "refusal",
            &read_document::<u8, u8>(rt.alloc(), bytes).err(),
            &refusal,
        );
    }
}
