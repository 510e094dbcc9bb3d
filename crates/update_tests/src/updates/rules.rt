//! Documents that break any rules together: the first in the order of the rules is named. The parts are put
//! together from the grammar by a few lines of Python.
use crate::checks::{good, same};
use base64ct::{Base64, Encoding};
use der_core::{AnyRef, Encode, Error, Tag};
use identity_update::{Update, UpdateError};
use spiffe_bundle::JwtBundleError;
use spiffe_id::SpiffeIdError;
use spiffe_json::JsonError;
use std::alloc::Global;
use std::process::Abort;

// Entries of the trust domain `a`: one that breaks no rule, one of another scheme, one with two algorithms, and
// one whose private key holds another public key. A number beyond them stands for no entry.
const ENTRIES: [&[u8]; 4] = [
    b"0*\x0c\x0cspiffe://a/x0\x0d\x02\x01\x000\x05\x06\x03+ep\x04\x01\x110\x0b0\x05\x06\x03+ep\x03\x02\x00M",
    b"0(\x0c\x0ahttp://a/x0\x0d\x02\x01\x000\x05\x06\x03+ep\x04\x01\x110\x0b0\x05\x06\x03+ep\x03\x02\x00M",
    b"00\x0c\x0cspiffe://a/x0\x13\x02\x01\x000\x0b\x06\x09*\x86H\x86\xf7\x0d\x01\x01\x01\x04\x01\x110\x0b0\x05\x06\x03+ep\x03\x02\x00M",
    b"0.\x0c\x0cspiffe://a/x0\x11\x02\x01\x010\x05\x06\x03+ep\x04\x01\x11\x81\x02\x00L0\x0b0\x05\x06\x03+ep\x03\x02\x00M",
];

// Bundles: of `a`, of `b`, of a text that is no trust domain, and of bytes that are no key set.
const BUNDLES: [&[u8]; 4] = [
    b"0\x10\x0c\x01a\x04\x0b{\"keys\":[]}",
    b"0\x10\x0c\x01b\x04\x0b{\"keys\":[]}",
    b"0\x12\x0c\x03a b\x04\x0b{\"keys\":[]}",
    b"0\x06\x0c\x01a\x04\x01{",
];

// What stands behind the bundles, and what behind the document: nothing, a reason, an empty one, and one more byte.
const ENDS: [(&[u8], &[u8]); 5] = [
    (b"", b""),
    (b"\x80\x04gone", b""),
    (b"\x80\x00", b""),
    (b"", b"\x00"),
    (b"\x80\x04gone", b"\x00"),
];

fn sequence(rt: &impl Abort, alloc: Global, first: &[u8], second: &[u8], last: &[u8]) -> Vec<u8> {
    let mut content = Vec::new(alloc);
    for part in [first, second, last] {
        good(rt, "memory", content.extend_from_slice(part));
    }
    let value = AnyRef::new(Tag::from_valid(Tag::SEQUENCE), &content);
    good(rt, "memory", good(rt, "a value", value).to_der(alloc))
}

fn entry_rule(kind: usize, entry: usize) -> Option<UpdateError> {
    let cause = SpiffeIdError::WrongScheme;
    match kind {
        1 => Some(UpdateError::Subject { entry, cause }),
        2 => Some(UpdateError::AlgorithmMismatch { entry }),
        3 => Some(UpdateError::PublicKeyMismatch { entry }),
        _ => None,
    }
}

fn bundle_rule(kind: usize, bundle: usize) -> Option<UpdateError> {
    match kind {
        2 => Some(UpdateError::Domain {
            bundle,
            cause: SpiffeIdError::BadTrustDomainChar,
        }),
        3 => Some(UpdateError::Authorities {
            bundle,
            cause: JwtBundleError::Deserialize(JsonError::Syntax),
        }),
        _ => None,
    }
}

// The first rule that a document of these parts breaks, of so many bytes before what stands behind it.
fn first_rule(
    entries: (usize, usize),
    bundles: (usize, usize),
    end: usize,
    len: usize,
) -> Option<UpdateError> {
    let some_entry = entries.0 < 4 || entries.1 < 4;
    let some_reason = end == 1 || end == 4;
    let second = if entries.0 < 4 { 1 } else { 0 };
    if end == 2 {
        return Some(UpdateError::Document(Error::Malformed));
    }
    if end > 2 {
        return Some(UpdateError::Document(Error::TrailingData {
            decoded: len,
            remaining: 1,
        }));
    }
    match (some_entry, some_reason) {
        (false, false) => return Some(UpdateError::MissingRequiredField),
        (true, true) => return Some(UpdateError::WithdrawalWithEntries),
        _ => {}
    }
    let broken = entry_rule(entries.0, 0)
        .or(entry_rule(entries.1, second))
        .or(bundle_rule(bundles.0, 0))
        .or(bundle_rule(bundles.1, 1));
    if broken.is_none() && some_entry && bundles.0 != 0 && bundles.1 != 0 {
        return Some(UpdateError::MissingBundle { entry: 0 });
    }
    broken
}

fn part(parts: &[&'static [u8]], number: usize) -> &'static [u8] {
    parts.get(number).copied().unwrap_or(b"")
}

#[test]
fn first_of_all_broken_rules_is_named(rt: HostRuntime) {
    let alloc = rt.alloc();
    for (end, (reason, behind)) in ENDS.iter().enumerate() {
        for number in 0..400 {
            let entries = (number % 5, number / 5 % 5);
            let bundles = (number / 25 % 4, number / 100);
            let (first, second) = (part(&ENTRIES, entries.0), part(&ENTRIES, entries.1));
            let identities = sequence(&rt, alloc, first, second, b"");
            let (first, second) = (part(&BUNDLES, bundles.0), part(&BUNDLES, bundles.1));
            let listed = sequence(&rt, alloc, first, second, b"");
            let mut document = sequence(&rt, alloc, &identities, &listed, reason);
            let rule = first_rule(entries, bundles, end, document.len());
            good(&rt, "memory", document.extend_from_slice(behind));
            let text = good(&rt, "memory", Base64::encode_string(alloc, &document));
            let refusal = Update::read(alloc, text.as_bytes(), 1000).err();
            same(&rt, text.as_str(), &refusal, &rule);
        }
    }
}
