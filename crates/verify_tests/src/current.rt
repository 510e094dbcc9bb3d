// The updates and the token are by a script from the grammar of `docs/FORMATS.md`, RFC 7515 and python's `hashlib`.
use identity_source::{IdentityReader, IdentitySource, SourceError};
use identity_verify::{DigestBackend, verify_current};
use std::alloc::{AllocError, Global};
use std::sync::Wait;
use std::test::Fail;

/// One identity, and the bundle of `example.org` with the key `k1`.
const KEYED: &[u8] = b"MIIBIjB2MHQMFnNwaWZmZTovL2V4YW1wbGUub3JnL2EwLgIBADAFBgMrZXAEIgQg
EREREREREREREREREREREREREREREREREREREREREREwKjAFBgMrZXADIQBNKRZ/
PxkSpvet+ik6BRoVwF7Ge48XJnscVVDc6FO9DTCBpzCBpAwLZXhhbXBsZS5vcmcE
gZR7ImtleXMiOlt7ImtpZCI6ImsxIiwia3R5IjoiRUMiLCJjcnYiOiJQLTI1NiIs
IngiOiJBQUFBQUFBQUFBQUFBQUFBQUFBQUFBQUFBQUFBQUFBQUFBQUFBQUFBQUFB
IiwieSI6IkFBQUFBQUFBQUFBQUFBQUFBQUFBQUFBQUFBQUFBQUFBQUFBQUFBQUFB
QUEifV19";

/// The same identity, and the bundle of `example.org` without keys.
const KEYLESS: &[u8] = b"MIGWMHYwdAwWc3BpZmZlOi8vZXhhbXBsZS5vcmcvYTAuAgEAMAUGAytlcAQiBCAR
ERERERERERERERERERERERERERERERERERERERERETAqMAUGAytlcAMhAE0pFn8/
GRKm9636KToFGhXAXsZ7jxcmexxVUNzoU70NMBwwGgwLZXhhbXBsZS5vcmcEC3si
a2V5cyI6W119";

/// By the key `k1`, for the audience `a`.
const TOKEN: &str =
    "eyJhbGciOiJFUzI1NiIsImtpZCI6ImsxIiwidHlwIjoiSldUIn0.eyJhdWQiOlsiYSJdLCJleHAiOjE3MDAwMDAwMDAsImlhdCI6MTYwMDAwMDAwMCwic3ViIjoic3BpZmZlOi8vZXhhbXBsZS5vcm\
cvYSJ9.M-DZC3YejOAFJfws3AYLL9jVQ2hUIjGav_p3AuE8xW0";

const NOW: i128 = 1_600_000_000_000_000_000;

fn opened<R: Wait>(rt: &R, alloc: Global) -> Result<(IdentitySource, IdentityReader), SourceError> {
    let (source, mut readers) = IdentitySource::open(rt, alloc, 0, 1)?;
    let reader = readers.pop().unwrap();
    Ok((source, reader))
}

// The revision of the state that judged the token, and the verdict.
fn verdict(
    alloc: Global,
    reader: &mut IdentityReader,
    expected: &[String],
) -> Result<(u64, String), AllocError> {
    match verify_current(alloc, reader, TOKEN, expected, NOW, &DigestBackend) {
        Ok(verified) => {
            let text = format!(in alloc; "{}", verified.svid.spiffe_id())?;
            Ok((verified.state.revision(), text))
        }
        Err(rejected) => {
            let text = format!(in alloc; "{:?}", rejected.cause)?;
            Ok((rejected.state.revision(), text))
        }
    }
}

#[test]
fn verdict_is_of_the_current_state(rt: HostRuntime) -> Result<(), Fail> {
    let alloc = rt.alloc();
    let mut expected = Vec::new(alloc);
    expected.push(String::from_str(alloc, "a")?)?;
    let (mut source, mut reader) = opened(&rt, alloc)?;
    let applied = source.apply(&rt, KEYED, 64).is_ok();
    let first = verdict(alloc, &mut reader, &expected);
    let applied_next = source.apply(&rt, KEYLESS, 64).is_ok();
    let second = verdict(alloc, &mut reader, &expected);
    source.close(&rt);
    assert!(rt; applied && applied_next);
    let (revision, text) = first?;
    assert_eq!(rt; revision, 1);
    assert_eq!(rt; text.as_str(), "spiffe://example.org/a");
    let (revision, text) = second?;
    assert_eq!(rt; revision, 2);
    assert_eq!(rt; text.as_str(), "AuthorityNotFound(\"k1\")");
    Ok(())
}
