// Expected values come from the rules on keys and values, and from the security header's own two texts.
use crate::error::{CallError, MetadataError, Status};
use crate::metadata::Metadata;
use crate::security_header::{InterceptorFn, SecurityHeader};
use std::alloc::Global;
use std::process::Abort;

const KEYS: &str = "a Ok(())
broker.spiffe.io Ok(())
az09.-_ Ok(())
A Err(InvalidKey)
a/b Err(InvalidKey)
é Err(InvalidKey)
a: Err(InvalidKey)
`a Err(InvalidKey)
{ Err(InvalidKey)
- Ok(())";

fn metadata(rt: &impl Abort, alloc: Global, key: &str, value: &str) -> Metadata {
    let mut metadata = Metadata::new(alloc);
    metadata.insert(key, value).expect(rt, "an entry");
    metadata
}

fn as_false(metadata: &mut Metadata) -> Result<(), Status> {
    match metadata.insert("broker.spiffe.io", "false") {
        Ok(()) => Ok(()),
        Err(_) => Ok(()),
    }
}

fn without_any(metadata: &mut Metadata) -> Result<(), Status> {
    let _ = metadata.remove("broker.spiffe.io");
    let _ = metadata.remove("k");
    Ok(())
}

#[test]
fn entries(rt: HostRuntime) {
    let alloc = rt.alloc();
    for row in KEYS.lines() {
        let (key, wanted) = row.split_once(" ").expect(&rt, "an answer");
        let mut metadata = Metadata::new(alloc);
        let answer = metadata.insert(key, " ~");
        let shown = format!(in alloc; "{answer:?}").expect(&rt, "memory");
        assert_eq!(rt; shown.as_str(), wanted, "{key}");
        assert_eq!(rt; metadata.get(key), answer.ok().map(|_| " ~"));
    }
    let mut metadata = metadata(&rt, alloc, "k", "");
    assert_eq!(rt; metadata.insert("", "v"), Err(MetadataError::InvalidKey));
    assert_eq!(rt; metadata.insert("", "\n"), Err(MetadataError::InvalidKey));
    for value in ["\n", "a\u{7f}", "\u{1f}", "é"] {
        assert_eq!(rt;
            metadata.insert("k", value),
            Err(MetadataError::InvalidValue)
        );
    }
    assert_eq!(rt; metadata.get("k"), Some(""));
}

#[test]
fn map(rt: HostRuntime) {
    let mut metadata = metadata(&rt, rt.alloc(), "b", "1");
    metadata.insert("a", "2").expect(&rt, "an entry");
    metadata.insert("b", "3").expect(&rt, "an entry");
    assert_eq!(rt; metadata.len(), 2);
    assert_eq!(rt; metadata.get("a"), Some("2"));
    assert_eq!(rt; metadata.get("b"), Some("3"));
    assert!(rt; metadata.remove("a") && !metadata.remove("a"));
    assert_eq!(rt; metadata.get("a"), None);
    assert_eq!(rt; metadata.len(), 1);
}

#[test]
fn header_set(rt: HostRuntime) {
    let alloc = rt.alloc();
    let mut plain = SecurityHeader::<InterceptorFn>::new();
    let after = plain
        .call(metadata(&rt, alloc, "k", "v"))
        .expect(&rt, "metadata");
    assert_eq!(rt; after.get("broker.spiffe.io"), Some("true"));
    assert_eq!(rt; after.get("k"), Some("v"));
    let mut header = SecurityHeader::with_interceptor(as_false);
    for _ in 0..2 {
        let after = header
            .call(metadata(&rt, alloc, "k", "v"))
            .expect(&rt, "metadata");
        assert_eq!(rt; after.get("broker.spiffe.io"), Some("true"));
        assert_eq!(rt; after.len(), 2);
    }
    let mut header = SecurityHeader::with_interceptor(without_any);
    let after = header
        .call(metadata(&rt, alloc, "k", "v"))
        .expect(&rt, "metadata");
    assert_eq!(rt; after.get("broker.spiffe.io"), Some("true"));
    assert_eq!(rt; after.len(), 1);
    let shown = format!(in alloc; "{plain:?} {header:?}").expect(&rt, "memory");
    let wanted = "SecurityHeader { extra: false } SecurityHeader { extra: true }";
    assert_eq!(rt; shown.as_str(), wanted);
}

#[test]
fn call_refused(rt: HostRuntime) {
    let alloc = rt.alloc();
    let mut header = SecurityHeader::with_interceptor(|_: &mut Metadata| {
        match String::from_str(alloc, "token expired") {
            Ok(message) => Err(Status { code: 13, message }),
            Err(_) => Ok(()),
        }
    });
    match header.call(Metadata::new(alloc)) {
        Err(CallError::Refused(status)) => {
            assert!(rt; status.code == 13 && status.message.as_str() == "token expired");
        }
        _ => assert!(rt; false),
    }
}

#[test]
fn texts(rt: HostRuntime) {
    let alloc = rt.alloc();
    for (error, text) in [
        (MetadataError::InvalidKey, "invalid key"),
        (MetadataError::InvalidValue, "invalid value"),
        (MetadataError::OutOfMemory, "out of memory"),
    ] {
        let shown = format!(in alloc; "{error}").expect(&rt, "memory");
        assert_eq!(rt; shown.as_str(), text);
    }
    let message = String::from_str(alloc, "m").expect(&rt, "memory");
    let refused = CallError::Refused(Status { code: 1, message });
    let shown = format!(in alloc; "{refused} {}", CallError::OutOfMemory).expect(&rt, "memory");
    assert_eq!(rt; shown.as_str(), "refused out of memory");
}
