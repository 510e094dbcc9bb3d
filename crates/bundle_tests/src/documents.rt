// Documents are written by hand after the SPIFFE Trust Domain and Bundle format, section 4; the compact forms that are
// wanted are python's `json.dumps(value, sort_keys=True, separators=(",", ":"))` of the keys for tokens.
use crate::checks::{good, same, same_bytes, same_text};
use bundle_document::{BundleDocument, BundleFeed, DocumentError, FeedError};
use spiffe_bundle::JwtBundle;
use spiffe_id::TrustDomain;
use spiffe_json::JsonError;
use std::alloc::Global;
use std::process::Abort;

const SAMPLE: &str =
    r#"{"keys":[{"use":"x509-svid","kty":"EC"},{"use":"jwt-svid","kid":"a","kty":"EC"},{"kty":"EC"}],"spiffe_refresh_hint":300,"spiffe_sequence":7}"#;

// As a SPIRE server writes one: a certificate, an EC key and an RSA key.
const SPIRE: &str = r#"{
    "keys": [
        { "use": "x509-svid", "kty": "EC", "crv": "P-256", "x": "fK", "y": "Re", "x5c": ["MIIB"] },
        { "use": "jwt-svid", "kty": "EC", "kid": "C6vs25welZOx6WksNYfbMfiw9l96pMnD", "crv": "P-256", "x": "ngL", "y": "qnV" },
        { "use": "jwt-svid", "kty": "RSA", "kid": "gHTCunJbefYtnZnTctd84xeRWyMrEsWD", "n": "0vx", "e": "AQAB" }
    ],
    "spiffe_sequence": 12,
    "spiffe_refresh_hint": 600
}"#;

fn document<R: Abort>(rt: &R, alloc: Global, json: &str) -> BundleDocument {
    good(
        rt,
        "a document",
        BundleDocument::read(alloc, json.as_bytes()),
    )
}

#[test]
fn documents_are_read(rt: HostRuntime) {
    for (json, sequence, refresh_hint, x509_count, ignored_count, jwks) in [
        (
            SAMPLE,
            Some(7),
            Some(300),
            1,
            1,
            r#"{"keys":[{"kid":"a","kty":"EC","use":"jwt-svid"}]}"#,
        ),
        (
            SPIRE,
            Some(12),
            Some(600),
            1,
            0,
            "{\"keys\":[{\"crv\":\"P-256\",\"kid\":\"C6vs25welZOx6WksNYfbMfiw9l96pMnD\",\"kty\":\"EC\",\"use\":\"jwt-svid\",\"x\":\"ngL\",\"y\":\"qnV\"},\
             {\"e\":\"AQAB\",\"kid\":\"gHTCunJbefYtnZnTctd84xeRWyMrEsWD\",\"kty\":\"RSA\",\"n\":\"0vx\",\"use\":\"jwt-svid\"}]}",
        ),
        (r#"{"keys":[]}"#, None, None, 0, 0, r#"{"keys":[]}"#),
        (
            r#"{"keys":[7,null,[],{"use":7,"kid":"a"},{"use":"JWT-SVID"},{"kid":"b","use":"jwt-svid"},{"kid":"b","use":"jwt-svid"}],"spiffe_sequence":18446744073709551615}"#,
            Some(u64::MAX),
            None,
            0,
            5,
            r#"{"keys":[{"kid":"b","use":"jwt-svid"},{"kid":"b","use":"jwt-svid"}]}"#,
        ),
    ] {
        let found = document(&rt, rt.alloc(), json);
        same(&rt, json, &found.sequence(), &sequence);
        same(&rt, json, &found.refresh_hint(), &refresh_hint);
        same(&rt, json, &found.x509_count(), &x509_count);
        same(&rt, json, &found.ignored_count(), &ignored_count);
        same_bytes(&rt, json, found.jwks(), jwks.as_bytes());
    }
}

// Each rule alone, and before each later one that can be broken with it.
#[test]
fn documents_are_refused(rt: HostRuntime) {
    for (json, error) in [
        ("", DocumentError::Deserialize(JsonError::Syntax)),
        (
            r#"{"keys":[{"use":"jwt-svid"}],"spiffe_sequence":1.0"#,
            DocumentError::Deserialize(JsonError::Syntax),
        ),
        (
            r#"{"keys":[],"spiffe_sequence":1.0}"#,
            DocumentError::Deserialize(JsonError::Number),
        ),
        (
            r#"{"keys":[],"spiffe_sequence":18446744073709551616}"#,
            DocumentError::Deserialize(JsonError::Number),
        ),
        (
            r#"{"keys":{},"spiffe_sequence":1e3,"spiffe_refresh_hint":-1}"#,
            DocumentError::Deserialize(JsonError::Number),
        ),
        (
            r#"{"keys":[{"use":"jwt-svid","n":-0}],"spiffe_refresh_hint":null}"#,
            DocumentError::Deserialize(JsonError::Number),
        ),
        ("[]", DocumentError::Deserialize(JsonError::Keys)),
        (
            r#"{"spiffe_sequence":null,"spiffe_refresh_hint":null}"#,
            DocumentError::Deserialize(JsonError::Keys),
        ),
        (
            r#"{"keys":[],"spiffe_sequence":-1}"#,
            DocumentError::Sequence,
        ),
        (
            r#"{"keys":[{"use":"jwt-svid"}],"spiffe_sequence":null,"spiffe_refresh_hint":"5"}"#,
            DocumentError::Sequence,
        ),
        (
            r#"{"keys":[],"spiffe_sequence":7,"spiffe_refresh_hint":true}"#,
            DocumentError::RefreshHint,
        ),
        (
            r#"{"keys":[{"use":"jwt-svid"}],"spiffe_refresh_hint":-300}"#,
            DocumentError::RefreshHint,
        ),
        (
            r#"{"keys":[{"use":"jwt-svid"}]}"#,
            DocumentError::MissingKeyId { key: 0 },
        ),
        (
            r#"{"keys":[7,{"use":"x509-svid"},{"use":"jwt-svid","kid":"a"},{"use":"jwt-svid","kid":1},{"use":"jwt-svid"}]}"#,
            DocumentError::MissingKeyId { key: 3 },
        ),
    ] {
        let found = BundleDocument::read(rt.alloc(), json.as_bytes()).err();
        same(&rt, json, &found, &Some(error));
    }
}

// A document of many keys, which nests as deep as JSON is read.
#[test]
fn large_documents(rt: HostRuntime) {
    let alloc = rt.alloc();
    let mut json = good(&rt, "memory", String::from_str(alloc, r#"{"keys":["#));
    for i in 0..10_000 {
        let key = good(
            &rt,
            "memory",
            format!(in alloc; r#"{{"kid":"k{i}","use":"jwt-svid"}},"#),
        );
        good(&rt, "memory", json.push_str(key.as_str()));
    }
    let deep = good(&rt, "memory", "[".repeat(alloc, 124));
    let back = good(&rt, "memory", "]".repeat(alloc, 124));
    let last = format!(in alloc; r#"{{"kid":"last","use":"jwt-svid","x":{deep}{back}}}]}}"#);
    good(
        &rt,
        "memory",
        json.push_str(good(&rt, "memory", last).as_str()),
    );
    let found = document(&rt, alloc, json.as_str());
    same_bytes(&rt, "key set", found.jwks(), json.as_bytes());
}

// A bundle with this key set, as a document and back.
#[test]
fn bundles_are_written(rt: HostRuntime) {
    let alloc = rt.alloc();
    let read = document(&rt, alloc, SAMPLE);
    let domain = good(
        &rt,
        "a trust domain",
        TrustDomain::new(alloc, "example.org"),
    );
    let parts = good(&rt, "memory", read.to_bundle_parts(alloc, &domain));
    let bundle = JwtBundle::from_jwt_authorities(alloc, parts.trust_domain, &parts.jwks);
    let bundle = good(&rt, "a key set", bundle);
    let made = BundleDocument::from_bundle(alloc, &bundle, Some(7), Some(300));
    let made = good(&rt, "memory", made);
    same_bytes(&rt, "key set", made.jwks(), read.jwks());
    let json = good(&rt, "memory", made.to_json(alloc));
    same_bytes(
        &rt,
        "document",
        json.as_slice(),
        br#"{"keys":[{"kid":"a","kty":"EC","use":"jwt-svid"}],"spiffe_refresh_hint":300,"spiffe_sequence":7}"#.as_slice(),
    );
}

#[test]
fn numbers_are_written(rt: HostRuntime) {
    for json in [
        r#"{"keys":[]}"#,
        r#"{"keys":[],"spiffe_sequence":0}"#,
        r#"{"keys":[],"spiffe_refresh_hint":1}"#,
        r#"{"keys":[{"kid":"k","use":"jwt-svid"}],"spiffe_refresh_hint":18446744073709551615,"spiffe_sequence":2}"#,
    ] {
        let found = document(&rt, rt.alloc(), json).to_json(rt.alloc());
        same_bytes(
            &rt,
            json,
            good(&rt, "memory", found).as_slice(),
            json.as_bytes(),
        );
    }
}

#[test]
fn feed_keeps_the_newest(rt: HostRuntime) {
    let mut feed = BundleFeed::new();
    same(&rt, "feed", &feed.latest().is_none(), &true);
    for (sequence, answer, kept) in [
        (r#","spiffe_sequence":7"#, Ok(()), Some(7)),
        (
            r#","spiffe_sequence":6"#,
            Err(FeedError::Older {
                kept: 7,
                offered: 6,
            }),
            Some(7),
        ),
        (r#","spiffe_sequence":7"#, Ok(()), Some(7)),
        ("", Ok(()), None),
        (r#","spiffe_sequence":1"#, Ok(()), Some(1)),
    ] {
        let json = good(
            &rt,
            "memory",
            format!(in rt.alloc(); r#"{{"keys":[]{sequence}}}"#),
        );
        let found = feed.offer(document(&rt, rt.alloc(), json.as_str()));
        same(&rt, "answer", &found, &answer);
        same(
            &rt,
            "answer",
            &feed.latest().and_then(BundleDocument::sequence),
            &kept,
        );
    }
}

#[test]
fn errors_are_told(rt: HostRuntime) {
    for (error, text) in [
        (DocumentError::Deserialize(JsonError::Keys), "no keys array"),
        (DocumentError::Sequence, "bad sequence"),
        (DocumentError::RefreshHint, "bad refresh hint"),
        (
            DocumentError::MissingKeyId { key: 4 },
            "key 4: missing key ID",
        ),
        (DocumentError::OutOfMemory, "out of memory"),
    ] {
        let found = good(&rt, "memory", format!(in rt.alloc(); "{error}"));
        same_text(&rt, text, found.as_str(), text);
    }
}
