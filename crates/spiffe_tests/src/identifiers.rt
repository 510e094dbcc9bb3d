// Expected values are made by hand from the rules of SPIFFE-ID section 2 in their order; the error texts are
// those of the Rust crate `spiffe`. In the tables a row is an input, ` = ` and the answer: the text of the
// value, or the name of the first broken rule.
use crate::checks::{good, same, same_text, some};
use spiffe_id::{
    DEFAULT_SVID, SPIFFE_SCHEME, SPIFFE_SCHEME_PREFIX, SPIFFE_SOCKET_ENV, SpiffeId, SpiffeIdError,
    TrustDomain, have_same_text, reread_id, reread_trust_domain, reread_trust_domain_id,
    uri_has_spiffe_scheme,
};
use std::alloc::Global;
use std::collections::HashMap;
use std::process::Abort;

const IDS: &str = "spiffe://example.org = spiffe://example.org
spiffe://trustdomain/path1 = spiffe://trustdomain/path1
SPIFFE://Example.ORG/A/b-_.9 = spiffe://example.org/A/b-_.9
spiffe://a_b-c.9/.../..a = spiffe://a_b-c.9/.../..a
 = Empty
192.168.2.2:6688 = WrongScheme
http://domain.test/path = WrongScheme
spiffe:/domain.test/path = WrongScheme
x spiffe://domain.test = WrongScheme
spiffe:///path = MissingTrustDomain
spiffe:// = MissingTrustDomain
spiffe://domain.test:8080/p = BadTrustDomainChar
spiffe://user@domain.test/p = BadTrustDomainChar
spiffe://test.org/ = TrailingSlash
spiffe://test.org/a/ = TrailingSlash
spiffe://test.org// = EmptySegment
spiffe://test.org//a = EmptySegment
spiffe://test.org/./o = DotSegment
spiffe://test.org/o/.. = DotSegment
spiffe://test.org/a?q = BadPathSegmentChar
spiffe://test.org/a b = BadPathSegmentChar
http:///path = WrongScheme
http://a:1 = WrongScheme
http://a/ = WrongScheme
http://a//b = WrongScheme
http://a/. = WrongScheme
http://a/? = WrongScheme
spiffe:/// = MissingTrustDomain
spiffe:////b = MissingTrustDomain
spiffe:///. = MissingTrustDomain
spiffe:///? = MissingTrustDomain
spiffe://a:1/ = BadTrustDomainChar
spiffe://a:1//b = BadTrustDomainChar
spiffe://a:1/. = BadTrustDomainChar
spiffe://a:1/? = BadTrustDomainChar
spiffe://a/./ = DotSegment
spiffe://a/?/ = BadPathSegmentChar
spiffe://a//. = EmptySegment
spiffe://a/.//b = DotSegment
spiffe://a//? = EmptySegment
spiffe://a/?//b = BadPathSegmentChar
spiffe://a/./? = DotSegment
spiffe://a/?/. = BadPathSegmentChar
spiffe://a//./ = EmptySegment
spiffe://a/?/./ = BadPathSegmentChar";

const DOMAINS: &str = "domain.test = domain.test
Domain.TEST = domain.test
spiffe://example.org/path = example.org
spiffe://EXAMPLE.org/x = example.org
spiffe://a//?/./ = a
 = MissingTrustDomain
spiffe:// = MissingTrustDomain
spiffe:///path = MissingTrustDomain
http:/x = WrongScheme
http://domain.test = WrongScheme
://domain.test = WrongScheme
http:///x = WrongScheme
http://a:1 = WrongScheme
a?:/x = WrongScheme
domain.test:8080 = BadTrustDomainChar
domain/test = BadTrustDomainChar
spiffe://domain test/p = BadTrustDomainChar";

const SEGMENTS: &str = "path1,path2,path3 = spiffe://trustdomain/path1/path2/path3
,a/b,. = EmptySegment
a/b,., = BadPathSegmentChar
.,,? = DotSegment
a,..,? = DotSegment
a,b,? = BadPathSegmentChar
a,b, = EmptySegment
,a/b = EmptySegment
,.. = EmptySegment
,? = EmptySegment
a/b, = BadPathSegmentChar
a/b,.. = BadPathSegmentChar
.., = DotSegment
..,a/b = DotSegment
..,? = DotSegment
?, = BadPathSegmentChar
?,.. = BadPathSegmentChar";

const TOO_LONG_DOMAIN: &str = "TrustDomainTooLong { max: 255 }";

const TOO_LONG_ID: &str = "SpiffeIdTooLong { max: 2048 }";

fn id_or_rule(rt: &impl Abort, alloc: Global, text: &str) -> String {
    let answer = match SpiffeId::new(alloc, text) {
        Ok(id) => format!(in alloc; "{id}"),
        Err(rule) => format!(in alloc; "{rule:?}"),
    };
    good(rt, "memory", answer)
}

fn domain_or_rule(rt: &impl Abort, alloc: Global, text: &str) -> String {
    let answer = match TrustDomain::new(alloc, text) {
        Ok(domain) => format!(in alloc; "{domain}"),
        Err(rule) => format!(in alloc; "{rule:?}"),
    };
    good(rt, "memory", answer)
}

fn made_or_rule(rt: &impl Abort, alloc: Global, domain: &str, segments: &[String]) -> String {
    let domain = good(rt, "a trust domain", TrustDomain::new(alloc, domain));
    let answer = match SpiffeId::from_segments(alloc, domain, segments) {
        Ok(id) => format!(in alloc; "{id}"),
        Err(rule) => format!(in alloc; "{rule:?}"),
    };
    good(rt, "memory", answer)
}

// This many times the segment `a`, and then one more.
fn long_list(rt: &impl Abort, alloc: Global, count: u32, last: &str) -> Vec<String> {
    let mut segments = Vec::new(alloc);
    for _ in 0..count {
        let segment = good(rt, "memory", String::from_str(alloc, "a"));
        good(rt, "memory", segments.push(segment));
    }
    let segment = good(rt, "memory", String::from_str(alloc, last));
    good(rt, "memory", segments.push(segment));
    segments
}

#[test]
fn ids(rt: HostRuntime) {
    for row in IDS.lines() {
        let (text, wanted) = some(&rt, "an answer", row.split_once(" = "));
        same_text(&rt, row, id_or_rule(&rt, rt.alloc(), text).as_str(), wanted);
    }
}

#[test]
fn trust_domains(rt: HostRuntime) {
    for row in DOMAINS.lines() {
        let (text, wanted) = some(&rt, "an answer", row.split_once(" = "));
        same_text(
            &rt,
            row,
            domain_or_rule(&rt, rt.alloc(), text).as_str(),
            wanted,
        );
    }
}

#[test]
fn long_trust_domains(rt: HostRuntime) {
    let alloc = rt.alloc();
    for (before, byte, count, after, wanted) in [
        ("", "a", 255, "", ""),
        ("", "a", 256, "", TOO_LONG_DOMAIN),
        ("", "?", 256, "", TOO_LONG_DOMAIN),
        ("http://", "a", 256, "", "WrongScheme"),
        ("", "a", 256, ":/x", "WrongScheme"),
    ] {
        let name = good(&rt, "memory", byte.repeat(alloc, count));
        let text = good(&rt, "memory", format!(in alloc; "{before}{name}{after}"));
        let answer = domain_or_rule(&rt, alloc, text.as_str());
        let wanted = if wanted.is_empty() {
            text.as_str()
        } else {
            wanted
        };
        same_text(&rt, text.as_str(), answer.as_str(), wanted);
    }
}

// Each rule of a path behind a trust domain that fits, behind one that is too long, and behind another scheme.
#[test]
fn ids_of_long_trust_domains(rt: HostRuntime) {
    let alloc = rt.alloc();
    for (path, rule) in [
        ("/", "TrailingSlash"),
        ("//b", "EmptySegment"),
        ("/.", "DotSegment"),
        ("/?", "BadPathSegmentChar"),
    ] {
        for (before, byte, count, wanted) in [
            ("spiffe://", "a", 255, rule),
            ("spiffe://", "?", 256, TOO_LONG_DOMAIN),
            ("http://", "?", 256, "WrongScheme"),
        ] {
            let name = good(&rt, "memory", byte.repeat(alloc, count));
            let text = good(&rt, "memory", format!(in alloc; "{before}{name}{path}"));
            let answer = id_or_rule(&rt, alloc, text.as_str());
            same_text(&rt, text.as_str(), answer.as_str(), wanted);
        }
    }
}

#[test]
fn segments(rt: HostRuntime) {
    let alloc = rt.alloc();
    for row in SEGMENTS.lines() {
        let (list, wanted) = some(&rt, "an answer", row.split_once(" = "));
        let mut segments = Vec::new(alloc);
        for segment in list.split(',') {
            let segment = good(&rt, "memory", String::from_str(alloc, segment));
            good(&rt, "memory", segments.push(segment));
        }
        let answer = made_or_rule(&rt, alloc, "trustdomain", &segments);
        same_text(&rt, row, answer.as_str(), wanted);
    }
}

// The limit of an id that is made is on its bytes: 9 of the scheme, the trust domain, and two for each segment `a`.
#[test]
fn long_ids(rt: HostRuntime) {
    let alloc = rt.alloc();
    for (domain, count, last, wanted) in [
        ("example.org", 1013, "a", "spiffe://example.org/a/a"),
        ("example2.org", 1013, "a", TOO_LONG_ID),
        ("example.org", 1014, "a", TOO_LONG_ID),
        ("example.org", 1015, "", "EmptySegment"),
        ("example.org", 1015, "a/b", "BadPathSegmentChar"),
        ("example.org", 1015, "..", "DotSegment"),
        ("example.org", 1015, "?", "BadPathSegmentChar"),
        ("example.org", 0, "a", "spiffe://example.org/a"),
    ] {
        let segments = long_list(&rt, alloc, count, last);
        let answer = made_or_rule(&rt, alloc, domain, &segments);
        assert!(rt; answer.as_str().starts_with(wanted), "{count} of {domain}");
        assert!(rt; answer.len() <= 2048);
    }
    let none = Vec::new(alloc);
    let alone = made_or_rule(&rt, alloc, "example.org", &none);
    same_text(&rt, "no segment", alone.as_str(), "spiffe://example.org");
}

// The text of an id that is read has no limit.
#[test]
fn long_texts(rt: HostRuntime) {
    let alloc = rt.alloc();
    let path = good(&rt, "memory", "/a".repeat(alloc, 100_000));
    let text = good(&rt, "memory", format!(in alloc; "spiffe://a{path}"));
    let answer = id_or_rule(&rt, alloc, text.as_str());
    same_text(&rt, "a long text", answer.as_str(), text.as_str());
}

fn read(rt: &impl Abort, alloc: Global, text: &str) -> SpiffeId {
    good(rt, "an id", SpiffeId::new(alloc, text))
}

#[test]
fn accessors(rt: HostRuntime) {
    let alloc = rt.alloc();
    let id = read(&rt, alloc, "SPIFFE://A/B");
    same_text(&rt, "name", id.trust_domain_name(), "a");
    same_text(&rt, "path", id.path(), "/B");
    same_text(&rt, "domain", id.trust_domain().as_str(), "a");
    let text = good(&rt, "memory", id.trust_domain().id_string(alloc));
    same_text(&rt, "id", text.as_str(), "spiffe://a");
}

#[test]
fn printed_ids(rt: HostRuntime) {
    let alloc = rt.alloc();
    let id = read(&rt, alloc, "SPIFFE://A/B");
    let domain = id.trust_domain();
    let debug = good(&rt, "memory", format!(in alloc; "{id:?}"));
    let shown = "SpiffeId { trust_domain: TrustDomain { name: \"a\" }, path: \"/B\" }";
    same_text(&rt, "debug", debug.as_str(), shown);
    let padded = good(&rt, "memory", format!(in alloc; "{id:20}|{domain:5.0}|"));
    same_text(&rt, "padded", padded.as_str(), "spiffe://a/B|a|");
}

// An id is equal to its copy and to what is read back of it, and so is its trust domain.
#[test]
fn copies(rt: HostRuntime) {
    let alloc = rt.alloc();
    let id = read(&rt, alloc, "spiffe://a/B");
    let domain = id.trust_domain();
    assert!(rt; id.try_clone(alloc).is_ok_and(|copy| copy == id));
    assert!(rt; reread_id(alloc, &id).is_ok_and(|copy| copy == id));
    assert!(rt; domain.try_clone(alloc).is_ok_and(|copy| copy == *domain));
    assert!(rt; reread_trust_domain(alloc, domain).is_ok_and(|copy| copy == *domain));
    assert!(rt; reread_trust_domain_id(alloc, domain).is_ok_and(|copy| copy == *domain));
}

#[test]
fn comparisons(rt: HostRuntime) {
    let alloc = rt.alloc();
    let id = read(&rt, alloc, "spiffe://a/B");
    let other = read(&rt, alloc, "spiffe://a/b");
    assert!(rt; id < other);
    assert!(rt; id.is_member_of(other.trust_domain()));
    same(
        &rt,
        "texts",
        &have_same_text(alloc, &id, &other).ok(),
        &Some(false),
    );
    let mut places = HashMap::new(alloc);
    let before = places.insert(other, 2);
    same(&rt, "before", &before.ok(), &Some(None));
    assert!(rt; places.get(&id).is_none());
}

#[test]
fn names(rt: HostRuntime) {
    for (uri, has) in [
        ("sPiFfE://", true),
        ("spiffe:/domain.test", false),
        ("xspiffe://domain.test", false),
        ("http://spiffe://domain.test", false),
        ("", false),
    ] {
        same(&rt, uri, &uri_has_spiffe_scheme(uri), &has);
    }
    same_text(&rt, "scheme", SPIFFE_SCHEME, "spiffe");
    same_text(&rt, "prefix", SPIFFE_SCHEME_PREFIX, "spiffe://");
    same_text(&rt, "variable", SPIFFE_SOCKET_ENV, "SPIFFE_ENDPOINT_SOCKET");
    same(&rt, "default", &DEFAULT_SVID, &0);
}

#[test]
fn error_texts(rt: HostRuntime) {
    for (error, text) in [
        (SpiffeIdError::Empty, "cannot be empty"),
        (SpiffeIdError::MissingTrustDomain, "trust domain is missing"),
        (SpiffeIdError::WrongScheme, "scheme is missing or invalid"),
        (
            SpiffeIdError::EmptySegment,
            "path cannot contain empty segments",
        ),
        (
            SpiffeIdError::DotSegment,
            "path cannot contain dot segments",
        ),
        (
            SpiffeIdError::TrailingSlash,
            "path cannot have a trailing slash",
        ),
        (
            SpiffeIdError::BadTrustDomainChar,
            "trust domain may only contain ASCII letters (case-insensitive), digits, dots, dashes, and underscores",
        ),
        (
            SpiffeIdError::BadPathSegmentChar,
            "path segment characters are limited to letters, numbers, dots, dashes, and underscores",
        ),
        (
            SpiffeIdError::SpiffeIdTooLong { max: 2048 },
            "SPIFFE ID URI exceeds maximum length (2048 bytes)",
        ),
        (
            SpiffeIdError::TrustDomainTooLong { max: 255 },
            "trust domain exceeds maximum length (255 bytes)",
        ),
        (SpiffeIdError::OutOfMemory, "out of memory"),
    ] {
        let shown = good(&rt, "memory", format!(in rt.alloc(); "{error}"));
        same_text(&rt, "an error", shown.as_str(), text);
    }
}
