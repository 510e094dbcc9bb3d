// Expected values are made by hand from the rules of a key set in their order. In the tables a row is an input, ` = ` and the
// answer: the compact JSON of the value, or the name of the first broken rule.
ghost use Rattle.std.specs.Prelude.{IfOk, is_some, ◌≡◌, ◌<◌};

use crate::checks::{good, same, same_text, some};
use spiffe_core::{BundleSource, JwtAuthority, JwtBundle, JwtBundleError, JwtBundleSet};
use spiffe_id::TrustDomain;
use spiffe_json::JsonError;
use std::alloc::Global;
use std::process::Abort;

const KEYS: &str = "{\"kty\":\"oct\",\"kid\":\"a\"} = {\"kid\":\"a\",\"kty\":\"oct\"}
{ \"z\" : -3, \"kid\" : \"k\", \"z\" : [ 1, {} ] } = {\"kid\":\"k\",\"z\":[1,{}]}
{\"kid\":\"a\",\"x\":1.5,\"x\":2} = {\"kid\":\"a\",\"x\":2}
{\"kid\":\"\"} = {\"kid\":\"\"}
{\"k\\u0069d\":\"\\u0061\\/\"} = {\"kid\":\"a/\"}
{\"kid\":1,\"kid\":\"b\"} = {\"kid\":\"b\"}
{\"kid\":18446744073709551615} = MissingKeyId
{\"kid\":null} = MissingKeyId
{\"kty\":\"EC\"} = MissingKeyId
[\"kid\"] = MissingKeyId
{ = Deserialize(Syntax)
{\"kid\":\"a\",\"n\":1e400} = Deserialize(Syntax)
{\"kid\":\"a\",\"n\":-0} = Deserialize(Number)
{\"n\":1.0} = Deserialize(Number)";

const SETS: &str = "{\"keys\": []} = 
{\"keys\":[{\"kid\":\"b\"},{\"kid\":\"a\"}],\"x\":[]} = {\"kid\":\"a\"}{\"kid\":\"b\"}
{\"keys\":[{\"kid\":\"a\",\"n\":1},{\"kid\":\"a\",\"n\":2}]} = {\"kid\":\"a\",\"n\":2}
{\"keys\":[{\"kid\":\"a\",\"n\":1.5}]} = Deserialize(Number)
{\"keys\":[{\"kid\":\"a\",\"n\":-0}]} = Deserialize(Number)
{\"keys\":[{\"kty\":\"EC\"}]} = MissingKeyId
{\"keys\":[7]} = MissingKeyId
{\"keys\":[{\"kid\":\"a\"},7]} = MissingKeyId
{\"k\":0} = Deserialize(Keys)
{\"keys\":{}} = Deserialize(Keys)
[] = Deserialize(Keys)
{\"k\":[7.5]} = Deserialize(Number)
{ = Deserialize(Syntax)";

fn key_or_rule(rt: &impl Abort, alloc: Global, json: &str) -> String {
    let text = match JwtAuthority::from_jwk_json(alloc, json.as_bytes()) {
        Ok(key) => String::from_utf8_lossy(alloc, key.jwk_json()),
        Err(rule) => format!(in alloc; "{rule:?}"),
    };
    good(rt, "memory", text)
}

// The JSON of all authorities, one after another.
fn bundle_text(rt: &impl Abort, alloc: Global, bundle: &JwtBundle) -> String {
    let mut text = String::new(alloc);
    for authority in bundle.jwt_authorities() {
        let json = good(
            rt,
            "memory",
            String::from_utf8_lossy(alloc, authority.jwk_json()),
        );
        good(rt, "memory", text.push_str(json.as_str()));
    }
    text
}

fn domain(rt: &impl Abort, alloc: Global, name: &str) -> TrustDomain {
    good(rt, "a trust domain", TrustDomain::new(alloc, name))
}

fn keys_or_rule(rt: &impl Abort, alloc: Global, jwks: &str) -> String {
    let domain = domain(rt, alloc, "domain.test");
    match JwtBundle::from_jwt_authorities(alloc, domain, jwks.as_bytes()) {
        Ok(bundle) => bundle_text(rt, alloc, &bundle),
        Err(rule) => good(rt, "memory", format!(in alloc; "{rule:?}")),
    }
}

// Each trust domain with the JSON of its authorities.
fn set_text(rt: &impl Abort, alloc: Global, set: &JwtBundleSet) -> String {
    let mut text = String::new(alloc);
    for (domain, bundle) in set.iter() {
        good(rt, "memory", text.push_str(domain.as_str()));
        let authorities = bundle_text(rt, alloc, bundle);
        good(rt, "memory", text.push_str(authorities.as_str()));
    }
    text
}

fn bundle_of(rt: &impl Abort, alloc: Global, name: &str, jwks: &str) -> JwtBundle {
    let domain = domain(rt, alloc, name);
    good(
        rt,
        "a key set",
        JwtBundle::from_jwt_authorities(alloc, domain, jwks.as_bytes()),
    )
}

// Whether a source, of which only its contract is known, has a bundle for the trust domain.
fn has_bundle<S: BundleSource>(source: &S, trust_domain: &TrustDomain) -> bool
where
    S::Error: Drop,
    ensures { IfOk (S.answer source.now trust_domain.now) (λ o. result ≡ is_some o) }
{
    match source.bundle_for_trust_domain(trust_domain) {
        Ok(found) => found.is_some(),
        Err(_) => false,
    }
}

// A hundred trust domains, added in the order that the step gives.
fn hundred(rt: &impl Abort, alloc: Global, step: u32) -> JwtBundleSet
    requires { step < 100 }
{
    let mut set = JwtBundleSet::new(alloc);
    for i in 0u32..100 {
        let name = good(
            rt,
            "memory",
            format!(in alloc; "d{}.test", 100 + i * step % 100),
        );
        let domain = domain(rt, alloc, name.as_str());
        good(rt, "memory", set.add_bundle(JwtBundle::new(alloc, domain)));
    }
    set
}

#[test]
fn keys(rt: HostRuntime) {
    for row in KEYS.lines() {
        let (json, wanted) = some(&rt, "an answer", row.split_once(" = "));
        same_text(
            &rt,
            row,
            key_or_rule(&rt, rt.alloc(), json).as_str(),
            wanted,
        );
    }
}

#[test]
fn key_sets(rt: HostRuntime) {
    for row in SETS.lines() {
        let (jwks, wanted) = some(&rt, "an answer", row.split_once(" = "));
        same_text(
            &rt,
            row,
            keys_or_rule(&rt, rt.alloc(), jwks).as_str(),
            wanted,
        );
    }
}

const KEY: &[u8] = b"{\"kty\":\"oct\",\"kid\":\"a\"}";

fn with_one_key(rt: &impl Abort, alloc: Global) -> JwtBundle {
    let mut bundle = JwtBundle::new(alloc, domain(rt, alloc, "domain.test"));
    let authority = good(rt, "a key", JwtAuthority::from_jwk_json(alloc, KEY));
    good(rt, "memory", bundle.add_jwt_authority(authority));
    good(rt, "a key", bundle.add_jwk_authority_json(KEY));
    bundle
}

#[test]
fn bundles(rt: HostRuntime) {
    let alloc = rt.alloc();
    let bundle = with_one_key(&rt, alloc);
    let text = bundle_text(&rt, alloc, &bundle);
    same_text(
        &rt,
        "keys",
        text.as_str(),
        "{\"kid\":\"a\",\"kty\":\"oct\"}",
    );
    same_text(&rt, "domain", bundle.trust_domain().as_str(), "domain.test");
    assert!(rt; bundle.find_jwt_authority("b").is_none());
    let found = some(&rt, "an authority", bundle.find_jwt_authority("a"));
    same_text(&rt, "key id", found.key_id(), "a");
    assert!(rt; found.try_clone(alloc).is_ok_and(|copy| copy == **found));
    assert!(rt; bundle.try_clone(alloc).is_ok_and(|copy| copy == bundle));
}

fn replaced(rt: &impl Abort, alloc: Global) -> JwtBundleSet {
    let mut set = JwtBundleSet::new(alloc);
    for keys in [
        "{\"keys\":[{\"kid\":\"kid-old\"}]}",
        "{\"keys\":[{\"kid\":\"kid-new\"}]}",
    ] {
        let bundle = bundle_of(rt, alloc, "replace.test", keys);
        good(rt, "memory", set.add_bundle(bundle));
    }
    set
}

fn pair(rt: &impl Abort, alloc: Global) -> Vec<JwtBundle> {
    let mut bundles = Vec::new(alloc);
    for (name, keys) in [
        ("b.test", "{\"keys\":[]}"),
        ("a.test", "{\"keys\":[{\"kid\":\"k\"}]}"),
    ] {
        let bundle = bundle_of(rt, alloc, name, keys);
        good(rt, "memory", bundles.push(bundle));
    }
    bundles
}

#[test]
fn sets(rt: HostRuntime) {
    let alloc = rt.alloc();
    assert!(rt; JwtBundleSet::new(alloc).is_empty());
    let mut set = replaced(&rt, alloc);
    same(&rt, "replaced", &set.len(), &1);
    let text = set_text(&rt, alloc, &set);
    same_text(
        &rt,
        "replaced",
        text.as_str(),
        "replace.test{\"kid\":\"kid-new\"}",
    );
    good(&rt, "memory", set.try_extend(pair(&rt, alloc)));
    same(&rt, "extended", &set.len(), &3);
    let text = set_text(&rt, alloc, &set);
    let shown = "a.test{\"kid\":\"k\"}b.testreplace.test{\"kid\":\"kid-new\"}";
    same_text(&rt, "extended", text.as_str(), shown);
}

#[test]
fn looking_up(rt: HostRuntime) {
    let alloc = rt.alloc();
    let set = good(
        &rt,
        "memory",
        JwtBundleSet::try_from_bundles(alloc, pair(&rt, alloc)),
    );
    same(&rt, "a pair", &set.len(), &2);
    assert!(rt; set.try_clone(alloc).is_ok_and(|copy| copy == set));
    for (name, is_there) in [("A.test", true), ("c.test", false)] {
        let domain = domain(&rt, alloc, name);
        let shared = good(&rt, "a share", set.get(&domain));
        same(&rt, "get", &shared.is_some(), &is_there);
        same(&rt, "get_ref", &set.get_ref(&domain).is_some(), &is_there);
        same(
            &rt,
            "bundle_for",
            &set.bundle_for(&domain).is_some(),
            &is_there,
        );
        same(&rt, "as a source", &has_bundle(&set, &domain), &is_there);
    }
}

#[test]
fn order(rt: HostRuntime) {
    let alloc = rt.alloc();
    let mut ascending = String::new(alloc);
    for n in 100u32..200 {
        let name = good(&rt, "memory", format!(in alloc; "d{n}.test"));
        good(&rt, "memory", ascending.push_str(name.as_str()));
    }
    for step in [1u32, 37, 99] {
        let set = hundred(&rt, alloc, step % 100);
        let text = set_text(&rt, alloc, &set);
        same_text(&rt, "ascending", text.as_str(), ascending.as_str());
    }
}

// A key set of this many keys, each as long as a 2,048-bit RSA key's.
fn large_key_set(rt: &impl Abort, alloc: Global, count: u32) -> String {
    let modulus = good(rt, "memory", "A".repeat(alloc, 342));
    let mut text = good(
        rt,
        "memory",
        String::from_str(alloc, "{\"keys\":[{\"kid\":\"\"}"),
    );
    for i in 0..count {
        let key = format!(in alloc;
            ",{{\"kid\":\"{i}\",\"kty\":\"RSA\",\"n\":\"{modulus}\",\"e\":\"AQAB\"}}"
        );
        let key = good(rt, "memory", key);
        good(rt, "memory", text.push_str(key.as_str()));
    }
    good(rt, "memory", text.push_str("]}"));
    text
}

#[test]
fn large_and_deep_key_sets(rt: HostRuntime) {
    let alloc = rt.alloc();
    let jwks = large_key_set(&rt, alloc, 400);
    let bundle = bundle_of(&rt, alloc, "domain.test", jwks.as_str());
    same(&rt, "keys", &bundle.jwt_authorities().count(), &401);
    // The set, its array and the key are three of the 127 levels.
    for (levels, is_read) in [(124, true), (125, false)] {
        let open = good(&rt, "memory", "[".repeat(alloc, levels));
        let close = good(&rt, "memory", "]".repeat(alloc, levels));
        let jwks = format!(in alloc; "{{\"keys\":[{{\"kid\":\"a\",\"x\":{open}{close}}}]}}");
        let jwks = good(&rt, "memory", jwks);
        let read = JwtBundle::from_jwt_authorities(
            alloc,
            domain(&rt, alloc, "domain.test"),
            jwks.as_bytes(),
        );
        same(&rt, jwks.as_str(), &read.is_ok(), &is_read);
    }
}

#[test]
fn texts(rt: HostRuntime) {
    let alloc = rt.alloc();
    for (error, text) in [
        (JwtBundleError::MissingKeyId, "missing key ID"),
        (
            JwtBundleError::Deserialize(JsonError::Keys),
            "cannot deserialize json jwk set",
        ),
        (JwtBundleError::OutOfMemory, "out of memory"),
    ] {
        let shown = good(&rt, "memory", format!(in alloc; "{error}"));
        same_text(&rt, "an error", shown.as_str(), text);
    }
    let key = JwtAuthority::from_jwk_json(alloc, b"{\"kid\":\"a\"}".as_slice());
    let debug = good(&rt, "memory", format!(in alloc; "{key:?}"));
    same_text(
        &rt,
        "a key",
        debug.as_str(),
        "Ok(JwtAuthority { kid: \"a\", jwk_json: [123, 34, 107, 105, 100, 34, 58, 34, 97, 34, 125] })",
    );
    let mut set = JwtBundleSet::new(alloc);
    good(
        &rt,
        "memory",
        set.add_bundle(JwtBundle::new(alloc, domain(&rt, alloc, "a"))),
    );
    let debug = good(&rt, "memory", format!(in alloc; "{set:?}"));
    same_text(
        &rt,
        "a set",
        debug.as_str(),
        "JwtBundleSet { bundles: {TrustDomain { name: \"a\" }: JwtBundle { trust_domain: TrustDomain { name: \"a\" }, jwt_authorities: {} }} }",
    );
}
