// A case has the parts of a token, an authority and what is asked of both, each in a line. A row has the answer to the case
// with these texts in place of others. The answers were worked out by hand from the rules in their order; `@` stands for 340
// times `_`, and an empty signature for the digest that the backend for tests calls good.
use crate::checks::{good, same_text, some};
use base64_alphabets::Base64UrlUnpadded;
use base64ct::Encoding;
use identity_verify::{DigestBackend, VerifyError, parse_and_validate};
use sha2::{Digest, Sha256};
use spiffe_bundle::{JwtBundle, JwtBundleSet};
use spiffe_id::TrustDomain;
use spiffe_token::JwtSvid;
use std::alloc::Global;
use std::convert::Infallible;
use std::process::Abort;

const ON_CURVE: &str = "header={\"alg\":\"ES256\",\"kid\":\"k1\",\"typ\":\"JWT\"}
claims={\"aud\":[\"a\"],\"exp\":1700000000,\"iat\":1600000000,\"sub\":\"spiffe://example.org/a\"}
key={\"kid\":\"k1\",\"kty\":\"EC\",\"crv\":\"P-256\",\"x\":\"AAAAAAAAAAAAAAAAAAAAAAAAAAAAAAAAAAAAAAAAAAA\",\"y\":\"AAAAAAAAAAAAAAAAAAAAAAAAA\
    AAAAAAAAAAAAAAAAAA\"}
domain=example.org
now=1600000000000000000
want=a
signature=
end=";

const RSA: &str = "header={\"kid\":\"k1\",\"alg\":\"RS256\"}
claims={\"aud\":[\"a\"],\"exp\":1700000000,\"iat\":1600000000,\"sub\":\"spiffe://example.org/a\"}
key={\"kid\":\"k1\",\"kty\":\"RSA\",\"n\":\"_@w\",\"e\":\"AQAB\"}
domain=example.org
now=1600000000000000000
want=a
signature=
end=";

// In the order of the rules.
const BREAKS: &str = "InvalidVerificationTime <= now=1600000000000000000 => now=-1
Token(InvalidJwtFormat) <= end= => end=.x
InvalidJoseHeader(Shape) <= {\"alg\" => {\"x5c\":[],\"alg\"
Token(InvalidJson(Syntax)) <= \"iat\":1600000000 => \"iat\":
Token(InvalidSubject(WrongScheme)) <= \"sub\":\"spiffe => \"sub\":\"x
InvalidNotBefore <= \"aud\":[\"a\"] => \"aud\":[\"a\"],\"nbf\":null
BackendUnsupportedAlgorithm(ES512) <= \"ES256\" => \"ES512\"
BundleNotFound example.org <= domain=example.org => domain=other.org
AuthorityNotFound(\"k1\") <= \"kid\":\"k1\",\"kty\" => \"kid\":\"k2\",\"kty\"
InvalidAuthorityMetadata(Alg) <= \"crv\": => \"alg\":7,\"crv\":
InvalidAuthorityMetadata(Use) <= \"y\": => \"use\":7,\"y\":
InvalidAuthorityMetadata(KeyOps) <= \"x\": => \"key_ops\":7,\"x\":
InvalidAuthorityMetadata(Kty) <= \"EC\" => \"OKP\"
InvalidToken(JwtVerificationError { kind: Other }) <= signature= => signature=!
InvalidToken(JwtVerificationError { kind: AudienceMismatch }) <= want=a => want=b
InvalidToken(JwtVerificationError { kind: Expired }) <= \"exp\":1700000000 => \"exp\":1500000000";

// The same for a key of RSA, and one row for each that a component of it can break.
const RSA_BREAKS: &str = "InvalidVerificationTime <= now=1600000000000000000 => now=-1
Token(InvalidJwtFormat) <= end= => end=.x
InvalidJoseHeader(Shape) <= \"alg\" => \"x5c\":[],\"alg\"
Token(InvalidJson(Syntax)) <= \"iat\":1600000000 => \"iat\":
Token(InvalidSubject(WrongScheme)) <= \"sub\":\"spiffe => \"sub\":\"x
InvalidNotBefore <= \"aud\":[\"a\"] => \"aud\":[\"a\"],\"nbf\":null
BackendUnsupportedAlgorithm(ES512) <= \"RS256\" => \"ES512\"
BundleNotFound example.org <= domain=example.org => domain=other.org
AuthorityNotFound(\"k3\") <= {\"kid\":\"k1\" => {\"kid\":\"k3\"
InvalidAuthorityMetadata(Alg) <= \"kty\": => \"alg\":7,\"kty\":
InvalidAuthorityMetadata(Use) <= \"kty\": => \"use\":7,\"kty\":
InvalidAuthorityMetadata(KeyOps) <= \"kty\": => \"key_ops\":7,\"kty\":
InvalidAuthorityMetadata(Kty) <= \"RSA\" => \"OKP\"
InvalidAuthorityMetadata(N) <= \"n\": => \"m\":
InvalidAuthorityKeyComponent(N) <= w\" => _\"
NonCanonicalRsaComponent(N) <= \"n\":\"_ => \"n\":\"AP
InvalidAuthorityMetadata(E) <= \"e\": => \"f\":
InvalidAuthorityKeyComponent(E) <= AQAB\" => AQAB=\"
NonCanonicalRsaComponent(E) <= :\"AQAB => :\"AAAAAQAB
WeakRsaAuthority(8) <= @w => w
InvalidToken(JwtVerificationError { kind: Other }) <= signature= => signature=!
InvalidToken(JwtVerificationError { kind: AudienceMismatch }) <= want=a => want=b
InvalidToken(JwtVerificationError { kind: Expired }) <= \"exp\":1700000000 => \"exp\":1500000000";

const ON_CURVE_ROWS: &str = "spiffe://example.org/a <= 
spiffe://example.org/a <= \"iat\" => \"nbf\":1.6e9,\"iat\"
spiffe://example.org/a <= \"iat\" => \"nbf\":-1,\"iat\"
spiffe://example.org/a <= \"iat\" => \"nbf\":1600000000.000,\"iat\"
InvalidToken(JwtVerificationError { kind: NotYetValid }) <= \"iat\" => \"nbf\":1600000000.5,\"iat\"
InvalidToken(JwtVerificationError { kind: NotYetValid }) <= \"iat\" => \"nbf\":1600000000.000000001,\"iat\"
InvalidNotBefore <= \"iat\" => \"nbf\":1600000000.0000000001,\"iat\"
InvalidNotBefore <= \"iat\" => \"nbf\":1,\"nbf\":1,\"iat\"
InvalidNotBefore <= \"iat\" => \"nbf\":\"1\",\"iat\"
InvalidToken(JwtVerificationError { kind: Expired }) <= now=1600000000000000000 => now=1700000000000000000
spiffe://example.org/a <= now=1600000000000000000 => now=1699999999999999999
InvalidToken(JwtVerificationError { kind: Expired }) <= now=1600000000000000000 => now=253402300799999999999
InvalidVerificationTime <= now=1600000000000000000 => now=253402300800000000000
InvalidToken(JwtVerificationError { kind: InvalidSignature }) <= signature= => signature=c2ln
InvalidToken(JwtVerificationError { kind: Other }) <= signature= => signature=-
InvalidToken(JwtVerificationError { kind: AudienceMismatch }) <= want=a => want=
spiffe://example.org/a <= \"aud\":[\"a\"] => \"aud\":[\"b\",\"c\",\"a\"] ; want=a => want=d a
spiffe://example.org/a <= want=a => want=b a c
Token(InvalidBase64) <= end= => end=~
InvalidJoseHeader(Syntax) <= {\"alg\" => {,\"alg\"
InvalidJoseHeader(Number) <= {\"alg\" => {\"n\":1.5,\"alg\"
InvalidJoseHeader(Shape) <= \"typ\":\"JWT\" => \"typ\":null
InvalidJoseHeader(Shape) <= \"typ\" => \"alg\":\"ES256\",\"typ\"
Token(InvalidTyp) <= \"JWT\" => \"jwt\"
Token(MissingKeyId) <= \"kid\":\"k1\",\"typ\" => \"kid\":null,\"typ\"
Token(UnsupportedAlgorithm) <= \"ES256\" => \"HS256\"
Token(InvalidJson(Number)) <= \"iat\":1600000000 => \"iat\":1.5
Token(InvalidJson(Shape)) <= \"iat\" => \"sub\":\"x\",\"iat\"
Token(InvalidExpiration) <= \"exp\":1700000000 => \"exp\":253402300800
AuthorityNotFound(\"k2\") <= \"kid\":\"k1\",\"typ\" => \"kid\":\"k2\",\"typ\"
InvalidAuthorityMetadata(Alg) <= \"crv\": => \"alg\":\"ES512\",\"crv\":
AuthorityAlgorithmMismatch { authority: ES384, token: ES256 } <= \"crv\": => \"alg\":\"ES384\",\"crv\":
spiffe://example.org/a <= \"crv\": => \"alg\":\"ES256\",\"crv\":
UnsupportedAuthorityPurpose <= \"crv\": => \"use\":\"enc\",\"crv\":
spiffe://example.org/a <= \"crv\": => \"use\":\"sig\",\"crv\":
spiffe://example.org/a <= \"crv\": => \"use\":\"jwt-svid\",\"crv\":
InvalidAuthorityMetadata(KeyOps) <= \"crv\": => \"key_ops\":[\"verify\",\"verify\"],\"crv\":
InvalidAuthorityMetadata(KeyOps) <= \"crv\": => \"key_ops\":[\"verify\",1],\"crv\":
AuthorityVerificationNotPermitted <= \"crv\": => \"key_ops\":[\"sign\"],\"crv\":
AuthorityVerificationNotPermitted <= \"crv\": => \"key_ops\":[],\"crv\":
spiffe://example.org/a <= \"crv\": => \"key_ops\":[\"verify\",\"encrypt\"],\"crv\":
InvalidAuthorityMetadata(KeyOps) <= \"crv\": => \"use\":\"sig\",\"key_ops\":[\"verify\",\"encrypt\"],\"crv\":
spiffe://example.org/a <= \"crv\": => \"use\":\"sig\",\"key_ops\":[\"sign\",\"verify\"],\"crv\":
InvalidAuthorityMetadata(Crv) <= P-256 => secp256k1
AuthorityCurveMismatch(ES256) <= P-256 => P-384
AuthorityCurveMismatch(ES256) <= P-256 => Ed25519
InvalidAuthorityMetadata(Crv) <= \"P-256\" => 1
InvalidAuthorityMetadata(Kty) <= \"EC\" => \"RSA\"
InvalidAuthorityKeyComponent(X) <= \"x\":\"A => \"x\":\"
InvalidAuthorityKeyComponent(X) <= \"x\":\"A => \"x\":\"AA
InvalidAuthorityKeyComponent(Y) <= \"y\":\"A => \"y\":\"
InvalidAuthorityKeyComponent(Y) <= \"y\":\"A => \"y\":\"AA
InvalidAuthorityMetadata(X) <= \"x\": => \"X\":
InvalidAuthorityMetadata(Y) <= \"y\": => \"z\":
InvalidAuthorityKeyComponent(Y) <= A\"} => B\"}
AuthorityCurveMismatch(ES384) <= \"ES256\" => \"ES384\"
InvalidAuthorityKeyComponent(X) <= \"ES256\" => \"ES384\" ; P-256 => P-384
InvalidAuthorityKeyComponent(Y) <= \"ES256\" => \"ES384\" ; P-256 => P-384 ; \"x\":\" => \"x\":\"AAAAAAAAAAAAAAAAAAAAA
spiffe://example.org/a <= \"ES256\" => \"ES384\" ; P-256 => P-384 ; \"x\":\" => \"x\":\"AAAAAAAAAAAAAAAAAAAAA ; \"y\":\" => \"y\":\"AAAAAAAAAAAAAAAAAAAAA
InvalidAuthorityKeyComponent(X) <= \"ES256\" => \"ES384\" ; P-256 => P-384 ; \"x\":\" => \"x\":\"AAAAAAAAAAAAAAAAAAAAAAA
InvalidAuthorityKeyComponent(X) <= \"ES256\" => \"ES384\" ; P-256 => P-384 ; \"x\":\" => \"x\":\"AAAAAAAAAAAAAAAAAAAA
InvalidAuthorityMetadata(Kty) <= \"ES256\" => \"RS256\"";

const RSA_ROWS: &str = "spiffe://example.org/a <= 
spiffe://example.org/a <= \"RS256\" => \"PS512\"
InvalidAuthorityMetadata(Kty) <= \"RSA\" => \"EC\"
WeakRsaAuthority(2047) <= \"_@w\" => \"f@w\"
NonCanonicalRsaComponent(N) <= \"_@w\" => \"AP@8\"
WeakRsaAuthority(17) <= \"_@w\" => \"AQAB\"
WeakRsaAuthority(1) <= \"_@w\" => \"AQ\"
InvalidAuthorityMetadata(N) <= \"n\": => \"m\":
InvalidAuthorityKeyComponent(N) <= \"_@w\" => \"_@_\"
InvalidAuthorityKeyComponent(N) <= \"_@w\" => \"\"
InvalidAuthorityKeyComponent(N) <= \"_@w\" => \"AA\"
InvalidAuthorityMetadata(E) <= \"AQAB\" => 65537
InvalidAuthorityKeyComponent(E) <= \"AQAB\" => \"AQAB=\"
InvalidAuthorityKeyComponent(E) <= \"AQAB\" => \"AA\"
InvalidAuthorityKeyComponent(E) <= \"AQAB\" => \"\"
NonCanonicalRsaComponent(E) <= \"AQAB\" => \"AAEAAQ\"
spiffe://example.org/a <= \"AQAB\" => \"Aw\"
NonCanonicalRsaComponent(E) <= \"_@w\" => \"AQ\" ; \"AQAB\" => \"AAEAAQ\"
InvalidAuthorityMetadata(Kty) <= \"RS256\" => \"ES256\"";

fn changed(rt: &impl Abort, alloc: Global, case: &str, changes: &str) -> String {
    let mut text = good(rt, "memory", String::from_str(alloc, case));
    for change in changes.split(" ; ") {
        if let Some((old, new)) = change.split_once(" => ") {
            let (before, after) = some(rt, "the old text", text.as_str().split_once(old));
            text = good(rt, "memory", format!(in alloc; "{before}{new}{after}"));
        }
    }
    text
}

fn line_of<'c>(rt: &impl Abort, case: &'c str, name: &str) -> &'c str {
    for line in case.lines() {
        if let Some((key, value)) = line.split_once("=") {
            if key == name {
                return value;
            }
        }
    }
    let none: Option<&str> = None;
    some(rt, "a line of that name", none)
}

fn set_of(rt: &impl Abort, alloc: Global, domain: &str, key: &str) -> JwtBundleSet {
    let keys = good(rt, "memory", format!(in alloc; "{{\"keys\":[{key}]}}"));
    let domain = good(rt, "a trust domain", TrustDomain::new(alloc, domain));
    let bundle = JwtBundle::from_jwt_authorities(alloc, domain, keys.as_bytes());
    let mut set = JwtBundleSet::new(alloc);
    good(rt, "memory", set.add_bundle(good(rt, "keys", bundle)));
    set
}

// The key without blanks and with its members in ascending order, as an authority has it.
fn canonical(rt: &impl Abort, alloc: Global, key: &str) -> String {
    let bytes = match spiffe_bundle::JwtAuthority::from_jwk_json(alloc, key.as_bytes()) {
        Ok(authority) => Vec::from_slice(alloc, authority.jwk_json()),
        Err(_) => Vec::from_slice(alloc, b""),
    };
    good(rt, "text", String::from_utf8(good(rt, "memory", bytes)))
}

fn encoded(rt: &impl Abort, alloc: Global, bytes: &[u8]) -> String {
    good(rt, "memory", Base64UrlUnpadded::encode_string(alloc, bytes))
}

fn token_of(rt: &impl Abort, alloc: Global, case: &str, key: &str) -> String {
    let header = encoded(rt, alloc, line_of(rt, case, "header").as_bytes());
    let claims = encoded(rt, alloc, line_of(rt, case, "claims").as_bytes());
    let message = good(rt, "memory", format!(in alloc; "{header}.{claims}"));
    let mut hasher = Sha256::new();
    hasher.update(canonical(rt, alloc, key).as_bytes());
    hasher.update(message.as_bytes());
    let digest = encoded(rt, alloc, hasher.finalize().as_slice());
    let signature = match line_of(rt, case, "signature") {
        "" => digest.as_str(),
        "-" => "",
        other => other,
    };
    let end = line_of(rt, case, "end");
    let token = match end {
        "~" => format!(in alloc; "~{message}.{signature}"),
        _ => format!(in alloc; "{message}.{signature}{end}"),
    };
    good(rt, "memory", token)
}

fn shown(
    rt: &impl Abort,
    alloc: Global,
    answer: Result<JwtSvid, VerifyError<Infallible>>,
) -> String {
    let text = match answer {
        Ok(svid) => format!(in alloc; "{}", svid.spiffe_id()),
        Err(VerifyError::BundleNotFound(domain)) => format!(in alloc; "BundleNotFound {domain}"),
        Err(cause) => format!(in alloc; "{cause:?}"),
    };
    good(rt, "memory", text)
}

fn answer(rt: &impl Abort, alloc: Global, case: &str) -> String {
    let middle = good(rt, "memory", "_".repeat(alloc, 340));
    let key = match line_of(rt, case, "key").split_once("@") {
        Some((before, after)) => format!(in alloc; "{before}{middle}{after}"),
        None => String::from_str(alloc, line_of(rt, case, "key")),
    };
    let key = good(rt, "memory", key);
    let bundles = set_of(rt, alloc, line_of(rt, case, "domain"), key.as_str());
    let token = token_of(rt, alloc, case, key.as_str());
    let now = good(rt, "a time", line_of(rt, case, "now").parse::<i128>());
    let mut expected = Vec::new(alloc);
    for audience in line_of(rt, case, "want").split_whitespace() {
        let audience = good(rt, "memory", String::from_str(alloc, audience));
        good(rt, "memory", expected.push(audience));
    }
    let answer = parse_and_validate(
        alloc,
        token.as_str(),
        &bundles,
        &expected,
        now,
        &DigestBackend,
    );
    shown(rt, alloc, answer)
}

fn check_rows(rt: &impl Abort, alloc: Global, case: &str, rows: &str) {
    for row in rows.lines() {
        let (wanted, changes) = some(rt, "an answer", row.split_once(" <= "));
        let found = answer(rt, alloc, changed(rt, alloc, case, changes).as_str());
        same_text(rt, row, found.as_str(), wanted);
    }
}

#[test]
fn keys_on_curves(rt: HostRuntime) {
    check_rows(&rt, rt.alloc(), ON_CURVE, ON_CURVE_ROWS);
}

#[test]
fn rsa_keys(rt: HostRuntime) {
    check_rows(&rt, rt.alloc(), RSA, RSA_ROWS);
}

// Each rule broken alone, and before each later one.
fn check_breaks(rt: &impl Abort, alloc: Global, case: &str, breaks: &str) {
    check_rows(rt, alloc, case, breaks);
    for (i, row) in breaks.lines().enumerate() {
        let (_, changes) = some(rt, "an answer", row.split_once(" <= "));
        let later = changed(rt, alloc, case, changes);
        for (j, row) in breaks.lines().enumerate() {
            if j < i {
                check_rows(rt, alloc, later.as_str(), row);
            }
        }
    }
}

#[test]
fn first_broken_rule(rt: HostRuntime) {
    check_breaks(&rt, rt.alloc(), ON_CURVE, BREAKS);
    check_breaks(&rt, rt.alloc(), RSA, RSA_BREAKS);
}
