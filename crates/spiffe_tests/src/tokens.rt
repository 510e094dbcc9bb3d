// A row of PARTS is a header, claims and the answer, a row of TOKENS a token and the answer: what the token says, or the name
// of the first rule that it breaks.
use crate::checks::{good, same, same_text, some};
use spiffe_token::{JwtSvid, JwtSvidError};
use std::alloc::Global;
use std::process::Abort;

const HEADER: &str = "{\"alg\":\"ES256\",\"kid\":\"k1\",\"typ\":\"JWT\"}";

const CLAIMS: &str =
    "{\"aud\":[\"a\"],\"exp\":1700000000,\"iat\":1600000000,\"sub\":\"spiffe://example.org/a\"}";

const TOKEN: &str =
    "eyJhbGciOiJFUzI1NiIsImtpZCI6ImsxIiwidHlwIjoiSldUIn0.eyJhdWQiOlsiYSJdLCJleHAiOjE3MDAwMDAwMDAsImlhdCI6MTYwMDAwMDAwMCwic3ViIjoic3BpZmZlOi8\
         vZXhhbXBsZS5vcmcvYSJ9.c2ln";

// Made by openssl: the header {"typ":"JOSE","kid":"authority-7","alg":"RS256"} and the claims
// {"sub":"spiffe://Domain.test/Web/api","aud":["spiffe://peer.test/db","other"],"exp":1893456000,"iat":1893452400} each by
// `openssl base64 -A | tr '+/' '-_' | tr -d '='`, and so the signature that `openssl dgst -sha256 -sign` gave of both with a dot between.
const SIGNED: &str =
    "eyJ0eXAiOiJKT1NFIiwia2lkIjoiYXV0aG9yaXR5LTciLCJhbGciOiJSUzI1NiJ9.eyJzdWIiOiJzcGlmZmU6Ly9Eb21haW4udGVzdC9XZWIvYXBpIiwiYXVkIjpbInNwaWZmZTovL3BlZXIudGVzd\
C9kYiIsIm90aGVyIl0sImV4cCI6MTg5MzQ1NjAwMCwiaWF0IjoxODkzNDUyNDAwfQ.dfyUo6-En1kWjpieR4OUX_8OwlaXP6zpblKGu58ODEvNVXXhXargmP2AymQh4ub0_HIV-pGEYy4FR5JtRaRR\
yrSwhgBDPrwMpXZprZq-yUteUnrIc9XKSFS5ZZlNuRSabyC6VCkuz7byr0OXriYhSAAK-GDQnAlC8OaZrmQ3-n4kj1yyfr3PtxKpt2NyuKgcI3Cv9xBPncCJSak5wwFcrF3zKYIX-ANzVi7JjKWtfb\
TmyQi6ZmDxm-2qq1rDgvXWwpHZZCmVwE197_ZWj7CWDZmhklfv3wYC_seib0w4ySzbd0H5f2JpEd8O8V1-JzG-Ib0pYssEY9ewpGVhyfcdnw";

const PARTS: &str =
    "{\"alg\":\"ES256\",\"kid\":\"k1\",\"typ\":\"JWT\"} = {\"aud\":[\"a\"],\"exp\":1700000000,\"sub\":\"spiffe://example.org/a\"} = k1 spiff\
    e://example.org/a a; 1700000000 ES256
{ = {\"aud\":[\"a\"],\"exp\":1700000000,\"sub\":\"spiffe://example.org/a\"} = InvalidJson(Syntax)
{ = { = InvalidJson(Syntax)
{\"alg\":\"ES256\",\"kid\":\"k1\",\"n\":[1.5]} = {\"aud\":[\"a\"],\"exp\":1700000000,\"sub\":\"spiffe://example.org/a\"} = InvalidJson(Number)
{\"alg\":7,\"typ\":\"X\",\"n\":-0} = { = InvalidJson(Number)
{} = {\"aud\":[\"a\"],\"exp\":1700000000,\"sub\":\"spiffe://example.org/a\"} = InvalidJson(Shape)
{\"typ\":\"X\",\"kid\":7} = { = InvalidJson(Shape)
{\"alg\":\"ES256\",\"kid\":\"k1\",\"typ\":\"JWT\"} = { = InvalidJson(Syntax)
{\"alg\":\"none\",\"typ\":\"X\"} = {\"exp\":1e400} = InvalidJson(Syntax)
{\"alg\":\"ES256\",\"kid\":\"k1\",\"typ\":\"JWT\"} = {\"aud\":[\"a\"],\"exp\":1.7e9,\"sub\":\"spiffe://example.org/a\"} = InvalidJson(Number)
{\"alg\":\"none\",\"typ\":\"X\"} = {\"exp\":18446744073709551616} = InvalidJson(Number)
{\"alg\":\"ES256\",\"kid\":\"k1\",\"typ\":\"JWT\"} = {} = InvalidJson(Shape)
{\"alg\":\"none\",\"typ\":\"X\"} = {\"sub\":\"x\",\"aud\":[],\"exp\":253402300800} = InvalidJson(Shape)
{\"alg\":\"ES256\",\"kid\":\"k1\",\"typ\":\"X\"} = {\"aud\":[\"a\"],\"exp\":1700000000,\"sub\":\"spiffe://example.org/a\"} = InvalidTyp
{\"alg\":\"none\",\"typ\":\"jwt\"} = {\"sub\":\"x\",\"aud\":\"a\",\"exp\":253402300800} = InvalidTyp
{\"alg\":\"HS256\",\"kid\":\"k1\"} = {\"aud\":[\"a\"],\"exp\":1700000000,\"sub\":\"spiffe://example.org/a\"} = UnsupportedAlgorithm
{\"alg\":\"none\"} = {\"sub\":\"x\",\"aud\":\"a\",\"exp\":253402300800} = UnsupportedAlgorithm
{\"alg\":\"es256\",\"kid\":\"k1\"} = {\"aud\":[\"a\"],\"exp\":1700000000,\"sub\":\"spiffe://example.org/a\"} = UnsupportedAlgorithm
{\"alg\":\"ES256\"} = {\"aud\":[\"a\"],\"exp\":1700000000,\"sub\":\"spiffe://example.org/a\"} = MissingKeyId
{\"alg\":\"ES256\",\"kid\":null,\"typ\":null} = {\"sub\":\"x\",\"aud\":\"a\",\"exp\":253402300800} = MissingKeyId
{\"alg\":\"ES256\",\"kid\":\"k1\",\"typ\":\"JWT\"} = {\"sub\":\"x\",\"aud\":\"a\",\"exp\":0} = InvalidSubject(WrongScheme)
{\"alg\":\"ES256\",\"kid\":\"k1\",\"typ\":\"JWT\"} = {\"sub\":\"x\",\"aud\":\"a\",\"exp\":253402300800} = InvalidSubject(WrongScheme)
{\"alg\":\"ES256\",\"kid\":\"k1\",\"typ\":\"JWT\"} = {\"sub\":\"spiffe://example.org/a\",\"aud\":\"a\",\"exp\":253402300800} = InvalidExpiration
{\"alg\":\"ES256\",\"kid\":\"k1\",\"typ\":\"JWT\"} = {\"sub\":\"spiffe://example.org/a\",\"aud\":\"a\",\"exp\":-377705116801} = InvalidExpiration
{\"alg\":\"ES256\",\"kid\":\"k1\",\"typ\":\"JWT\"} = {\"sub\":\"spiffe://example.org/a\",\"aud\":\"a\",\"exp\":-9223372036854775808} = InvalidExpiration
{\"alg\":\"ES256\",\"kid\":\"k1\",\"typ\":\"JWT\"} = {\"sub\":\"spiffe://example.org/a\",\"aud\":\"a\",\"exp\":253402300799} = k1 spiffe://e\
    xample.org/a a; 253402300799 ES256
{\"alg\":\"ES256\",\"kid\":\"k1\",\"typ\":\"JWT\"} = {\"sub\":\"spiffe://Example.org\",\"aud\":[\"b\",\"a\",\"b\"],\"exp\":-377705116800} = \
    k1 spiffe://example.org b;a;b; -377705116800 ES256
{\"typ\":\"JOSE\",\"kid\":\"\",\"alg\":\"PS512\",\"crit\":[]} = {\"aud\":[\"a\"],\"exp\":1700000000,\"sub\":\"spiffe://example.org/a\"} =  s\
    piffe://example.org/a a; 1700000000 PS512
{\"kid\":\"\\u006b1\",\"\\u0061lg\":\"ES256\",\"typ\":null} = {\"aud\":[\"a\"],\"exp\":1700000000,\"sub\":\"spiffe://example.org/a\"} = k1 s\
    piffe://example.org/a a; 1700000000 ES256
[\"ES256\",\"k1\",\"JWT\"] = {\"aud\":[\"a\"],\"exp\":1700000000,\"sub\":\"spiffe://example.org/a\"} = InvalidJson(Shape)
{\"alg\":\"ES256\",\"kid\":7} = {\"aud\":[\"a\"],\"exp\":1700000000,\"sub\":\"spiffe://example.org/a\"} = InvalidJson(Shape)
{\"alg\":\"ES256\",\"kid\":\"k1\",\"typ\":[]} = {\"aud\":[\"a\"],\"exp\":1700000000,\"sub\":\"spiffe://example.org/a\"} = InvalidJson(Shape)
{\"alg\":\"ES256\",\"kid\":\"k1\",\"alg\":\"ES256\"} = {\"aud\":[\"a\"],\"exp\":1700000000,\"sub\":\"spiffe://example.org/a\"} = InvalidJson(Shape)
{\"alg\":\"ES256\",\"kid\":\"k1\",\"\\u006Bid\":\"k1\"} = {\"aud\":[\"a\"],\"exp\":1700000000,\"sub\":\"spiffe://example.org/a\"} = InvalidJson(Shape)
{\"alg\":\"ES256\",\"kid\":\"k1\",\"x\":{\"alg\":1,\"alg\":2},\"y\":1,\"y\":2} = {\"aud\":[\"a\"],\"exp\":1700000000,\"sub\":\"spiffe://exam\
    ple.org/a\"} = k1 spiffe://example.org/a a; 1700000000 ES256
{\"alg\":\"ES256\",\"kid\":\"k1\",\"typ\":\"JWT\"} = {\"sub\":\"spiffe://example.org/a\",\"aud\":\"a\",\"exp\":1,\"sub\":\"spiffe://example.\
    org/a\"} = InvalidJson(Shape)
{\"alg\":\"ES256\",\"kid\":\"k1\",\"typ\":\"JWT\"} = {\"sub\":\"spiffe://example.org/a\",\"aud\":\"a\",\"exp\":1,\"s\\u0075b\":\"spiffe://ex\
    ample.org/a\"} = InvalidJson(Shape)
{\"alg\":\"ES256\",\"kid\":\"k1\",\"typ\":\"JWT\"} = {\"sub\":\"spiffe://example.org/a\",\"aud\":\"a\",\"exp\":1,\"iat\":1,\"iat\":2} = k1 s\
    piffe://example.org/a a; 1 ES256
{\"alg\":\"ES256\",\"kid\":\"k1\",\"typ\":\"JWT\"} = {\"sub\":\"spiffe://example.org/a\",\"aud\":\"a\",\"exp\":\"1\"} = InvalidJson(Shape)
{\"alg\":\"ES256\",\"kid\":\"k1\",\"typ\":\"JWT\"} = {\"sub\":\"spiffe://example.org/a\",\"aud\":\"a\",\"exp\":9223372036854775808} = InvalidJson(Shape)
{\"alg\":\"ES256\",\"kid\":\"k1\",\"typ\":\"JWT\"} = {\"sub\":\"spiffe://example.org/a\",\"aud\":\"a\"} = InvalidJson(Shape)
{\"alg\":\"ES256\",\"kid\":\"k1\",\"typ\":\"JWT\"} = {\"sub\":\"spiffe://example.org/a\",\"exp\":1} = InvalidJson(Shape)
{\"alg\":\"ES256\",\"kid\":\"k1\",\"typ\":\"JWT\"} = {\"sub\":\"spiffe://example.org/a\",\"aud\":[\"a\",1],\"exp\":1} = InvalidJson(Shape)
{\"alg\":\"ES256\",\"kid\":\"k1\",\"typ\":\"JWT\"} = {\"sub\":\"spiffe://example.org/a\",\"aud\":null,\"exp\":1} = InvalidJson(Shape)
{\"alg\":\"ES256\",\"kid\":\"k1\",\"typ\":\"JWT\"} = {\"sub\":null,\"aud\":\"a\",\"exp\":1} = InvalidJson(Shape)";

const TOKENS: &str =
    "eyJhbGciOiJFUzI1NiIsImtpZCI6ImsxIiwidHlwIjoiSldUIn0.eyJhdWQiOlsiYSJdLCJleHAiOjE3MDAwMDAwMDAsImlhdCI6MTYwMDAwMDAwMCwic3ViIjoic3BpZmZlOi8\
    vZXhhbXBsZS5vcmcvYSJ9.c2ln = k1 spiffe://example.org/a a; 1700000000 ES256
eyJhbGciOiJFUzI1NiIsImtpZCI6ImsxIiwidHlwIjoiSldUIn0.eyJhdWQiOlsiYSJdLCJleHAiOjE3MDAwMDAwMDAsInN1YiI6InNwaWZmZTovL2V4YW1wbGUub3JnL2EiLCJzdWIi\
    OiJzcGlmZmU6Ly9leGFtcGxlLm9yZy9hIn0.c2ln = InvalidJson(Shape)
eyJhbGciOiJFUzI1NiIsImtpZCI6ImsxIiwidHlwIjoiSldUIn0.eyJhdWQiOlsiYSJdLCJleHAiOjE3MDAwMDAwMDAsImlhdCI6MTYwMDAwMDAwMCwic3ViIjoic3BpZmZlOi8vZXhh\
    bXBsZS5vcmcvYSJ9. = k1 spiffe://example.org/a a; 1700000000 ES256
eyJhbGciOiJFUzI1NiIsImtpZCI6ImsxIiwidHlwIjoiSldUIn0.eyJhdWQiOlsiYSJdLCJleHAiOjE3MDAwMDAwMDAsImlhdCI6MTYwMDAwMDAwMCwic3ViIjoic3BpZmZlOi8vZXhh\
    bXBsZS5vcmcvYSJ9.* = k1 spiffe://example.org/a a; 1700000000 ES256
 = InvalidJwtFormat
a.b = InvalidJwtFormat
a.b.c.d = InvalidJwtFormat
... = InvalidJwtFormat
.. = InvalidJson(Syntax)
eyJhbGciOiJFUzI1NiIsImtpZCI6ImsxIiwidHlwIjoiSldUIn0.eyJhdWQiOlsiYSJdLCJleHAiOjE3MDAwMDAwMDAsImlhdCI6MTYwMDAwMDAwMCwic3ViIjoic3BpZmZlOi8vZXhh\
    bXBsZS5vcmcvYSJ9.c2ln. = InvalidJwtFormat
eyJhbGciOiJFUzI1NiIsImtpZCI6ImsxIiwidHlwIjoiSldUIn0=.eyJhdWQiOlsiYSJdLCJleHAiOjE3MDAwMDAwMDAsImlhdCI6MTYwMDAwMDAwMCwic3ViIjoic3BpZmZlOi8vZXh\
    hbXBsZS5vcmcvYSJ9.c2ln = InvalidBase64
eyJhbGciOiJFUzI1NiIsImtpZCI6ImsxIiwidHlwIjoiSldUIn0.*.c2ln = InvalidBase64
*.eyJhdWQiOlsiYSJdLCJleHAiOjE3MDAwMDAwMDAsInN1YiI6InNwaWZmZTovL2V4YW1wbGUub3JnL2EifQ. = InvalidBase64
eyJhbGciOiJFUzI1NiIsImtpZCI6ImsxIn1.eyJhdWQiOlsiYSJdLCJleHAiOjE3MDAwMDAwMDAsInN1YiI6InNwaWZmZTovL2V4YW1wbGUub3JnL2EifQ. = InvalidBase64
eyJhbGciOiJFUzI1NiIsImtpZCI6Iv8ifQ.eyJhdWQiOlsiYSJdLCJleHAiOjE3MDAwMDAwMDAsImlhdCI6MTYwMDAwMDAwMCwic3ViIjoic3BpZmZlOi8vZXhhbXBsZS5vcmcvYSJ9.\
    c2ln = InvalidJson(Syntax)
eyJhbGciOiJFUzI1NiIsImtpZCI6ImsxIiwidHlwIjoiSldUIn0.eyJhdWQiOlsi_yJdLCJleHAiOjE3MDAwMDAwMDAsInN1YiI6InNwaWZmZTovL2V4YW1wbGUub3JnL2EifQ.c2ln \
    = InvalidJson(Syntax)
eyJhbGciOiJFUzI1NiIsImtpZCI6ImsxIiwidHlwIjoiWCJ9.eyJhdWQiOlsiYSJdLCJleHAiOjE3MDAwMDAwMDAsImlhdCI6MTYwMDAwMDAwMCwic3ViIjoic3BpZmZlOi8vZXhhbXB\
    sZS5vcmcvYSJ9.c2ln = InvalidTyp
eyJhbGciOiJIUzI1NiIsImtpZCI6ImsxIiwidHlwIjoiSldUIn0.eyJhdWQiOlsiYSJdLCJleHAiOjE3MDAwMDAwMDAsImlhdCI6MTYwMDAwMDAwMCwic3ViIjoic3BpZmZlOi8vZXhh\
    bXBsZS5vcmcvYSJ9.c2ln = UnsupportedAlgorithm
eyJhbGciOiJFUzI1NiIsInR5cCI6IkpXVCJ9.eyJhdWQiOlsiYSJdLCJleHAiOjE3MDAwMDAwMDAsImlhdCI6MTYwMDAwMDAwMCwic3ViIjoic3BpZmZlOi8vZXhhbXBsZS5vcmcvYSJ\
    9.c2ln = MissingKeyId
eyJhbGciOiJFUzI1NiIsImtpZCI6ImsxIiwidHlwIjoiSldUIn0.eyJhdWQiOlsiYSJdLCJleHAiOjI1MzQwMjMwMDgwMCwiaWF0IjoxNjAwMDAwMDAwLCJzdWIiOiJzcGlmZmU6Ly9l\
    eGFtcGxlLm9yZy9hIn0.c2ln = InvalidExpiration
eyJhbGciOiJFUzI1NiIsImtpZCI6ImsxIiwidHlwIjoiSldUIn0.eyJhdWQiOltdLCJleHAiOjE3MDAwMDAwMDAsImlhdCI6MTYwMDAwMDAwMCwic3ViIjoic3BpZmZlOi8vZXhhbXBs\
    ZS5vcmcvYSJ9.c2ln = InvalidJson(Shape)";

fn said(rt: &impl Abort, alloc: Global, answer: Result<JwtSvid, JwtSvidError>) -> String {
    match answer {
        Ok(svid) => {
            let mut audience = String::new(alloc);
            for one in svid.audience() {
                good(rt, "memory", audience.push_str(one.as_str()));
                good(rt, "memory", audience.push_str(";"));
            }
            let (key_id, id) = (svid.key_id(), svid.spiffe_id());
            let (expiry, alg) = (svid.expiry(), svid.alg());
            good(
                rt,
                "memory",
                format!(in alloc; "{key_id} {id} {audience} {expiry} {alg:?}"),
            )
        }
        Err(rule) => good(rt, "memory", format!(in alloc; "{rule:?}")),
    }
}

#[test]
fn parts(rt: HostRuntime) {
    let alloc = rt.alloc();
    for row in PARTS.lines() {
        let (header, rest) = some(&rt, "claims", row.split_once(" = "));
        let (claims, wanted) = some(&rt, "an answer", rest.split_once(" = "));
        let answer = JwtSvid::from_parts(alloc, "", header.as_bytes(), claims.as_bytes());
        same_text(&rt, row, said(&rt, alloc, answer).as_str(), wanted);
    }
}

#[test]
fn tokens(rt: HostRuntime) {
    let alloc = rt.alloc();
    for row in TOKENS.lines() {
        let (token, wanted) = some(&rt, "an answer", row.split_once(" = "));
        let answer = JwtSvid::parse_insecure(alloc, token);
        same_text(&rt, token, said(&rt, alloc, answer).as_str(), wanted);
        let answer = JwtSvid::from_workload_api_token(alloc, token);
        same_text(&rt, token, said(&rt, alloc, answer).as_str(), wanted);
    }
}

// A header of 87,380 characters is decoded, to zero bytes, and a longer one isn't.
#[test]
fn long_parts(rt: HostRuntime) {
    let alloc = rt.alloc();
    for (count, wanted) in [(87_380, "InvalidJson(Syntax)"), (87_382, "InvalidBase64")] {
        let long = good(&rt, "memory", "A".repeat(alloc, count));
        let token = good(&rt, "memory", format!(in alloc; "{long}.."));
        let answer = JwtSvid::parse_insecure(alloc, token.as_str());
        same_text(&rt, "answer", said(&rt, alloc, answer).as_str(), wanted);
    }
}

#[test]
fn audiences(rt: HostRuntime) {
    let alloc = rt.alloc();
    for (more, wanted) in [(0, Some(1)), (31, Some(32)), (32, None)] {
        let others = good(&rt, "memory", ",\"b\"".repeat(alloc, more));
        let claims = format!(in alloc;
            "{{\"sub\":\"spiffe://a\",\"exp\":0,\"aud\":[\"a\"{others}]}}"
        );
        let claims = good(&rt, "memory", claims);
        let answer = JwtSvid::from_parts(alloc, "", HEADER.as_bytes(), claims.as_bytes());
        let found = match answer {
            Ok(svid) => Some(svid.audience().len()),
            Err(_) => None,
        };
        same(&rt, "audiences", &found, &wanted);
    }
}

#[test]
fn algorithms(rt: HostRuntime) {
    let alloc = rt.alloc();
    for name in [
        "RS256", "RS384", "RS512", "ES256", "ES384", "ES512", "PS256", "PS384", "PS512",
    ] {
        let header = good(
            &rt,
            "memory",
            format!(in alloc; "{{\"alg\":\"{name}\",\"kid\":\"\"}}"),
        );
        let svid = JwtSvid::from_parts(alloc, "", header.as_bytes(), CLAIMS.as_bytes());
        let svid = good(&rt, "a token", svid);
        let shown = good(&rt, "memory", format!(in alloc; "{:?}", svid.alg()));
        same_text(&rt, name, shown.as_str(), name);
    }
}

#[test]
fn signed_by_openssl(rt: HostRuntime) {
    let alloc = rt.alloc();
    let svid = good(&rt, "a token", JwtSvid::parse_insecure(alloc, SIGNED));
    same_text(&rt, "token", svid.token(), SIGNED);
    same_text(
        &rt,
        "subject",
        svid.claims().sub(),
        "spiffe://Domain.test/Web/api",
    );
    same(&rt, "expiry", &svid.claims().exp(), &1_893_456_000);
    same(&rt, "audience", &svid.claims().aud().len(), &2);
    let wanted =
        "authority-7 spiffe://domain.test/Web/api spiffe://peer.test/db;other; 1893456000 RS256";
    same_text(&rt, "answer", said(&rt, alloc, Ok(svid)).as_str(), wanted);
}

fn plain(rt: &impl Abort, alloc: Global) -> JwtSvid {
    good(rt, "a token", JwtSvid::parse_insecure(alloc, TOKEN))
}

fn hinted(rt: &impl Abort, alloc: Global) -> JwtSvid {
    let hint = good(rt, "memory", String::from_str(alloc, "h"));
    plain(rt, alloc).with_hint(hint)
}

#[test]
fn clones(rt: HostRuntime) {
    let svid = hinted(&rt, rt.alloc());
    let copy = good(&rt, "memory", svid.try_clone(rt.alloc()));
    same(&rt, "copy", &copy, &svid);
    same(&rt, "hint", &copy.hint(), &Some("h"));
    same(&rt, "another", &(copy == plain(&rt, rt.alloc())), &false);
}

#[test]
fn clones_of_claims(rt: HostRuntime) {
    let svid = plain(&rt, rt.alloc());
    let claims = good(&rt, "memory", svid.claims().try_clone(rt.alloc()));
    same(&rt, "claims", &claims, svid.claims());
}

// Of the token's text the length is shown.
#[test]
fn shown(rt: HostRuntime) {
    let svid = hinted(&rt, rt.alloc());
    let shown = good(&rt, "memory", format!(in rt.alloc(); "{svid:?}"));
    same_text(
        &rt,
        "answer",
        shown.as_str(),
        "JwtSvid { spiffe_id: spiffe://example.org/a, alg: ES256, expiry: 1700000000, audiences: 1, token: Token { len: 161 } }",
    );
}
