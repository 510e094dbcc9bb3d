// A row is a text, ` = ` and its members, each with the places of its value.
use crate::checks::{good, same_text, some};
use spiffe_id::SpiffeIdError;
use spiffe_json::JsonError;
use spiffe_token::{JwtSvidError, top_members};
use std::alloc::Global;
use std::process::Abort;

const ROWS: &str = "{\"a\":1,\"\\u0061\":[2,3]} = a 5 6;a 16 21;
 { }  = 
{ \"a\" : 1 , \"b\" : x y } = a 8 9;b 18 21;
{\"a\":\"}]\\\",[\",\"b\":{\"a\":[1,{\"a\":2}]},\"c\":[]} = a 5 13;b 18 35;c 40 42;
{\"\\\"\\\\\\/\\t\\u00e9\\ud83d\\uDE00é\":\"\\ud800\"} = \"\\/\té😀é 32 40;
{\"\":-0} =  4 6;
{\"a\":} = none
{\"a\": } = none
{\"a\":1,} = none
{\"a\":1}x = none
{\"a\":1 = none
{\"a\"1} = none
{a:1} = none
[1] = none
 = none
{\"a\":[1}]} = none
{\"a\":{]}} = none
{\"a\":[} = none
{\"a\":]} = none
{\"a\":[{1]}} = none
{\"\\ud800\":1} = none
{\"\\ud800\\u0061\":1} = none
{\"\\udc00\":1} = none
{\"\\x\":1} = none
{\"\\u00g0\":1} = none
{\"a\":\"1} = none";

fn members_or_none(rt: &impl Abort, alloc: Global, json: &[u8]) -> String {
    let mut text = String::new(alloc);
    match good(rt, "memory", top_members(alloc, json)) {
        Some(members) => {
            for m in &members {
                let (start, end) = (m.start, m.end);
                let shown = good(rt, "memory", format!(in alloc; "{} {start} {end};", m.name));
                good(rt, "memory", text.push_str(shown.as_str()));
            }
        }
        None => good(rt, "memory", text.push_str("none")),
    }
    text
}

#[test]
fn members(rt: HostRuntime) {
    let alloc = rt.alloc();
    for row in ROWS.lines() {
        let (json, wanted) = some(&rt, "an answer", row.split_once(" = "));
        let found = members_or_none(&rt, alloc, json.as_bytes());
        same_text(&rt, json, found.as_str(), wanted);
    }
    let found = members_or_none(&rt, alloc, b"{\"\xff\":1}");
    same_text(&rt, "answer", found.as_str(), "none");
}

// A value of a megabyte, and as many brackets.
#[test]
fn large_values(rt: HostRuntime) {
    let alloc = rt.alloc();
    let open = good(&rt, "memory", "[".repeat(alloc, 500_000));
    let close = good(&rt, "memory", "]".repeat(alloc, 500_000));
    let text = good(
        &rt,
        "memory",
        format!(in alloc; "{{\"deep\":{open}{close}}}"),
    );
    let found = members_or_none(&rt, alloc, text.as_bytes());
    same_text(&rt, "answer", found.as_str(), "deep 8 1000008;");
}

#[test]
fn error_texts(rt: HostRuntime) {
    for (error, text) in [
        (JwtSvidError::MissingKeyId, "token header 'kid' not found"),
        (
            JwtSvidError::InvalidTyp,
            "token header 'typ' should be 'JWT' or 'JOSE'",
        ),
        (
            JwtSvidError::InvalidExpiration,
            "invalid token expiration ('exp') claim",
        ),
        (
            JwtSvidError::UnsupportedAlgorithm,
            "algorithm in 'alg' header is not supported",
        ),
        (
            JwtSvidError::InvalidJwtFormat,
            "malformed jwt token: expected 3 dot-separated parts",
        ),
        (
            JwtSvidError::InvalidBase64,
            "malformed jwt token: invalid base64url encoding",
        ),
        (
            JwtSvidError::InvalidJson(JsonError::Shape),
            "malformed jwt token: invalid json",
        ),
        (
            JwtSvidError::InvalidSubject(SpiffeIdError::Empty),
            "invalid spiffe_id in token 'sub' claim",
        ),
        (JwtSvidError::OutOfMemory, "out of memory"),
    ] {
        let shown = good(&rt, "memory", format!(in rt.alloc(); "{error}"));
        same_text(&rt, text, shown.as_str(), text);
    }
}
