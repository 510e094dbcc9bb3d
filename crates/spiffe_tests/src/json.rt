// What is read and what is refused follows the rules on JSON numbers of 64 bits and `serde_json`'s own limit
// of 127 levels; the texts are this crate's own. A row of the table is a number, the answer where it
// stands in the value, and the answer where a later member of its name replaces it.
use crate::checks::{good, same_text, some};
use spiffe_json::{JsonError, ReadError, read_json};
use std::alloc::Global;
use std::process::Abort;

const NUMBERS: &str = "0 read read
-1 read read
18446744073709551615 read read
-9223372036854775808 read read
18446744073709551616 Json(Number) read
-9223372036854775809 Json(Number) read
1.0 Json(Number) read
1.5 Json(Number) read
1e2 Json(Number) read
1E+2 Json(Number) read
-0 Json(Number) read
1e400 Json(Syntax) Json(Syntax)
01 Json(Syntax) Json(Syntax)";

fn answer(rt: &impl Abort, alloc: Global, text: &[u8]) -> String {
    let answer = match read_json(alloc, text) {
        Ok(_) => String::from_str(alloc, "read"),
        Err(e) => format!(in alloc; "{e:?}"),
    };
    good(rt, "memory", answer)
}

#[test]
fn numbers(rt: HostRuntime) {
    let alloc = rt.alloc();
    for row in NUMBERS.lines() {
        let (number, answers) = some(&rt, "answers", row.split_once(" "));
        let (wanted, if_replaced) = some(&rt, "two answers", answers.split_once(" "));
        for (before, after, wanted) in [
            ("", "", wanted),
            ("{\"kid\":\"a\",\"x\":[[],{\"y\":", "}]}", wanted),
            ("{\"x\":", ",\"x\":1}", if_replaced),
        ] {
            let text = good(&rt, "memory", format!(in alloc; "{before}{number}{after}"));
            let found = answer(&rt, alloc, text.as_bytes());
            same_text(&rt, text.as_str(), found.as_str(), wanted);
        }
    }
}

#[test]
fn syntax(rt: HostRuntime) {
    let alloc = rt.alloc();
    for (text, wanted) in [
        (b"\"\xc3\xa9\"".as_slice(), "read"),
        (b"\"\xc3\"", "Json(Syntax)"),
        (b"", "Json(Syntax)"),
        (b"{}{}", "Json(Syntax)"),
    ] {
        same_text(&rt, "a text", answer(&rt, alloc, text).as_str(), wanted);
    }
    for (levels, wanted) in [(127, "read"), (128, "Json(Syntax)")] {
        let open = good(&rt, "memory", "[".repeat(alloc, levels));
        let close = good(&rt, "memory", "]".repeat(alloc, levels));
        let text = good(&rt, "memory", format!(in alloc; "{open}{close}"));
        let found = answer(&rt, alloc, text.as_bytes());
        same_text(&rt, text.as_str(), found.as_str(), wanted);
    }
}

// A text of a megabyte: many members, and long ones.
#[test]
fn large_texts(rt: HostRuntime) {
    let alloc = rt.alloc();
    let long = good(&rt, "memory", "x".repeat(alloc, 1_000_000));
    let many = good(&rt, "memory", ",7".repeat(alloc, 500_000));
    let text = format!(in alloc; "{{\"long\":\"{long}\",\"many\":[7{many}]}}");
    let text = good(&rt, "memory", text);
    same_text(
        &rt,
        "a megabyte",
        answer(&rt, alloc, text.as_bytes()).as_str(),
        "read",
    );
}

#[test]
fn texts(rt: HostRuntime) {
    for (error, text) in [
        (ReadError::Json(JsonError::Syntax), "invalid JSON"),
        (ReadError::Json(JsonError::Number), "number not allowed"),
        (ReadError::Json(JsonError::Keys), "no keys array"),
        (ReadError::Json(JsonError::Shape), "bad shape"),
        (ReadError::OutOfMemory, "out of memory"),
    ] {
        let shown = good(&rt, "memory", format!(in rt.alloc(); "{error}"));
        same_text(&rt, "an error", shown.as_str(), text);
    }
}
