// The key set is as in the tests of documents.
use crate::checks::{good, same};
use bundle_selection::select;
use command_line::Status;
use identity_io::{LIMIT, MemorySink, MemorySource};
use std::alloc::Global;
use std::process::Abort;

const SAMPLE: &str =
    r#"{"keys":[{"use":"x509-svid","kty":"EC"},{"use":"jwt-svid","kid":"a","kty":"EC"},{"kty":"EC"}],"spiffe_refresh_hint":300,"spiffe_sequence":7}"#;

// The status of a run over memory in pieces, and how many bytes it wrote.
fn select_in<R: Abort>(
    rt: &R,
    alloc: Global,
    words: usize,
    json: &str,
    faults: (&[u64], &[u64]),
    room: &mut [u8],
) -> (Status, usize) {
    let mut owned = Vec::new(alloc);
    for _ in 0..words {
        let word = good(rt, "memory", String::from_str(alloc, "keys"));
        good(rt, "memory", owned.push(word));
    }
    let mut input = MemorySource::new(json.as_bytes(), faults.0, 7);
    let mut out = MemorySink::new(room, faults.1, 5);
    let status = select(alloc, &owned, &mut input, &mut out);
    (status, out.written().len())
}

#[test]
fn documents(rt: HostRuntime) {
    for (json, status, printed) in [
        (
            SAMPLE,
            Status::Done,
            r#"{"keys":[{"kid":"a","kty":"EC","use":"jwt-svid"}]}"#,
        ),
        ("{", Status::Refused, "refused: invalid JSON\n"),
        (
            r#"{"a":1.5}"#,
            Status::Refused,
            "refused: number not allowed\n",
        ),
        (r#"{"a":1}"#, Status::Refused, "refused: no keys array\n"),
        (
            r#"{"keys":[],"spiffe_sequence":-1}"#,
            Status::Refused,
            "refused: bad sequence\n",
        ),
        (
            r#"{"keys":[],"spiffe_refresh_hint":-1}"#,
            Status::Refused,
            "refused: bad refresh hint\n",
        ),
        (
            r#"{"keys":[{},{"use":"jwt-svid"}]}"#,
            Status::Refused,
            "refused: key 1: missing key ID\n",
        ),
    ] {
        let mut room = [0u8; 100];
        let outcome = select_in(&rt, rt.alloc(), 0, json, (&[], &[]), &mut room);
        same(&rt, json, &outcome, &(status, printed.len()));
        same(&rt, json, &room.starts_with(printed.as_bytes()), &true);
    }
}

#[test]
fn stops(rt: HostRuntime) {
    let large = good(&rt, "memory", "[".repeat(rt.alloc(), LIMIT + 1));
    let stops: [(usize, &str, &[u64], &[u64], Status, usize); 5] = [
        (1, SAMPLE, &[], &[], Status::Usage, 0),
        (0, SAMPLE, &[0], &[], Status::SourceFailed, 0),
        (0, SAMPLE, &[], &[0], Status::SinkFailed, 0),
        (0, SAMPLE, &[], &[2], Status::SinkFailed, 10),
        (0, large.as_str(), &[], &[], Status::TooLong, 0),
    ];
    for (words, json, reads, writes, status, written) in stops {
        let mut room = [0u8; 100];
        let outcome = select_in(&rt, rt.alloc(), words, json, (reads, writes), &mut room);
        same(&rt, "outcome", &outcome, &(status, written));
    }
}
