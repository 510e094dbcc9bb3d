use crate::checks::{good, same, some};
use crate::samples::{SAMPLE, WITHDRAWN};
use command_line::Status;
use identity_io::{LIMIT, MemorySink, MemorySource};
use std::alloc::Global;
use std::process::Abort;
use std::sync::Wait;
use tool_script::session;

const REPLIES: &str =
    "accepted 1\nrefused: text: invalid Base64 length\nsvid 1 spiffe://example.org/a\nbundle 1 example.org 0\naccepted 2\nsvid 2 spiffe://example.org/a\n";

// Six requests and the end.
fn six_requests(rt: &impl Abort, alloc: Global) -> String {
    good(
        rt,
        "memory",
        format!(in alloc;
            "update 207\n{SAMPLE}\nupdate 0\n\nsvid\nbundle example.org\nupdate 207\n{SAMPLE}\nsvid\nend\nmore"
        ),
    )
}

// The status of a session over memory in pieces, and how many bytes it wrote.
fn serve_in<R: Abort + Wait>(
    rt: &R,
    alloc: Global,
    script: &[u8],
    faults: (&[u64], &[u64]),
    room: &mut [u8],
) -> (Status, usize) {
    let mut input = MemorySource::new(script, faults.0, 7);
    let mut out = MemorySink::new(room, faults.1, 5);
    let status = session(rt, alloc, 64, &mut input, &mut out);
    (status, out.written().len())
}

// That a session ends with this status and has written these replies.
fn answered<R: Abort + Wait>(rt: &R, alloc: Global, script: &[u8], status: Status, replies: &str) {
    let mut room = [0u8; 200];
    let outcome = serve_in(rt, alloc, script, (&[], &[]), &mut room);
    assert_eq!(rt; outcome, (status, replies.len()), "{script:?}");
    assert!(rt; room.starts_with(replies.as_bytes()), "{script:?}");
}

#[test]
fn scripts(rt: HostRuntime) {
    let six = six_requests(&rt, rt.alloc());
    let withdrawn = good(
        &rt,
        "memory",
        format!(in rt.alloc();
            "update 207\n{SAMPLE}\nupdate 56\n{WITHDRAWN}\nsvid\nbundle EXAMPLE.org\nend\n"
        ),
    );
    for (script, status, replies) in [
        (six.as_bytes(), Status::Done, REPLIES),
        (
            withdrawn.as_bytes(),
            Status::Done,
            "accepted 1\naccepted 2\nsvid 2 withdrawn gone\nbundle 2 example.org 0\n",
        ),
        (b"svid\nhello\n", Status::BadScript, "svid 0 none\n"),
        (b"svid\n", Status::BadScript, "svid 0 none\n"),
        (b"update 16777217\n", Status::TooLong, ""),
        (b"update 18446744073709551615\n", Status::TooLong, ""),
        (b"update 18446744073709551616\n", Status::BadScript, ""),
        (b"update 00\n", Status::BadScript, ""),
        (b"update 1\nab\nend\n", Status::BadScript, ""),
        (
            b"bundle spiffe://Other.test/a\nend\n",
            Status::Done,
            "bundle 0 other.test missing\n",
        ),
        (b"bundle \nend\n", Status::BadScript, ""),
        (b"bundle other.test \nend\n", Status::BadScript, ""),
        (b"end", Status::BadScript, ""),
        (b"", Status::BadScript, ""),
        (b"svid\r\nend\n", Status::BadScript, ""),
        (b"svid\0\nend\n", Status::BadScript, ""),
        (b"\nend\n", Status::BadScript, ""),
        (b"bundle a\xFF\nend\n", Status::BadScript, ""),
        (b"\xC3\x28\nend\n", Status::BadScript, ""),
    ] {
        answered(&rt, rt.alloc(), script, status, replies);
    }
}

// How much is written of the replies to the whole requests in so many bytes: where each request ends, and how much is
// written by then.
fn written_by(count: usize) -> usize {
    let mut written = 0;
    for (end, so_far) in [
        (219, 11),
        (229, 48),
        (234, 78),
        (253, 101),
        (472, 112),
        (477, 142),
    ] {
        if end <= count {
            written = so_far;
        }
    }
    written
}

// The replies to the whole requests in what came, wherever the input stops.
#[test]
fn cuts(rt: HostRuntime) {
    let six = six_requests(&rt, rt.alloc());
    let mut cut = Vec::new(rt.alloc());
    for byte in six.as_bytes() {
        let status = if cut.len() < 481 {
            Status::BadScript
        } else {
            Status::Done
        };
        let replies = REPLIES.get(..written_by(cut.len()));
        answered(&rt, rt.alloc(), &cut, status, some(&rt, "replies", replies));
        good(&rt, "memory", cut.push(*byte));
    }
}

#[test]
fn faults(rt: HostRuntime) {
    let six = six_requests(&rt, rt.alloc());
    let faults: [(&[u64], &[u64], Status, usize); 6] = [
        (&[0], &[], Status::SourceFailed, 0),
        (&[32], &[], Status::SourceFailed, 11),
        (&[], &[0], Status::SinkFailed, 0),
        (&[], &[2], Status::SinkFailed, 10),
        (&[], &[3], Status::SinkFailed, 11),
        (&[100], &[100], Status::Done, 142),
    ];
    for (reads, writes, status, written) in faults {
        let mut room = [0u8; 200];
        let outcome = serve_in(&rt, rt.alloc(), six.as_bytes(), (reads, writes), &mut room);
        same(&rt, "outcome", &outcome, &(status, written));
    }
}

#[test]
fn longest_lines(rt: HostRuntime) {
    for (count, status, written) in [(4_068, Status::Done, 29), (4_069, Status::BadScript, 0)] {
        let path = good(&rt, "memory", "a".repeat(rt.alloc(), count));
        let script = format!(in rt.alloc(); "bundle spiffe://example.org/{path}\nend\n");
        let script = good(&rt, "memory", script);
        let mut room = [0u8; 100];
        let outcome = serve_in(&rt, rt.alloc(), script.as_bytes(), (&[], &[]), &mut room);
        same(&rt, "outcome", &outcome, &(status, written));
    }
}

#[test]
fn most_requests(rt: HostRuntime) {
    for (count, status) in [(10_000, Status::Done), (10_001, Status::TooLong)] {
        let queries = good(&rt, "memory", "svid\n".repeat(rt.alloc(), count));
        let script = good(&rt, "memory", format!(in rt.alloc(); "{queries}end\n"));
        let mut room = good(&rt, "memory", "-".repeat(rt.alloc(), 130_000)).into_bytes();
        let outcome = serve_in(&rt, rt.alloc(), script.as_bytes(), (&[], &[]), &mut room);
        same(&rt, "outcome", &outcome, &(status, 120_000));
    }
}

#[test]
fn longest_update(rt: HostRuntime) {
    let text = good(&rt, "memory", "A".repeat(rt.alloc(), LIMIT));
    let script = format!(in rt.alloc(); "update 16777216\n{text}\nend\n");
    let script = good(&rt, "memory", script);
    let mut room = [0u8; 100];
    let mut input = MemorySource::new(script.as_bytes(), &[], 65_536);
    let mut out = MemorySink::new(&mut room, &[], 5);
    let status = session(&rt, rt.alloc(), 64, &mut input, &mut out);
    same(
        &rt,
        "outcome",
        &(status, out.written().len()),
        &(Status::Done, 39),
    );
}
