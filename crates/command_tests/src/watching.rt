//! What `watch` writes for scripts, over memory in pieces. The texts of updates are by a script outside this repository, from the grammar of
//! `docs/FORMATS.md` alone.
use crate::checks::{good, same};
use command_line::Status;
use identity_io::{MemorySink, MemorySource};
use std::alloc::Global;
use std::process::Abort;
use std::sync::Wait;
use std::thread::Threads;
use tool_watch::{OpenGate, watch};

// An update with its line: one identity and one bundle, the sample of the README, of 207 bytes.
const GRANTED: &str = "update 207\n\
     MIGWMHYwdAwWc3BpZmZlOi8vZXhhbXBsZS5vcmcvYTAuAgEAMAUGAytlcAQiBCAR\n\
     ERERERERERERERERERERERERERERERERERERERERETAqMAUGAytlcAMhAE0pFn8/\n\
     GRKm9636KToFGhXAXsZ7jxcmexxVUNzoU70NMBwwGgwLZXhhbXBsZS5vcmcEC3si\n\
     a2V5cyI6W119\n";

const ANSWERS: &str =
    "accepted 1\nworker 0\nsvid 1 spiffe://example.org/a\nbundle 1 example.org 0\nworker 1\nsvid 1 spiffe://example.org/a\nbundle 1 example.org 0\n";

// The status under two workers, and how many bytes were written.
fn watch_in<R: Abort + Threads + Wait + Sync>(
    rt: &R,
    alloc: Global,
    script: &[u8],
    faults: (&[u64], &[u64]),
    room: &mut [u8],
) -> (Status, usize) {
    let mut input = MemorySource::new(script, faults.0, 7);
    let mut out = MemorySink::new(room, faults.1, 5);
    let status = watch(rt, alloc, 64, 2, &OpenGate, &mut input, &mut out);
    (status, out.written().len())
}

// That two workers end with this status and have written what begins so.
fn begins<R: Abort + Threads + Wait + Sync>(
    rt: &R,
    alloc: Global,
    script: &[u8],
    status: Status,
    written: &str,
) -> usize {
    let mut room = [0u8; 200];
    let outcome = watch_in(rt, alloc, script, (&[], &[]), &mut room);
    assert_eq!(rt; outcome.0, status, "{script:?}");
    assert!(rt; room.starts_with(written.as_bytes()), "{script:?}");
    outcome.1
}

#[test]
fn scripts(rt: HostRuntime) {
    let alloc = rt.alloc();
    let answered = format!(in alloc; "{GRANTED}svid\nbundle example.org\nend\nmore");
    let answered = good(&rt, "memory", answered);
    let lone = good(&rt, "memory", format!(in alloc; "svid\n{GRANTED}end\n"));
    let lone_reply =
        "accepted 1\nworker 0\nsvid 1 spiffe://example.org/a\nworker 1\nsvid 1 spiffe://example.org/a\n";
    for (script, status, written) in [
        (answered.as_bytes(), Status::Done, ANSWERS),
        (lone.as_bytes(), Status::Done, lone_reply),
        (
            b"svid\nend\n",
            Status::Done,
            "worker 0\nsvid 0 none\nworker 1\nsvid 0 none\n",
        ),
        (
            b"update 0\n\nend\n",
            Status::Done,
            "refused: text: invalid Base64 length\nworker 0\nworker 1\n",
        ),
        (b"end\n", Status::Done, "worker 0\nworker 1\n"),
        (b"", Status::BadScript, ""),
        (b"svid\n", Status::BadScript, ""),
        (b"svid\nhello\nend\n", Status::BadScript, ""),
        (b"update 1\nab\nend\n", Status::BadScript, ""),
        (b"update 16777217\n", Status::TooLong, ""),
        (b"update 1\na\nupdate 16777216\n", Status::TooLong, ""),
        (b"update 1\na\nupdate 16777215\n", Status::BadScript, ""),
    ] {
        let count = begins(&rt, alloc, script, status, written);
        same(&rt, "bytes written", &count, &written.len());
    }
}

// Each worker answers from the state after the first update that was accepted, or a later one.
#[test]
fn later_updates(rt: HostRuntime) {
    let alloc = rt.alloc();
    let script = format!(in alloc; "bundle EXAMPLE.org\nupdate 0\n\n{GRANTED}end\n");
    let script = good(&rt, "memory", script);
    let written = "refused: text: invalid Base64 length\naccepted 1\nworker 0\nbundle ";
    begins(&rt, alloc, script.as_bytes(), Status::Done, written);
}

#[test]
fn faults(rt: HostRuntime) {
    let script = good(
        &rt,
        "memory",
        format!(in rt.alloc(); "{GRANTED}svid\nbundle example.org\nend\n"),
    );
    let faults: [(&[u64], &[u64], Status, usize); 5] = [
        (&[0], &[], Status::SourceFailed, 0),
        (&[32], &[], Status::SourceFailed, 0),
        (&[], &[0], Status::SinkFailed, 0),
        (&[], &[2], Status::SinkFailed, 10),
        (&[100], &[100], Status::Done, ANSWERS.len()),
    ];
    for (reads, writes, status, written) in faults {
        let mut room = [0u8; 200];
        let outcome = watch_in(
            &rt,
            rt.alloc(),
            script.as_bytes(),
            (reads, writes),
            &mut room,
        );
        same(&rt, "outcome", &outcome, &(status, written));
    }
}
