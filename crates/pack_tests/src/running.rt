// The program over a disk and a sink in memory.
use crate::checks::{good, same};
use crate::packing::{MANIFEST, NEVER, OWN, OWN_TEXT, TEXT};
use crate::shelf::disk_with;
use command_line::Status;
use identity_io::{Disk, LIMIT, MemoryDisk, MemorySink};
use pack_program::run;
use std::alloc::Global;
use std::process::Abort;

// The status of a run, and how many bytes it wrote, 50 a call.
fn run_in<R: Abort>(
    rt: &R,
    alloc: Global,
    words: &[&str],
    disk: &mut MemoryDisk,
    writes: &[u64],
    room: &mut [u8],
) -> (Status, usize) {
    let mut owned = Vec::new(alloc);
    for word in words {
        let word = good(rt, "memory", String::from_str(alloc, word));
        good(rt, "memory", owned.push(word));
    }
    let mut out = MemorySink::new(room, writes, 50);
    let status = run(alloc, &owned, disk, &mut out);
    (status, out.written().len())
}

#[test]
fn prints(rt: HostRuntime) {
    for (width, manifest, printed) in [
        ("64", MANIFEST, TEXT),
        ("64", OWN, OWN_TEXT),
        (
            "64",
            r#"{"entries":[{"id":"spiffe://example.org/a","key":"k"}],"bundles":[{"domain":"example.org","jwks":"b"}]}"#,
            "refused: entry 0: no public key\n",
        ),
        (
            "64",
            r#"{"entries":[{"id":"spiffe://example.org/a","key":"k","public":"x"}],"bundles":[{"domain":"example.org","jwks":"b"}]}"#,
            "refused: entry 0: public file: missing\n",
        ),
        (
            "64",
            r#"{"entries":[{"id":"spiffe://example.org/a","key":"k","public":"k"}],"bundles":[{"domain":"example.org","jwks":"b"}]}"#,
            "refused: entry 0: public file: malformed\n",
        ),
        (
            "64",
            r#"{"entries":[{"id":"spiffe://example.org/a","key":"k","public":"p"}],"bundles":[{"domain":"other.test","jwks":"b"}]}"#,
            "refused: entry 0: no bundle\n",
        ),
        ("3", MANIFEST, "refused: width\n"),
        ("64", "[", "refused: manifest: invalid JSON\n"),
        ("64", "[1.5]", "refused: manifest: number not allowed\n"),
        ("64", "[]", "refused: manifest: bad shape\n"),
        (
            "64",
            r#"{"entries":[{"id":"https://example.org/a","key":"k"}],"bundles":[]}"#,
            "refused: entry 0: subject: wrong scheme\n",
        ),
        (
            "64",
            r#"{"entries":[{"id":"spiffe://example.org/a","key":"x"}],"bundles":[]}"#,
            "refused: entry 0: key file: missing\n",
        ),
        (
            "64",
            r#"{"entries":[{"id":"spiffe://example.org/a","key":"p"}],"bundles":[]}"#,
            "refused: entry 0: key file: malformed\n",
        ),
        (
            "64",
            r#"{"entries":[{"id":"spiffe://example.org/a","key":"bad"}],"bundles":[]}"#,
            "refused: entry 0: key file: trailing data: decoded 2, remaining 1\n",
        ),
        (
            "64",
            r#"{"entries":[{"id":"spiffe://example.org/a","key":"w"},{"id":"spiffe://example.org/b","key":"k","public":"bad"}],"bundles":[]}"#,
            "refused: entry 1: public file: trailing data: decoded 2, remaining 1\n",
        ),
        (
            "64",
            r#"{"entries":[],"bundles":[{"domain":"example.org","jwks":"b"},{"domain":"a/b","jwks":"b"}]}"#,
            "refused: bundle 1: domain: bad trust domain character\n",
        ),
        (
            "64",
            r#"{"entries":[],"bundles":[{"domain":"example.org","jwks":"x"}]}"#,
            "refused: bundle 0: key set file: missing\n",
        ),
        (
            "64",
            r#"{"entries":[],"bundles":[]}"#,
            "refused: document: no identity\n",
        ),
        (
            "64",
            r#"{"entries":[{"id":"spiffe://example.org/a","key":"w"}],"bundles":[{"domain":"example.org","jwks":"k"}]}"#,
            "refused: bundle 0: authorities: invalid JSON\n",
        ),
    ] {
        let mut room = [0u8; 300];
        let mut disk = disk_with(&rt, rt.alloc(), manifest, NEVER);
        let words = ["pack", "m", width];
        let outcome = run_in(&rt, rt.alloc(), &words, &mut disk, &[], &mut room);
        let status = if printed.starts_with("refused") {
            Status::Refused
        } else {
            Status::Done
        };
        same(&rt, manifest, &outcome, &(status, printed.len()));
        same(&rt, manifest, &room.starts_with(printed.as_bytes()), &true);
    }
}

// Files that aren't there, or are one byte too long.
#[test]
fn long_files(rt: HostRuntime) {
    for (path, manifest, printed) in [
        ("none", "", "refused: manifest: missing\n"),
        ("long", "", "refused: manifest: too long\n"),
        (
            "m",
            r#"{"entries":[{"id":"spiffe://a.test","key":"long"}],"bundles":[]}"#,
            "refused: entry 0: key file: too long\n",
        ),
        (
            "m",
            r#"{"entries":[{"id":"spiffe://a.test","key":"k","public":"long"}],"bundles":[]}"#,
            "refused: entry 0: public file: too long\n",
        ),
        (
            "m",
            r#"{"entries":[],"bundles":[{"domain":"a.test","jwks":"long"}]}"#,
            "refused: bundle 0: key set file: too long\n",
        ),
    ] {
        let mut room = [0u8; 100];
        let mut disk = disk_with(&rt, rt.alloc(), manifest, NEVER);
        let long = good(&rt, "memory", " ".repeat(rt.alloc(), LIMIT + 1));
        good(&rt, "memory", disk.write_file("long", long.as_bytes()));
        let words = ["pack", path, "64"];
        let outcome = run_in(&rt, rt.alloc(), &words, &mut disk, &[], &mut room);
        same(&rt, printed, &outcome, &(Status::Refused, printed.len()));
        same(&rt, printed, &room.starts_with(printed.as_bytes()), &true);
    }
}

#[test]
fn words(rt: HostRuntime) {
    let mut room = [0u8; 300];
    let commands: [&[&str]; 12] = [
        &[],
        &["pack"],
        &["pack", "m"],
        &["pack", "m", "64", "64"],
        &["pack", "64", "m"],
        &["pack", "m", "064"],
        &["pack", "m", "+64"],
        &["pack", "m", ""],
        &["pack", "m", "18446744073709551616"],
        &["Pack", "m", "64"],
        &["packs", "m", "64"],
        &["show", "64"],
    ];
    for words in commands {
        let mut disk = disk_with(&rt, rt.alloc(), MANIFEST, NEVER);
        let outcome = run_in(&rt, rt.alloc(), words, &mut disk, &[], &mut room);
        same(&rt, "outcome", &outcome, &(Status::Usage, 0));
    }
}

// The disk's calls of a run are those from number 7 on: the manifest, `k`, `p` and `b`. The text takes five calls of the sink.
#[test]
fn faults(rt: HostRuntime) {
    let faults: [(u64, &[u64], Status, usize); 9] = [
        (7, &[], Status::SourceFailed, 0),
        (8, &[], Status::SourceFailed, 0),
        (9, &[0], Status::SourceFailed, 0),
        (10, &[], Status::SourceFailed, 0),
        (11, &[], Status::Done, 207),
        (NEVER, &[0], Status::SinkFailed, 0),
        (NEVER, &[1], Status::SinkFailed, 50),
        (NEVER, &[4], Status::SinkFailed, 200),
        (NEVER, &[5], Status::Done, 207),
    ];
    for (reads, writes, status, written) in faults {
        let mut room = [0u8; 300];
        let mut disk = disk_with(&rt, rt.alloc(), MANIFEST, reads);
        let words = ["pack", "m", "64"];
        let outcome = run_in(&rt, rt.alloc(), &words, &mut disk, writes, &mut room);
        same(&rt, "outcome", &outcome, &(status, written));
        same(
            &rt,
            "text",
            &room.get(..written),
            &TEXT.as_bytes().get(..written),
        );
    }
}
