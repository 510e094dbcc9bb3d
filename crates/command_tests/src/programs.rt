// Further texts are made as those of `samples.rt`.
use crate::checks::{good, same};
use crate::samples::{REPORT, SAMPLE, WITHDRAWN};
use command_line::{Status, unread};
use identity_io::{LIMIT, MemorySink, MemorySource};
use std::alloc::Global;
use std::io::ErrorKind;
use std::process::Abort;
use std::sync::Wait;
use std::thread::Threads;
use tool_program::run;

// Two identities, and three bundles of which the last replaces the first. Trust domains and key IDs ascend in the
// report, the last of equal key IDs counts, one key ID is empty, and one has a space, `%`, `~` and a letter beyond ASCII.
const SEVERAL: &str =
    "MIIBqzCB4DBvDBFzcGlmZmU6Ly9iLnRlc3QveDAuAgEAMAUGAytlcAQiBCARERERERERERERERERERERERERERERERERERERERERETAqM\
     AUGAytlcAMhAE0pFn8/GRKm9636KToFGhXAXsZ7jxcmexxVUNzoU70NMG0MD1NQSUZGRTovL0EudGVzdDAuAgEAMAUGAytlcAQiBCARER\
     ERERERERERERERERERERERERERERERERERERERETAqMAUGAytlcAMhAE0pFn8/GRKm9636KToFGhXAXsZ7jxcmexxVUNzoU70NMIHFMCI\
     MBmIudGVzdAQYeyJrZXlzIjpbeyJraWQiOiJvbGQifV19MG8ME3NwaWZmZTovL0EuVEVTVC9hbnkEWHsia2V5cyI6W3sia2lkIjoiIn0s\
     eyJraWQiOiJhIGIlflx1MDBlOSIsImt0eSI6IkVDIn0seyJraWQiOiJhIGIlflx1MDBlOSIsImt0eSI6IlJTQSJ9XX0wLgwGYi50ZXN0B\
     CR7ImtleXMiOlt7ImtpZCI6ImsyIn0seyJraWQiOiJrMSJ9XX0=";

const SEVERAL_REPORT: &str = "revision 1\n\
     identity spiffe://b.test/x 1.3.101.112 Vd1MdLDkhTTi9OFzzs61DfjyenrCqomRzHrpFOAwvO0=\n\
     identity spiffe://a.test 1.3.101.112 Vd1MdLDkhTTi9OFzzs61DfjyenrCqomRzHrpFOAwvO0=\n\
     bundle a.test 2  a%20b%25~%C3%A9\n\
     bundle b.test 2 k1 k2\n";

// A withdrawal with no bundle, and a reason of bytes that aren't plain.
const MOVED: &str = "MBQwADAAgA5tb3ZlZDogNTAlIMO8Cg==";

// The status of a run over memory in pieces, and how many bytes it wrote.
fn run_in<R: Abort + Threads + Wait + Sync>(
    rt: &R,
    alloc: Global,
    words: &[&str],
    text: &str,
    faults: (&[u64], &[u64]),
    room: &mut [u8],
) -> (Status, usize) {
    let mut owned = Vec::new(alloc);
    for word in words {
        let word = good(rt, "memory", String::from_str(alloc, word));
        good(rt, "memory", owned.push(word));
    }
    let mut input = MemorySource::new(text.as_bytes(), faults.0, 7);
    let mut out = MemorySink::new(room, faults.1, 5);
    let status = run(rt, alloc, &owned, &mut input, &mut out);
    (status, out.written().len())
}

// That a run over this input ends with this status and has written these bytes.
fn answered<R: Abort + Threads + Wait + Sync>(
    rt: &R,
    alloc: Global,
    words: &[&str],
    text: &str,
    status: Status,
    printed: &str,
) {
    let mut room = [0u8; 400];
    let outcome = run_in(rt, alloc, words, text, (&[], &[]), &mut room);
    assert_eq!(rt; outcome, (status, printed.len()), "{words:?}, {text}");
    assert!(rt; room.starts_with(printed.as_bytes()), "{words:?}, {text}");
}

#[test]
fn reports(rt: HostRuntime) {
    for (width, text, status, printed) in [
        ("64", SAMPLE, Status::Done, REPORT),
        ("2000", SEVERAL, Status::Done, SEVERAL_REPORT),
        (
            "64",
            WITHDRAWN,
            Status::Done,
            "revision 1\nwithdrawn gone\nbundle example.org 0\n",
        ),
        (
            "64",
            MOVED,
            Status::Done,
            "revision 1\nwithdrawn moved:%2050%25%20%C3%BC%0A\n",
        ),
        (
            "63",
            SAMPLE,
            Status::Refused,
            "refused: text: invalid Base64 encoding\n",
        ),
        (
            "64",
            "",
            Status::Refused,
            "refused: text: invalid Base64 length\n",
        ),
        (
            "3",
            SAMPLE,
            Status::Refused,
            "refused: text: invalid Base64 length\n",
        ),
        (
            "64",
            "MAYwADAAgAA=",
            Status::Refused,
            "refused: document: malformed\n",
        ),
        (
            "64",
            "MAQwADAAAA==",
            Status::Refused,
            "refused: document: trailing data: decoded 6, remaining 1\n",
        ),
        (
            "64",
            "MAQwADAA",
            Status::Refused,
            "refused: document: no identity\n",
        ),
    ] {
        answered(&rt, rt.alloc(), &["show", width], text, status, printed);
    }
}

#[test]
fn words(rt: HostRuntime) {
    let commands: [&[&str]; 23] = [
        &[],
        &["show"],
        &["show", "064"],
        &["show", "+64"],
        &["show", ""],
        &["show", "18446744073709551616"],
        &["Show", "64"],
        &["show", "64", "64"],
        &["serve"],
        &["serve", "6 4"],
        &["serve", "64", "1"],
        &["serve", "064"],
        &["make"],
        &["make", "0"],
        &["make", "01"],
        &["make", "10001"],
        &["make", "1", "1"],
        &["watch", "64"],
        &["watch", "64", "9"],
        &["watch", "64", "0"],
        &["watch", "64", "01"],
        &["watch", "064", "1"],
        &["watch", "64", "1", "1"],
    ];
    for words in commands {
        answered(&rt, rt.alloc(), words, SAMPLE, Status::Usage, "");
    }
    same(
        &rt,
        "words",
        &unread(ErrorKind::OutOfMemory),
        &Status::OutOfMemory,
    );
    same(
        &rt,
        "words",
        &unread(ErrorKind::InvalidData),
        &Status::Usage,
    );
}

#[test]
fn faults(rt: HostRuntime) {
    let faults: [(&[&str], &[u64], &[u64], Status, usize); 6] = [
        (&["show", "64"], &[0], &[], Status::SourceFailed, 0),
        (&["show", "64"], &[3], &[], Status::SourceFailed, 0),
        (&["show", "64"], &[], &[0], Status::SinkFailed, 0),
        (&["show", "64"], &[], &[2], Status::SinkFailed, 10),
        (&["show", "64"], &[100], &[100], Status::Done, 121),
        (&["make", "1"], &[0], &[2], Status::SinkFailed, 10),
    ];
    for (words, reads, writes, status, written) in faults {
        let mut room = [0u8; 200];
        let outcome = run_in(&rt, rt.alloc(), words, SAMPLE, (reads, writes), &mut room);
        same(&rt, "outcome", &outcome, &(status, written));
    }
}

#[test]
fn size_of_a_text(rt: HostRuntime) {
    for (count, status, written) in [
        (LIMIT, Status::Refused, 39),
        (LIMIT + 1, Status::TooLong, 0),
    ] {
        let text = good(&rt, "memory", "A".repeat(rt.alloc(), count));
        let mut room = [0u8; 100];
        let words = ["show", "64"];
        let outcome = run_in(&rt, rt.alloc(), &words, &text, (&[], &[]), &mut room);
        same(&rt, "outcome", &outcome, &(status, written));
    }
}

// What a session does is tested where it stands; here, that its words call it.
#[test]
fn serves(rt: HostRuntime) {
    for (script, status) in [
        ("svid\nend\n", Status::Done),
        ("svid\nhello\n", Status::BadScript),
        ("svid\n", Status::BadScript),
        ("svid\nupdate 16777217\n", Status::TooLong),
    ] {
        answered(
            &rt,
            rt.alloc(),
            &["serve", "64"],
            script,
            status,
            "svid 0 none\n",
        );
    }
}

// What `watch` does is tested where it stands; here, that its words call it.
#[test]
fn watches(rt: HostRuntime) {
    for (workers, script, status, printed) in [
        ("1", "svid\nend\n", Status::Done, "worker 0\nsvid 0 none\n"),
        ("2", "end\n", Status::Done, "worker 0\nworker 1\n"),
        ("8", "svid\nhello\n", Status::BadScript, ""),
    ] {
        let words = ["watch", "64", workers];
        answered(&rt, rt.alloc(), &words, script, status, printed);
    }
}

#[test]
fn makes(rt: HostRuntime) {
    for (n, printed) in [
        (
            "1",
            "entries 1\ndocument 167\ntext 227\nlast spiffe://example.org/w/0\n",
        ),
        (
            "2",
            "entries 2\ndocument 326\ntext 442\nlast spiffe://example.org/w/1\n",
        ),
        (
            "10000",
            "entries 10000\ndocument 1408942\ntext 1907944\nlast spiffe://example.org/w/9999\n",
        ),
    ] {
        answered(&rt, rt.alloc(), &["make", n], "", Status::Done, printed);
    }
}
