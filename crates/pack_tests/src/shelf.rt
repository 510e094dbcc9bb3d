// A disk with the files of the tests.
use crate::checks::good;
use identity_io::{Disk, MemoryDisk};
use std::alloc::Global;
use std::process::Abort;

// A private key of Ed25519 (RFC 8410) without its public key.
const K: &[u8] =
    b"\x30\x2e\x02\x01\x00\x30\x05\x06\x03\x2b\x65\x70\x04\x22\x04\x20\x11\x11\x11\x11\x11\x11\x11\x11\x11\x11\x11\x11\x11\x11\x11\x11\x11\
         \x11\x11\x11\x11\x11\x11\x11\x11\x11\x11\x11\x11\x11\x11\x11";

// A public key of Ed25519.
const P: &[u8] =
    b"\x30\x2a\x30\x05\x06\x03\x2b\x65\x70\x03\x21\x00\x4d\x29\x16\x7f\x3f\x19\x12\xa6\xf7\xad\xfa\x29\x3a\x05\x1a\x15\xc0\x5e\xc6\x7b\x8f\
         \x17\x26\x7b\x1c\x55\x50\xdc\xe8\x53\xbd\x0d";

// The private key, with the public key in its document.
const W: &[u8] =
    b"\x30\x51\x02\x01\x01\x30\x05\x06\x03\x2b\x65\x70\x04\x22\x04\x20\x11\x11\x11\x11\x11\x11\x11\x11\x11\x11\x11\x11\x11\x11\x11\x11\x11\
         \x11\x11\x11\x11\x11\x11\x11\x11\x11\x11\x11\x11\x11\x11\x11\x81\x21\x00\x4d\x29\x16\x7f\x3f\x19\x12\xa6\xf7\xad\xfa\x29\x3a\x05\
         \x1a\x15\xc0\x5e\xc6\x7b\x8f\x17\x26\x7b\x1c\x55\x50\xdc\xe8\x53\xbd\x0d";

// The files beside the manifest, which is `m`.
const FILES: [(&str, &[u8]); 6] = [
    ("k", K),
    ("p", P),
    ("w", W),
    ("b", b"{\"keys\":[]}"),
    ("c", b"{\"keys\":[ ]}"),
    ("bad", b"\x30\x00\x00"),
];

// A disk with these files and the manifest. Of its calls the first seven are made here, and the one with the number `failing` fails.
pub(crate) fn disk_with<R: Abort>(
    rt: &R,
    alloc: Global,
    manifest: &str,
    failing: u64,
) -> MemoryDisk {
    let stops = good(rt, "memory", Vec::from_slice(alloc, &[failing]));
    let mut disk = MemoryDisk::new(alloc, stops);
    for (path, bytes) in FILES {
        good(rt, "memory", disk.write_file(path, bytes));
    }
    good(rt, "memory", disk.write_file("m", manifest.as_bytes()));
    disk
}
