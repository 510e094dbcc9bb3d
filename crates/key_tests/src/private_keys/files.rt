use super::documents::WORKED;
use crate::checks::{good, same, same_bytes};
use identity_io::{Disk, MemoryDisk};
use pkcs8::{DecodePrivateKey, EncodePrivateKey, Error, PrivateKeyInfoOwned};
use std::alloc::Global;
use std::process::Abort;

fn worked(rt: &impl Abort, alloc: Global) -> PrivateKeyInfoOwned {
    good(rt, "a key", PrivateKeyInfoOwned::from_der(alloc, &WORKED))
}

/// A disk with the key's file, whose third call from here on fails.
fn disk_with(rt: &impl Abort, alloc: Global, key: &PrivateKeyInfoOwned) -> MemoryDisk {
    let calls = good(rt, "memory", vec![in alloc; 3]);
    let mut disk = MemoryDisk::new(alloc, calls);
    good(
        rt,
        "a file",
        key.write_pkcs8_der_file(alloc, &mut disk, "k"),
    );
    disk
}

#[test]
fn files_of_keys(rt: HostRuntime) {
    let key = worked(&rt, rt.alloc());
    let mut disk = disk_with(&rt, rt.alloc(), &key);
    let rows = [
        ("k", None),
        ("x", Some(der_small::Error::FileMissing)),
        ("k", Some(der_small::Error::FileFault)),
    ];
    for (path, refusal) in rows {
        let read = PrivateKeyInfoOwned::read_pkcs8_der_file(rt.alloc(), &mut disk, path);
        let is_same = read.as_ref().is_ok_and(|read| *read == key);
        same(&rt, path, &is_same, &refusal.is_none());
        same(&rt, path, &read.err(), &refusal.map(Error::Asn1));
    }
}

#[test]
fn a_file_holds_the_document(rt: HostRuntime) {
    let key = worked(&rt, rt.alloc());
    let mut disk = disk_with(&rt, rt.alloc(), &key);
    let bytes = good(&rt, "a file", disk.read_file(rt.alloc(), "k"));
    same_bytes(&rt, "bytes", bytes.as_slice(), WORKED.as_slice());
}
