use super::documents::{ED25519, decoded};
use crate::checks::{good, same, same_bytes};
use identity_io::{Disk, MemoryDisk};
use spki::{DecodePublicKey, EncodePublicKey, Error, SubjectPublicKeyInfoOwned};
use std::alloc::Global;
use std::process::Abort;

fn ed25519(rt: &impl Abort, alloc: Global) -> SubjectPublicKeyInfoOwned {
    let bytes = decoded(rt, alloc, ED25519);
    good(
        rt,
        "a key",
        SubjectPublicKeyInfoOwned::from_der(alloc, &bytes),
    )
}

/// A disk with the key's file, whose third call from here on fails.
fn disk_with(rt: &impl Abort, alloc: Global, key: &SubjectPublicKeyInfoOwned) -> MemoryDisk {
    let calls = good(rt, "memory", vec![in alloc; 3]);
    let mut disk = MemoryDisk::new(alloc, calls);
    good(
        rt,
        "a file",
        key.write_public_key_der_file(alloc, &mut disk, "k"),
    );
    disk
}

#[test]
fn files_of_keys(rt: HostRuntime) {
    let key = ed25519(&rt, rt.alloc());
    let mut disk = disk_with(&rt, rt.alloc(), &key);
    let rows = [
        ("k", None),
        ("x", Some(der_small::Error::FileMissing)),
        ("k", Some(der_small::Error::FileFault)),
    ];
    for (path, refusal) in rows {
        let read = SubjectPublicKeyInfoOwned::read_public_key_der_file(rt.alloc(), &mut disk, path);
        let is_same = read.as_ref().is_ok_and(|read| *read == key);
        same(&rt, path, &is_same, &refusal.is_none());
        same(&rt, path, &read.err(), &refusal.map(Error::Asn1));
    }
}

#[test]
fn a_file_holds_the_document(rt: HostRuntime) {
    let key = ed25519(&rt, rt.alloc());
    let mut disk = disk_with(&rt, rt.alloc(), &key);
    let held = good(&rt, "a file", disk.read_file(rt.alloc(), "k"));
    let bytes = decoded(&rt, rt.alloc(), ED25519);
    same_bytes(&rt, "held", held.as_slice(), bytes.as_slice());
}
