//! A workload's identity is rotated: one thread applies updates, and four others read whole states beside it without waiting.
#![tactic(auto)]

use anyhow::Result;
use identity_source::{IdentityReader, IdentitySource};
use std::sync::Wait;
use std::thread;

// One identity with its key pair, and the bundle of its trust domain.
const UPDATE: &[u8] = b"MIGWMHYwdAwWc3BpZmZlOi8vZXhhbXBsZS5vcmcvYTAuAgEAMAUGAytlcAQiBCAR
ERERERERERERERERERERERERERERERERERERERERETAqMAUGAytlcAMhAE0pFn8/
GRKm9636KToFGhXAXsZ7jxcmexxVUNzoU70NMBwwGgwLZXhhbXBsZS5vcmcEC3si
a2V5cyI6W119";

fn rotate<R: Wait>(rt: &R, source: &mut IdentitySource) -> usize {
    let mut applied = 0;
    for i in 0..200 {
        if source.apply(rt, UPDATE, 64).is_ok() {
            applied = i + 1;
        }
    }
    applied
}

// Whether no state was earlier than the one before it.
fn watch(mut reader: IdentityReader) -> bool {
    let mut last = 0;
    let mut forward = true;
    for _ in 0..1000 {
        let revision = reader.current().revision();
        forward = forward && last <= revision;
        last = revision;
    }
    forward
}

// cut: rotation
fn main(rt: HostRuntime) -> Result<()> {
    let (mut source, readers) = IdentitySource::open(&rt, rt.alloc(), 0, 4)?;
    let (applied, watched) = thread::join(
        &rt,
        || rotate(&rt, &mut source),
        || { thread::map_vec(&rt, readers, &|reader| watch(reader)) },
    );
    let latest = source.latest().try_clone();
    source.close(&rt);
    // end
    let latest = latest?;
    println!(rt;
        "{applied} updates applied, the last state is of revision {}",
        latest.revision()
    )?;
    if let Some(identity) = latest.svid() {
        let key = identity.public_key();
        if let Ok(fingerprint) = key.fingerprint_base64(rt.alloc()) {
            println!(rt; "{} holds the key {fingerprint}", identity.id())?;
        }
    }
    for (i, forward) in watched?.iter().enumerate() {
        println!(rt; "reader {i} only went forward: {forward}")?;
    }
    Ok(())
}
