//! That the workers run beside each other, and look at the source after its first update. Each gate holds a worker for
//! at most so many turns of one atomic load, and counts where they were used up.
use command_line::Status;
use identity_io::{MemorySink, MemorySource};
use std::sync::atomic::{AtomicU64, Ordering};
use tool_watch::{Gate, watch};

const TURNS: u64 = 200_000_000;

// Whether the flag was raised within so many turns.
fn is_raised(flag: &AtomicU64) -> bool {
    for _ in 0..TURNS {
        if flag.load(Ordering::SeqCst) == 1 {
            return true;
        }
    }
    false
}

// Holds each of two workers at its first query until the other one came to its own.
#[derive(Drop)]
struct TwoFlags {
    first: AtomicU64,
    second: AtomicU64,
    missed: AtomicU64,
}

impl Gate for TwoFlags {
    fn pass(&self, worker: usize, query: usize) {
        if query != 0 {
            return;
        }
        let (own, other) = if worker == 0 {
            (&self.first, &self.second)
        } else {
            (&self.second, &self.first)
        };
        own.store(1, Ordering::SeqCst);
        if !is_raised(other) {
            self.missed.fetch_add(1, Ordering::SeqCst);
        }
    }

    fn applied(&self, _update: usize) {}
}

#[test]
fn two_flags(rt: HostRuntime) {
    let gate = TwoFlags {
        first: AtomicU64::new(0),
        second: AtomicU64::new(0),
        missed: AtomicU64::new(0),
    };
    let mut input = MemorySource::new(b"svid\nsvid\nend\n", &[], 100);
    let mut room = [0u8; 100];
    let mut out = MemorySink::new(&mut room, &[], 100);
    let status = watch(&rt, rt.alloc(), 64, 2, &gate, &mut input, &mut out);
    assert_eq!(rt;
        (status, gate.missed.load(Ordering::SeqCst)),
        (Status::Done, 0)
    );
    assert!(rt;
        out.written()
            == b"worker 0\nsvid 0 none\nsvid 0 none\nworker 1\nsvid 0 none\nsvid 0 none\n".as_slice()
    );
}

// Holds the worker at its query until the second update was applied.
#[derive(Drop)]
struct Later {
    applied: AtomicU64,
    missed: AtomicU64,
}

impl Gate for Later {
    fn pass(&self, _worker: usize, _query: usize) {
        if !is_raised(&self.applied) {
            self.missed.fetch_add(1, Ordering::SeqCst);
        }
    }

    fn applied(&self, update: usize) {
        if update == 1 {
            self.applied.store(1, Ordering::SeqCst);
        }
    }
}

#[test]
fn watch_sees_later_update(rt: HostRuntime) {
    let gate = Later {
        applied: AtomicU64::new(0),
        missed: AtomicU64::new(0),
    };
    let script = b"update 207
MIGWMHYwdAwWc3BpZmZlOi8vZXhhbXBsZS5vcmcvYTAuAgEAMAUGAytlcAQiBCAR
ERERERERERERERERERERERERERERERERERERERERETAqMAUGAytlcAMhAE0pFn8/
GRKm9636KToFGhXAXsZ7jxcmexxVUNzoU70NMBwwGgwLZXhhbXBsZS5vcmcEC3si
a2V5cyI6W119
update 207
MIGWMHYwdAwWc3BpZmZlOi8vZXhhbXBsZS5vcmcvYTAuAgEAMAUGAytlcAQiBCAR
ERERERERERERERERERERERERERERERERERERERERETAqMAUGAytlcAMhAE0pFn8/
GRKm9636KToFGhXAXsZ7jxcmexxVUNzoU70NMBwwGgwLZXhhbXBsZS5vcmcEC3si
a2V5cyI6W119
svid
end
";
    let mut input = MemorySource::new(script, &[], 100);
    let mut room = [0u8; 100];
    let mut out = MemorySink::new(&mut room, &[], 100);
    let status = watch(&rt, rt.alloc(), 64, 1, &gate, &mut input, &mut out);
    assert_eq!(rt;
        (status, gate.missed.load(Ordering::SeqCst)),
        (Status::Done, 0)
    );
    assert!(rt;
        out.written()
            == b"accepted 1\naccepted 2\nworker 0\nsvid 2 spiffe://example.org/a\n".as_slice()
    );
}
