//! `reader_soak READERS COMPARED LOOKS`: so many readers, each in a thread of its own, look beside one thread that applies
//! the updates of standard input, which are parted by an empty line. The parts of the update with number n, from 1 on,
//! bear that number: the path of its identities and the IDs of its keys. Each reader looks COMPARED times and compares
//! all parts, so that a state that is no whole one shows; then LOOKS times more, by the revision alone.
#![tactic(auto)]

use anyhow::Result;
use command_line::{read_number, words_of};
use identity_source::{IdentityReader, IdentitySource, Snapshot};
use itoa::Buffer;
use std::alloc::Global;
use std::io::Read;
use std::process::ExitCode;
use std::sync::Wait;
use std::thread;
use std::thread::Threads;

// What a reader saw: how often another state came, how often an earlier one, and how often one of two updates.
#[derive(Drop)]
struct Seen {
    changes: u64,
    earlier: u64,
    mixed: u64,
}

impl Seen {
    fn note(&mut self, last: u64, revision: u64) {
        self.changes = self.changes.wrapping_add((revision != last) as u64);
        self.earlier = self.earlier.wrapping_add((revision < last) as u64);
    }
}

// Whether each identity and each key bears the revision's number, and there are none before the first update.
fn is_whole(state: &Snapshot) -> bool {
    let mut buffer = Buffer::new();
    let number = buffer.format(state.revision());
    let mut whole = state.svid().is_some() == (state.revision() > 0);
    for identity in state.identities() {
        whole = whole && identity.id().path().strip_prefix('/') == Some(number);
    }
    for (_, bundle) in state.bundle_set().iter() {
        for authority in bundle.jwt_authorities() {
            whole = whole && authority.key_id() == number;
        }
    }
    whole
}

fn watch(mut reader: IdentityReader, compared: u64, looks: u64) -> Seen {
    let mut seen = Seen {
        changes: 0,
        earlier: 0,
        mixed: 0,
    };
    let mut last = 0;
    for _ in 0..compared {
        let state = reader.current();
        seen.note(last, state.revision());
        seen.mixed = seen.mixed.wrapping_add(!is_whole(state) as u64);
        last = state.revision();
    }
    for _ in 0..looks {
        let revision = reader.current().revision();
        seen.note(last, revision);
        last = revision;
    }
    seen
}

fn apply_all<R: Wait>(rt: &R, source: &mut IdentitySource, texts: &str) -> u64 {
    let mut applied: u64 = 0;
    for text in texts.split("\n\n") {
        let accepted = source.apply(rt, text.as_bytes(), 64).is_ok();
        applied = applied.wrapping_add(accepted as u64);
    }
    applied
}

// How many of these texts were accepted, and what all readers saw meanwhile; none where there can't be so many readers.
fn soak<W: Threads + Wait + Sync>(
    wait: &W,
    alloc: Global,
    readers: usize,
    compared: u64,
    looks: u64,
    texts: &str,
) -> Result<Option<(u64, Seen)>> {
    if readers < 1 || 64 < readers {
        return Ok(None);
    }
    let (mut source, readers) = IdentitySource::open(wait, alloc, 0, readers)?;
    let (applied, seen) = thread::join(
        wait,
        || apply_all(wait, &mut source, texts),
        || thread::map_vec(wait, readers, &|reader| watch(reader, compared, looks)),
    );
    source.close(wait);
    let mut all = Seen {
        changes: 0,
        earlier: 0,
        mixed: 0,
    };
    for seen in seen?.iter() {
        all.changes = all.changes.wrapping_add(seen.changes);
        all.earlier = all.earlier.wrapping_add(seen.earlier);
        all.mixed = all.mixed.wrapping_add(seen.mixed);
    }
    Ok(Some((applied, all)))
}

// How many readers look, and how often.
fn numbers(words: &[String]) -> Option<(u64, u64, u64)> {
    match words {
        [readers, compared, looks] => Some((
            read_number(readers.as_str())?,
            read_number(compared.as_str())?,
            read_number(looks.as_str())?,
        )),
        _ => None,
    }
}

// Prints what was seen; `false` where the words aren't three numbers, or there can't be so many readers.
fn run<W: Threads + Wait + Sync>(rt: &HostRuntime, wait: &W) -> Result<bool> {
    let Some((readers, compared, looks)) = numbers(&words_of(rt)?) else {
        return Ok(false);
    };
    let mut input = String::new(rt.alloc());
    rt.reader().read_to_string(&mut input)?;
    match soak(wait, rt.alloc(), readers as usize, compared, looks, &input)? {
        Some((applied, seen)) => {
            println!(rt;
                "applied {applied}\nearlier {}\nmixed {}",
                seen.earlier, seen.mixed
            )?;
            eprintln!(rt; "changes {}", seen.changes)?;
            Ok(true)
        }
        None => Ok(false),
    }
}

fn main(rt: HostRuntime) -> Result<ExitCode> {
    if run(&rt, &rt)? {
        return Ok(ExitCode::from(0));
    }
    eprintln!(rt; "usage: reader_soak READERS COMPARED LOOKS < UPDATES, with 1 to 64 readers")?;
    Ok(ExitCode::from(2))
}
