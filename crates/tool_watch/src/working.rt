//! The workers: each has a reader of its own.
ghost use Rattle.std.specs.Prelude.{◌≡◌, ◌≤◌, ◌<◌, ◌∷◌, [], ℕ, All, IfOk, false, slice_index_or, vec_len};
ghost use Rattle.identity_source.specs.History.{last_revision};
ghost use Rattle.identity_source.specs.State.{opening};
ghost use Rattle.tool_watch.specs.Applied.{IsList};
ghost use Rattle.tool_watch.specs.Seen.{HasRoom, IsReady, IsSeen};

use crate::gate::Gate;
use identity_source::{IdentityReader, IdentitySource};
use std::alloc::{AllocError, Global};
use std::thread;
use std::thread::Threads;

/// What a worker sets out with: its number, its reader, and room for the revision that it sees at each query.
#[derive(Drop)]
pub(crate) struct Job {
    number: usize,
    pub(crate) reader: IdentityReader,
    pub(crate) seen: Vec<u64>,
}

// A worker whose reader was told of the first update, if this was accepted.
fn seat(
    source: &mut IdentitySource,
    accepted: bool,
    number: usize,
    mut reader: IdentityReader,
    seen: Vec<u64>,
) -> Result<Job, AllocError>
    requires name { reader.sight.name ≡ source.old.name }
    requires opened { reader.list ≡ opening 0 ∷ [] }
    requires list { IsList source.old.list }
    requires refused { accepted ≡ false → source.old.list ≡ opening 0 ∷ [] }
    ensures at { IfOk result (λ job. job.reader.list ≡ source.old.list) }
    ensures room { IfOk result (λ job. job.seen ≡ seen) }
    ensures same { source.new ≡ source.old }
{
    if accepted {
        let Ok(receipt) = source.receipt() else {
            return Err(AllocError);
        };
        reader.told(receipt);
        return Ok(Job {
            number,
            reader,
            seen,
        });
    }
    Ok(Job {
        number,
        reader,
        seen,
    })
}

/// A worker for each reader of a source that was opened at 0. Each is told of the first update, if this was accepted.
pub(crate) fn seat_all(
    alloc: Global,
    source: &mut IdentitySource,
    accepted: bool,
    mut readers: Vec<IdentityReader>,
    queries: usize,
) -> Result<Vec<Job>, AllocError>
    requires opened { All (λ r. (r.sight.name ≡ source.old.name) × (r.list ≡ opening 0 ∷ [])) readers.items }
    requires list { IsList source.old.list }
    requires refused { accepted ≡ false → source.old.list ≡ opening 0 ∷ [] }
    ensures count { IfOk result (λ jobs. vec_len jobs ≡ vec_len readers) }
    ensures ready { IfOk result (λ jobs. All (IsReady source.old.list queries) jobs.items) }
    ensures same { source.new ≡ source.old }
{
    let mut jobs = Vec::new(alloc);
    while let Some(reader) = readers.pop() {
        let seen = Vec::with_capacity(alloc, queries)?;
        let job = seat(source, accepted, jobs.len(), reader, seen)?;
        jobs.push(job)?;
    }
    Ok(jobs)
}

// The revision of the state that the reader gives now.
fn look(reader: &mut IdentityReader) -> u64
    ensures rises { last_revision reader.old.list ≤ result }
    ensures last { result ≡ last_revision reader.new.list }
{
    reader.current().revision()
}

// What the worker sees at each query.
fn look_all<G: Gate>(gate: &G, job: Job, queries: usize) -> Vec<u64>
    requires { HasRoom queries job }
    ensures { IsSeen (last_revision job.reader.list) queries result.items }
{
    let Job {
        number,
        mut reader,
        mut seen,
    } = job;
    for query in 0..queries {
        gate.pass(number, query);
        seen.push_reserved(look(&mut reader));
    }
    seen
}

/// Each worker in a thread of its own, where one can be had: the revisions that it saw.
pub(crate) fn work_all<R: Threads + Sync, G: Gate + Sync>(
    rt: &R,
    gate: &G,
    jobs: Vec<Job>,
    queries: usize,
) -> Result<Vec<Vec<u64>>, AllocError>
    requires { All (HasRoom queries) jobs.items }
    ensures len { IfOk result (λ all. vec_len all ≡ vec_len jobs) }
    ensures each { IfOk result (λ all. (i : ℕ) (d : _) (j : _) → i < vec_len jobs →
        IsSeen (last_revision (slice_index_or jobs.items i j).reader.list) queries (slice_index_or all.items i d).items) }
{
    thread::map_vec(
        rt,
        jobs,
        &|job: Job| -> Vec<u64>
            requires { HasRoom queries job }
            ensures { IsSeen (last_revision job.reader.list) queries result.items }
        { look_all(gate, job, queries) },
    )
}
