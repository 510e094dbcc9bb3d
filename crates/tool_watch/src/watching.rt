//! The call.
ghost use Rattle.std.specs.Prelude.{◌≡◌, ◌≤◌, ◌<◌, ◌⊎◌, ◌∷◌, [], ℕ, All, IfOk, length, slice_index_or, vec_len};
ghost use Rattle.identity_source.specs.History.{last_revision};
ghost use Rattle.identity_source.specs.State.{opening};
ghost use Rattle.command_line.specs.Outcome.{Calm, streams_of};
ghost use Rattle.command_line.specs.declared.status.Status.TheVariants as status;
ghost use Rattle.tool_watch.specs.Applied.{HaveReplies, IsKept, IsList};
ghost use Rattle.tool_watch.specs.Asked.{updates_in};
ghost use Rattle.tool_watch.specs.Seen.{HasRoom, IsReady, IsSeen};
ghost use Rattle.tool_watch.specs.WatchText.{IsWatched, WorksOn};
ghost use Rattle.tool_watch.specs.Watching.{EndsWell, Watches};

use crate::applying::{Applied, apply_rest};
use crate::asked::{Asked, Query};
use crate::gate::Gate;
use crate::gathering::gather;
use crate::working::{Job, seat_all, work_all};
use command_line::Status;
use identity_io::{Sink, Source, write_all};
use identity_source::{IdentityReader, IdentitySource};
use std::alloc::{AllocError, Global};
use std::sync::Wait;
use std::thread;
use std::thread::Threads;
use tool_script::laws::scripts_have_one_reading;

// What the workers saw, and what applying the rest of the updates has come to.
fn side_by_side<R: Threads + Wait + Sync, G: Gate + Sync>(
    rt: &R,
    alloc: Global,
    width: usize,
    gate: &G,
    source: &mut IdentitySource,
    applied: Applied,
    jobs: Vec<Job>,
    texts: &[Vec<u8>],
    count: usize,
) -> (
    Result<Vec<Vec<u64>>, AllocError>,
    Result<Applied, AllocError>,
)
    requires kept { IsKept source.old.list applied.states.items }
    requires ready { All (HasRoom count) jobs.items }
    ensures many { IfOk result.0 (λ all. vec_len all ≡ vec_len jobs) }
    ensures each { IfOk result.0 (λ all. (i : ℕ) (d : _) (j : _) → i < vec_len jobs →
        IsSeen (last_revision (slice_index_or jobs.items i j).reader.list) count (slice_index_or all.items i d).items) }
    ensures replies { IfOk result.1 (λ done. HaveReplies width source.old.list (updates_in texts.now) done.states.items applied.replies.items
        done.replies.items) }
    ensures list { IfOk result.1 (λ done. IsList done.states.items) }
{
    thread::join(
        rt,
        || -> Result<Vec<Vec<u64>>, AllocError>
            requires { All (HasRoom count) jobs.items }
        { work_all(rt, gate, jobs, count) },
        || apply_rest(rt, alloc, width, gate, source, applied, texts),
    )
}

// Lets the workers see what they see while the rest of the updates is applied.
fn work_beside<R: Threads + Wait + Sync, G: Gate + Sync>(
    rt: &R,
    alloc: Global,
    width: usize,
    gate: &G,
    source: &mut IdentitySource,
    applied: Applied,
    jobs: Vec<Job>,
    texts: &[Vec<u8>],
    queries: &[Query],
) -> Result<Vec<u8>, AllocError>
    requires kept { IsKept source.old.list applied.states.items }
    requires ready { All (IsReady source.old.list (length queries.now)) jobs.items }
    ensures { IfOk result (λ text. WorksOn width (vec_len jobs) source.old.list (updates_in texts.now) queries.now applied.replies.items text.items) }
{
    let (seen, applied) = side_by_side(
        rt,
        alloc,
        width,
        gate,
        source,
        applied,
        jobs,
        texts,
        queries.len(),
    );
    let seen = seen?;
    let applied = applied?;
    applied.with_workers(alloc, queries, &seen)
}

// Applies the first update, and makes the workers ready.
fn begin<R: Wait, G: Gate>(
    rt: &R,
    alloc: Global,
    width: usize,
    gate: &G,
    source: &mut IdentitySource,
    readers: Vec<IdentityReader>,
    texts: &[Vec<u8>],
    queries: usize,
) -> Result<(Applied, Vec<Job>), AllocError>
    requires opened { source.old.list ≡ opening 0 ∷ [] }
    requires readers { All (λ r. (r.sight.name ≡ source.old.name) × (r.list ≡ opening 0 ∷ [])) readers.items }
    ensures replies { IfOk result (λ begun. HaveReplies width (opening 0 ∷ []) (updates_in texts.now) source.new.list [] begun.0.replies.items) }
    ensures kept { IfOk result (λ begun. IsKept source.new.list begun.0.states.items) }
    ensures count { IfOk result (λ begun. vec_len begun.1 ≡ vec_len readers) }
    ensures ready { IfOk result (λ begun. All (IsReady source.new.list queries) begun.1.items) }
{
    let mut applied = Applied::opened(alloc, source)?;
    applied.apply_all(rt, alloc, width, gate, source, 0, texts)?;
    let accepted = applied.states.len() > 1;
    let jobs = seat_all(alloc, source, accepted, readers, queries)?;
    Ok((applied, jobs))
}

// The text that is written, by a source that was just opened.
fn answer_by<R: Threads + Wait + Sync, G: Gate + Sync>(
    rt: &R,
    alloc: Global,
    width: usize,
    gate: &G,
    asked: &Asked,
    source: &mut IdentitySource,
    readers: Vec<IdentityReader>,
) -> Result<Vec<u8>, AllocError>
    requires opened { source.old.list ≡ opening 0 ∷ [] }
    requires readers { All (λ r. (r.sight.name ≡ source.old.name) × (r.list ≡ opening 0 ∷ [])) readers.items }
    ensures { IfOk result (λ text. IsWatched width (vec_len readers) (updates_in asked.now.updates.items) asked.now.queries.items text.items) }
{
    let texts = asked.updates.as_slice();
    let (first, rest) = texts.split_at(texts.len().min(1));
    let queries = asked.queries.as_slice();
    let (applied, jobs) = begin(
        rt,
        alloc,
        width,
        gate,
        source,
        readers,
        first,
        queries.len(),
    )?;
    work_beside(rt, alloc, width, gate, source, applied, jobs, rest, queries)
}

// The text that is written.
fn answer<R: Threads + Wait + Sync, G: Gate + Sync>(
    rt: &R,
    alloc: Global,
    width: usize,
    workers: usize,
    gate: &G,
    asked: &Asked,
) -> Result<Vec<u8>, AllocError>
    requires { (1 ≤ workers) × (workers ≤ 8) }
    ensures { IfOk result (λ text. IsWatched width workers (updates_in asked.now.updates.items) asked.now.queries.items text.items) }
{
    let Ok((mut source, readers)) = IdentitySource::open(rt, alloc, 0, workers) else {
        return Err(AllocError);
    };
    let text = answer_by(rt, alloc, width, gate, asked, &mut source, readers);
    source.close(rt);
    text
}

/// Answers a script, read to its end first, by workers that look at one source while its updates are applied. It may wait
/// for its own threads. Nothing is written before all answers are made: where the source fails, the script is none or is
/// too long, or memory is wanted, a sink that tells its bytes has those of before.
pub fn watch<R: Threads + Wait + Sync, S: Source, K: Sink, G: Gate + Sync>(
    rt: &R,
    alloc: Global,
    width: usize,
    workers: usize,
    gate: &G,
    input: &mut S,
    out: &mut K,
) -> Status
    requires { (1 ≤ workers) × (workers ≤ 8) }
    ensures watches { Watches width workers
        (streams_of S.left S.faults K.written K.faults input.old out.old)
        (streams_of S.left S.faults K.written K.faults input.new out.new) result }
    ensures complete { Calm (S.faults input.old) (S.faults input.new) → Calm (K.faults out.old) (K.faults out.new) → EndsWell (S.left input.old)
        → (result ≡ status.Done) ⊎ (result ≡ status.OutOfMemory) }
    ensures later { (S.faults input.old ≤ S.faults input.new) × (K.faults out.old ≤ K.faults out.new) }
{
    scripts_have_one_reading();
    let asked = match gather(alloc, input) {
        Ok(asked) => asked,
        Err(status) => return status,
    };
    let Ok(text) = answer(rt, alloc, width, workers, gate, &asked) else {
        return Status::OutOfMemory;
    };
    match write_all(out, &text) {
        Ok(()) => Status::Done,
        Err(_) => Status::SinkFailed,
    }
}
