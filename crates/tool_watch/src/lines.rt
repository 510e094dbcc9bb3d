//! What is written of what the workers saw.
ghost use Rattle.std.specs.Prelude.{◌≡◌, ◌≤◌, ◌<◌, ◌++◌, All, IfOk, OnOk, length, map, vec_len};
ghost use Rattle.tool_watch.specs.WatchText.{answers_at, query_reply, state_at, worker_line, workers_at};

use crate::applying::Applied;
use crate::asked::Query;
use identity_source::Snapshot;
use std::alloc::{AllocError, Global};
use tool_script::{bundle_text, svid_text};

// The state of the revision, or the last one where there is none of it.
fn state_of(states: &[Snapshot], revision: u64) -> &Snapshot
    requires { 0 < length states.now }
    ensures { result.now ≡ state_at states.now revision }
{
    let last = states.len() - 1;
    &states[(revision as usize).min(last)]
}

fn reply_in(alloc: Global, query: &Query, state: &Snapshot) -> Result<Vec<u8>, AllocError>
    ensures { IfOk result (λ reply. reply.items ≡ query_reply query.now state.now) }
{
    match query {
        Query::Svid => svid_text(alloc, state),
        Query::Bundle(domain) => bundle_text(alloc, domain, state),
    }
}

// Appends the replies in the states of these revisions.
fn push_answers(
    text: &mut Vec<u8>,
    alloc: Global,
    queries: &[Query],
    states: &[Snapshot],
    seen: &[u64],
) -> Result<(), AllocError>
    requires some { 0 < length states.now }
    requires each { length seen.now ≡ length queries.now }
    ensures { OnOk result (text.new.items ≡ text.old.items ++ answers_at states.now queries.now seen.now) }
{
    for (place, query) in queries.iter().enumerate() {
        let reply = reply_in(alloc, query, state_of(states, seen[place]))?;
        text.extend_from_slice(&reply)?;
    }
    Ok(())
}

// Appends the line of a worker.
fn push_line(text: &mut Vec<u8>, alloc: Global, number: usize) -> Result<(), AllocError>
    ensures { OnOk result (text.new.items ≡ text.old.items ++ worker_line number) }
{
    let line = format!(in alloc; "worker {number}\n")?;
    text.extend_from_slice(line.as_bytes())
}

// Appends each worker with its replies, from worker 0 on.
fn push_workers(
    text: &mut Vec<u8>,
    alloc: Global,
    queries: &[Query],
    states: &[Snapshot],
    seen: &[Vec<u64>],
) -> Result<(), AllocError>
    requires some { 0 < length states.now }
    requires each { All (λ revisions. vec_len revisions ≡ length queries.now) seen.now }
    ensures { OnOk result (text.new.items ≡ text.old.items ++ workers_at states.now queries.now (map (λ revisions. revisions.items) seen.now)
        (length seen.now)) }
{
    for (number, revisions) in seen.iter().enumerate() {
        push_line(text, alloc, number)?;
        push_answers(text, alloc, queries, states, revisions)?;
    }
    Ok(())
}

impl Applied {
    /// The replies to the updates, and behind them the workers.
    pub(crate) fn with_workers(
        self,
        alloc: Global,
        queries: &[Query],
        seen: &[Vec<u64>],
    ) -> Result<Vec<u8>, AllocError>
        requires some { 0 < length self.states.items }
        requires each { All (λ revisions. vec_len revisions ≡ length queries.now) seen.now }
        ensures { IfOk result (λ text. text.items ≡ self.replies.items
            ++ workers_at self.states.items queries.now (map (λ revisions. revisions.items) seen.now) (length seen.now)) }
    {
        let Applied {
            states,
            mut replies,
        } = self;
        push_workers(&mut replies, alloc, queries, &states, seen)?;
        Ok(replies)
    }
}
