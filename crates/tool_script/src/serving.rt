//! Sessions: each request of a script is answered before the next one is read.
ghost use Rattle.std.specs.Prelude.{◌≡◌, ◌≤◌, ◌⊎◌, ◌∷◌, []};
ghost use Rattle.identity_source.specs.Reader.{IsFresh};
ghost use Rattle.identity_source.specs.State.{opening};
ghost use Rattle.command_line.specs.Outcome.{Calm, streams_of};
ghost use Rattle.tool_script.specs.Session.{EndsWell, Serves};
ghost use Rattle.command_line.specs.declared.status.Status.TheVariants as status;

use crate::ahead::{Ahead, Stop};
use crate::answering::answer;
use crate::laws::scripts_have_one_reading;
use crate::reading::next_request;
use crate::request::{Ending, Next};
use command_line::Status;
use identity_io::{LIMIT, Sink, Source, write_all};
use identity_source::{IdentityReader, IdentitySource};
use std::alloc::Global;
use std::sync::Wait;

// Answers a script by a source that was just opened, and its reader.
fn serve<R: Wait, S: Source, K: Sink>(
    rt: &R,
    alloc: Global,
    width: usize,
    source: &mut IdentitySource,
    reader: &mut IdentityReader,
    input: &mut S,
    out: &mut K,
) -> Status
    requires opened { source.old.list ≡ opening 0 ∷ [] }
    requires fresh { IsFresh source.old reader.old }
    ensures serves { Serves width
        (streams_of S.left S.faults K.written K.faults input.old out.old)
        (streams_of S.left S.faults K.written K.faults input.new out.new) result }
    ensures later { (S.faults input.old ≤ S.faults input.new) × (K.faults out.old ≤ K.faults out.new) }
{
    let mut ahead = Ahead::new(alloc);
    let mut count = 0u64;
    'requests: loop {
        let request = match next_request(alloc, &mut ahead, input, count, LIMIT as u64) {
            Ok(Next::Request(request)) => request,
            Ok(Next::End(Ending::Done)) => return Status::Done,
            Ok(Next::End(Ending::TooLong)) => return Status::TooLong,
            Ok(Next::End(Ending::BadScript)) => return Status::BadScript,
            Err(Stop::Failed) => return Status::SourceFailed,
            Err(Stop::OutOfMemory) => return Status::OutOfMemory,
        };
        let reply = match answer(rt, alloc, width, &request, source, reader) {
            Ok(reply) => reply,
            Err(_) => return Status::OutOfMemory,
        };
        match write_all(out, reply.as_slice()) {
            Ok(()) => {}
            Err(_) => return Status::SinkFailed,
        }
        count += 1;
    }
}

/// Answers the requests of a script one by one, by a source that is opened at revision 0 and told to
/// one reader: each reply is written before the next request is read. It may wait for the reader, which
/// is its own.
pub fn session<R: Wait, S: Source, K: Sink>(
    rt: &R,
    alloc: Global,
    width: usize,
    input: &mut S,
    out: &mut K,
) -> Status
    ensures serves { Serves width
        (streams_of S.left S.faults K.written K.faults input.old out.old)
        (streams_of S.left S.faults K.written K.faults input.new out.new) result }
    ensures complete { Calm (S.faults input.old) (S.faults input.new) → Calm (K.faults out.old) (K.faults out.new) → EndsWell (S.left input.old)
        → (result ≡ status.Done) ⊎ (result ≡ status.OutOfMemory) }
    ensures later { (S.faults input.old ≤ S.faults input.new) × (K.faults out.old ≤ K.faults out.new) }
{
    let Ok((mut source, mut readers)) = IdentitySource::open(rt, alloc, 0, 1) else {
        return Status::OutOfMemory;
    };
    let status = match readers.first_mut() {
        Some(reader) => serve(rt, alloc, width, &mut source, reader, input, out),
        None => unreachable!(),
    };
    source.close(rt);
    scripts_have_one_reading();
    status
}
