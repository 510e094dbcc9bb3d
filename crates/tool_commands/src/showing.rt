//! The command `show`, by a source and its reader.
ghost use Rattle.std.specs.Prelude.{◌≡◌, ◌≢◌, ◌≤◌, ◌⊎◌, ◌∷◌, [], IfOk};
ghost use Rattle.identity_source.specs.Reader.{IsFresh};
ghost use Rattle.identity_source.specs.State.{opening};
ghost use Rattle.command_line.specs.Outcome.{HasSize, IsUntouched, streams_of};
ghost use Rattle.tool_commands.specs.Outcome.{Answers, Shows};
ghost use Rattle.tool_commands.specs.Report.{report_of};

use crate::answers::{Answer, refused};
use crate::report_lines::report_text;
use command_line::Status;
use identity_io::{LIMIT, Sink, Source, read_all, write_all};
use identity_source::laws::states_are_told_by_revision;
use identity_source::{IdentityReader, IdentitySource, Snapshot};
use std::alloc::{AllocError, Global};
use std::sync::Wait;

// The report of a state.
fn state_text(alloc: Global, state: &Snapshot) -> Result<Vec<u8>, AllocError>
    ensures { IfOk result (λ text. text.items ≡ report_of state.now.revision state.now.update) }
{
    report_text(
        alloc,
        state.revision(),
        state.withdrawn(),
        state.identities(),
        state.bundle_set(),
    )
}

/// The state of this revision: the one that the reader gave, or else the source's last.
pub fn chosen<'a>(seen: &'a Snapshot, latest: &'a Snapshot, revision: u64) -> &'a Snapshot
    ensures { ((seen.now.revision ≡ revision) × (result.now ≡ seen.now)) ⊎ ((seen.now.revision ≢ revision) × (result.now ≡ latest.now)) }
{
    if seen.revision() == revision {
        seen
    } else {
        latest
    }
}

// The report of the state that a source with one reader has after its first update, as the reader gives it. The text's
// room is given back before the report is made.
fn applied<R: Wait>(
    rt: &R,
    alloc: Global,
    width: usize,
    text: Vec<u8>,
    source: &mut IdentitySource,
    reader: &mut IdentityReader,
) -> Result<Answer, AllocError>
    requires opened { source.old.list ≡ opening 0 ∷ [] }
    requires fresh { IsFresh source.old reader.old }
    ensures { IfOk result (λ a. Answers width text.items a.printed.items a.status) }
{
    let receipt = match source.apply(rt, &text, width) {
        Ok(receipt) => receipt,
        Err(error) => return refused(alloc, &error),
    };
    drop(text);
    states_are_told_by_revision();
    let revision = receipt.revision();
    reader.told(receipt);
    let state = chosen(reader.current(), source.latest(), revision);
    Ok(Answer {
        printed: state_text(alloc, state)?,
        status: Status::Done,
    })
}

// What is printed of a text, by a source that is opened for it and closed behind it.
fn answer_by_source<R: Wait>(
    rt: &R,
    alloc: Global,
    width: usize,
    text: Vec<u8>,
) -> Result<Answer, AllocError>
    ensures { IfOk result (λ a. Answers width text.items a.printed.items a.status) }
{
    let Ok((mut source, mut readers)) = IdentitySource::open(rt, alloc, 0, 1) else {
        return Err(AllocError);
    };
    let answer = match readers.first_mut() {
        Some(reader) => applied(rt, alloc, width, text, &mut source, reader),
        None => unreachable!(),
    };
    source.close(rt);
    answer
}

/// Does what `report` does by a source that is opened at revision 0: the update is applied, its receipt
/// told to a reader, and the report is of the state that the reader gives. It may wait for the reader,
/// which is its own.
pub fn show<R: Wait, S: Source, K: Sink>(
    rt: &R,
    alloc: Global,
    width: usize,
    input: &mut S,
    out: &mut K,
) -> Status
    ensures shows { Shows width
        (streams_of S.left S.faults K.written K.faults input.old out.old)
        (streams_of S.left S.faults K.written K.faults input.new out.new) result }
    ensures size { HasSize LIMIT (S.left input.old) result }
    ensures untouched { IsUntouched result (out.new ≡ out.old) }
    ensures later { (S.faults input.old ≤ S.faults input.new) × (K.faults out.old ≤ K.faults out.new) }
{
    let text = match read_all(alloc, input) {
        Ok(text) => text,
        Err(error) => return Status::from(error),
    };
    let Ok(answer) = answer_by_source(rt, alloc, width, text) else {
        return Status::OutOfMemory;
    };
    match write_all(out, &answer.printed) {
        Ok(()) => answer.status,
        Err(_) => Status::SinkFailed,
    }
}
