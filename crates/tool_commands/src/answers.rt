//! The answer to an update text: its report, or the line of its refusal.
ghost use Rattle.std.specs.Prelude.{◌≡◌, ◌≢◌, ◌≤◌, ◌<◌, IfOk, IfSome, length, string_bytes};
ghost use Rattle.command_line.specs.Outcome.{HasSize, IsUntouched, streams_of};
ghost use Rattle.tool_commands.specs.Outcome.{Answers, Shows};
ghost use Rattle.refusal_lines.specs.Refusal.{refusal_line};
ghost use Rattle.command_line.specs.declared.status.Status.{Status};

use crate::report_lines::report_text;
use command_line::Status;
use identity_io::{LIMIT, Sink, Source, read_all, write_all};
use identity_source::{Update, UpdateError};
use refusal_lines::refusal_text;
use std::alloc::{AllocError, Global};

/// What is printed of a text, and the status that goes with it.
#[derive(Drop)]
pub(crate) struct Answer {
    pub(crate) printed: Vec<u8>,
    pub(crate) status: Status,
}

/// The answer to a text that is refused.
pub(crate) fn refused(alloc: Global, error: &UpdateError) -> Result<Answer, AllocError>
    ensures status { IfOk result (λ a. a.status ≡ Status.Refused) }
    ensures printed { IfOk result (λ a. a.printed.items ≡ refusal_line error.now) }
    ensures rule { IfOk result (λ _. error.now ≢ UpdateError.OutOfMemory) }
{
    Ok(Answer {
        printed: refusal_text(alloc, error)?.into_bytes(),
        status: Status::Refused,
    })
}

// The text's room is given back before the report is made.
fn answer_to(alloc: Global, width: usize, text: Vec<u8>) -> Result<Answer, AllocError>
    ensures { IfOk result (λ a. Answers width text.items a.printed.items a.status) }
{
    let update = match Update::read(alloc, &text, width) {
        Ok(update) => update,
        Err(error) => return refused(alloc, &error),
    };
    drop(text);
    Ok(Answer {
        printed: report_text(
            alloc,
            1,
            update.reason(),
            update.entries(),
            update.bundle_set(),
        )?,
        status: Status::Done,
    })
}

/// Reads the text of an update to its end, and writes its report or the line of its refusal. It takes
/// up to `LIMIT` bytes, waits for nobody, and writes nothing before the answer is whole.
pub fn report<S: Source, K: Sink>(alloc: Global, width: usize, input: &mut S, out: &mut K) -> Status
    ensures shows { Shows width
        (streams_of S.left S.faults K.written K.faults input.old out.old)
        (streams_of S.left S.faults K.written K.faults input.new out.new) result }
    ensures size { HasSize LIMIT (S.left input.old) result }
    ensures untouched { IsUntouched result (out.new ≡ out.old) }
    ensures later { (S.faults input.old ≤ S.faults input.new) × (K.faults out.old ≤ K.faults out.new) }
{
    let text = match read_all(alloc, input) {
        Ok(text) => text,
        Err(error) => return Status::from(error),
    };
    let Ok(answer) = answer_to(alloc, width, text) else {
        return Status::OutOfMemory;
    };
    match write_all(out, &answer.printed) {
        Ok(()) => answer.status,
        Err(_) => Status::SinkFailed,
    }
}
