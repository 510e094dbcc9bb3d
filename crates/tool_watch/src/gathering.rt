//! A script is read to its end before anything is answered.
ghost use Rattle.std.specs.Prelude.{◌≤◌, IfErr, IfOk};
ghost use Rattle.tool_watch.specs.Asked.{IsAsked, IsUnread, updates_in};

use crate::asked::Asked;
use command_line::Status;
use identity_io::{LIMIT, Source};
use std::alloc::Global;
use tool_script::{Ahead, Ending, Next, Stop, next_request};

/// What the whole script asks for, or why it was not read to a good end.
pub(crate) fn gather<S: Source>(alloc: Global, input: &mut S) -> Result<Asked, Status>
    ensures asked { IfOk result (λ asked. IsAsked (S.left input.old) (updates_in asked.updates.items) asked.queries.items) }
    ensures unread { IfErr result (IsUnread (S.left input.old) (S.faults input.old) (S.faults input.new)) }
    ensures later { S.faults input.old ≤ S.faults input.new }
{
    let mut ahead = Ahead::new(alloc);
    let mut asked = Asked::new(alloc);
    let mut count = 0u64;
    let mut most = LIMIT as u64;
    'requests: loop {
        let request = match next_request(alloc, &mut ahead, input, count, most) {
            Ok(Next::Request(request)) => request,
            Ok(Next::End(Ending::Done)) => return Ok(asked),
            Ok(Next::End(Ending::TooLong)) => return Err(Status::TooLong),
            Ok(Next::End(Ending::BadScript)) => return Err(Status::BadScript),
            Err(Stop::Failed) => return Err(Status::SourceFailed),
            Err(Stop::OutOfMemory) => return Err(Status::OutOfMemory),
        };
        match asked.push(request) {
            Ok(size) => most -= size,
            Err(_) => return Err(Status::OutOfMemory),
        }
        count += 1;
    }
}
