//! The program's edge: its words, its standard streams, and what it says to a person.
ghost use Rattle.std.specs.Prelude.{◌≡◌, ◌≤◌, length, option_map};
ghost use Rattle.std.specs.Process.{exit_status};
ghost use Rattle.bundle_selection.specs.Notice.{selection_notice};
ghost use Rattle.bundle_selection.specs.Selection.{HasRun};
ghost use Rattle.command_line.specs.Outcome.{streams_of};
ghost use Rattle.command_line.specs.Status.{status_number};
ghost use Rattle.command_line.specs.declared.status.Status.{Status};

use crate::selecting::select;
use command_line::{Status, end, unread, words_of};
use identity_io::{LIMIT, Sink, Source, StdSink, StdSource};
use std::io;
use std::process::ExitCode;

// What a person at the terminal is told, none where the output says it.
fn notice(status: Status) -> Option<&'static str>
    ensures { option_map (λ text. text.now) result ≡ selection_notice status }
{
    match status {
        Status::Usage => Some("usage: bundle_keys < DOCUMENT"),
        Status::TooLong => Some("the document has more than 16777216 bytes"),
        other => other.notice(),
    }
}

// Tells a person how a run ended, and gives its exit status.
fn end_with(rt: &HostRuntime, status: Status) -> ExitCode
    ensures { exit_status result ≡ status_number status }
{
    end(rt, "bundle_keys", status, notice(status))
}

/// Selects the keys of the document of a source, where there are no words, and gives the exit status. Where it is above
/// 1, one line on standard error says what it means; a failure there changes nothing.
pub fn run_over<S: Source, K: Sink>(
    rt: &HostRuntime,
    words: &[String],
    input: &mut S,
    out: &mut K,
) -> ExitCode
    ensures ran { (status : Status) × (exit_status result ≡ status_number status) × HasRun LIMIT (length words.now)
        (streams_of S.left S.faults K.written K.faults input.old out.old)
        (streams_of S.left S.faults K.written K.faults input.new out.new)
        status (input.new ≡ input.old) (out.new ≡ out.old) }
    ensures later { (S.faults input.old ≤ S.faults input.new) × (K.faults out.old ≤ K.faults out.new) }
{
    let status = select(rt.alloc(), words, input, out);
    end_with(rt, status)
}

/// Selects the keys of the document on standard input, and gives the exit status of [`run_over`], or that of words that
/// could not be read.
pub fn run_program(rt: &HostRuntime) -> ExitCode {
    let mut input = StdSource::new(rt.reader());
    let mut out = StdSink::new(io::writer(rt));
    match words_of(rt) {
        Ok(words) => run_over(rt, &words, &mut input, &mut out),
        Err(error) => end_with(rt, unread(error.kind())),
    }
}
