//! The program: its words, its standard streams, and what it says to a person.
ghost use Rattle.std.specs.Prelude.{◌≡◌, ◌≤◌, option_map};
ghost use Rattle.std.specs.Process.{exit_status};
ghost use Rattle.command_line.specs.Outcome.{streams_of};
ghost use Rattle.command_line.specs.Status.{status_number};
ghost use Rattle.command_line.specs.Words.{texts};
ghost use Rattle.command_line.specs.declared.status.Status.{Status};
ghost use Rattle.tool_program.specs.Notice.{tool_notice};
ghost use Rattle.tool_program.specs.Runs.{HasRun};

use crate::commands::run;
use command_line::{Status, end, unread, words_of};
use identity_io::{LIMIT, Sink, Source, StdSink, StdSource};
use std::io;
use std::process::ExitCode;
use std::sync::Wait;
use std::thread::Threads;

// What a person at the terminal is told, none where the output says it.
fn notice(status: Status) -> Option<&'static str>
    ensures { option_map (λ text. text.now) result ≡ tool_notice status }
{
    match status {
        Status::Usage => {
            Some(
                "usage: identity_tool show WIDTH < UPDATE, serve WIDTH < SCRIPT, watch WIDTH WORKERS < SCRIPT or make N",
            )
        }
        Status::TooLong => {
            Some(
                "the input has an update of more than 16777216 bytes, under watch updates of more than that together, or more than 10000 requests",
            )
        }
        Status::BadScript => {
            Some("the script has a line that is no request, or ends before its end")
        }
        other => other.notice(),
    }
}

// Tells a person how a run ended, and gives its exit status.
fn end_with(rt: &HostRuntime, status: Status) -> ExitCode
    ensures { exit_status result ≡ status_number status }
{
    end(rt, "identity_tool", status, notice(status))
}

/// Runs the words over a source and a sink, and gives the exit status. Where it is above 1, one line on standard error
/// says what it means; a failure there changes nothing.
pub fn run_over<W: Threads + Wait + Sync, S: Source, K: Sink>(
    rt: &HostRuntime,
    wait: &W,
    words: &[String],
    input: &mut S,
    out: &mut K,
) -> ExitCode
    ensures ran { (status : Status) × (exit_status result ≡ status_number status) × HasRun LIMIT (texts words.now)
        (streams_of S.left S.faults K.written K.faults input.old out.old)
        (streams_of S.left S.faults K.written K.faults input.new out.new)
        status (input.new ≡ input.old) (out.new ≡ out.old) }
    ensures later { (S.faults input.old ≤ S.faults input.new) × (K.faults out.old ≤ K.faults out.new) }
{
    let status = run(wait, rt.alloc(), words, input, out);
    end_with(rt, status)
}

/// Runs the words of the command line over standard input and standard output, and gives the exit status of
/// [`run_over`], or that of words that could not be read.
pub fn run_program<W: Threads + Wait + Sync>(rt: &HostRuntime, wait: &W) -> ExitCode {
    let mut input = StdSource::new(rt.reader());
    let mut out = StdSink::new(io::writer(rt));
    match words_of(rt) {
        Ok(words) => run_over(rt, wait, &words, &mut input, &mut out),
        Err(error) => end_with(rt, unread(error.kind())),
    }
}
