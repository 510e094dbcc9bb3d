//! The top call.
ghost use Rattle.std.specs.Prelude.{◌≡◌, ◌≢◌, ◌≤◌, ◌↔◌, ℕ};
ghost use Rattle.command_line.specs.Outcome.{streams_of};
ghost use Rattle.command_line.specs.declared.status.Status.{Status};
ghost use Rattle.tool_program.specs.Runs.{Ran};
ghost use Rattle.command_line.specs.Words.{texts};
ghost use Rattle.tool_program.specs.Words.{IsCommand, IsUsage};
ghost use Rattle.tool_program.specs.declared.words.Command.{Command};

use crate::words::{Command, read_words};
use command_line::Status;
use identity_io::{LIMIT, Sink, Source};
use std::alloc::Global;
use std::sync::Wait;
use std::thread::Threads;
use tool_commands::{make, show};
use tool_script::session;
use tool_watch::{OpenGate, watch};

/// Does what the words after the program's name say, and answers how it ended. A command may wait for threads of its own.
pub fn run<R: Threads + Wait + Sync, S: Source, K: Sink>(
    rt: &R,
    alloc: Global,
    words: &[String],
    input: &mut S,
    out: &mut K,
) -> Status
    ensures usage { result ≡ Status.Usage ↔ IsUsage (texts words.now) }
    ensures not_begun { result ≡ Status.Usage → (input.new ≡ input.old) × (out.new ≡ out.old) }
    ensures ran { result ≢ Status.Usage → (command : Command) × IsCommand (texts words.now) command × Ran LIMIT command
        (streams_of S.left S.faults K.written K.faults input.old out.old)
        (streams_of S.left S.faults K.written K.faults input.new out.new)
        result (input.new ≡ input.old) (out.new ≡ out.old) }
    ensures later { (S.faults input.old ≤ S.faults input.new) × (K.faults out.old ≤ K.faults out.new) }
{
    match read_words(words) {
        Some(Command::Show(width)) => show(rt, alloc, width as usize, input, out),
        Some(Command::Serve(width)) => session(rt, alloc, width as usize, input, out),
        Some(Command::Watch(width, workers)) => watch(
            rt,
            alloc,
            width as usize,
            workers as usize,
            &OpenGate,
            input,
            out,
        ),
        Some(Command::Make(n)) => make(alloc, n, out),
        None => Status::Usage,
    }
}
