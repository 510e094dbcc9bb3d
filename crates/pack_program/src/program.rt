//! The program's edge: its words, its files and standard output, and what it says to a person.
ghost use Rattle.std.specs.Prelude.{◌≡◌, ◌≤◌, option_map};
ghost use Rattle.std.specs.Process.{exit_status};
ghost use Rattle.command_line.specs.Status.{status_number};
ghost use Rattle.command_line.specs.Words.{texts};
ghost use Rattle.command_line.specs.declared.status.Status.{Status};
ghost use Rattle.pack_program.specs.Notice.{packing_notice};
ghost use Rattle.pack_program.specs.Run.{HasRun, devices_of};

use crate::running::run;
use command_line::{Status, end, unread, words_of};
use identity_io::{Disk, Sink, StdDisk, StdSink};
use std::io;
use std::process::ExitCode;

// What a person at the terminal is told, none where the output says it.
fn notice(status: Status) -> Option<&'static str>
    ensures { option_map (λ text. text.now) result ≡ packing_notice status }
{
    match status {
        Status::Usage => Some("usage: identity_pack pack MANIFEST WIDTH"),
        Status::SourceFailed => Some("a file could not be read"),
        other => other.notice(),
    }
}

// Tells a person how a run ended, and gives its exit status.
fn end_with(rt: &HostRuntime, status: Status) -> ExitCode
    ensures { exit_status result ≡ status_number status }
{
    end(rt, "identity_pack", status, notice(status))
}

/// Packs what the words order over a disk and a sink, and gives the exit status. Where it is above 1, one line on
/// standard error says what it means; a failure there changes nothing.
pub fn run_over<D: Disk, K: Sink>(
    rt: &HostRuntime,
    words: &[String],
    disk: &mut D,
    out: &mut K,
) -> ExitCode
    ensures ran { (status : Status) × (exit_status result ≡ status_number status) × HasRun (texts words.now)
        (devices_of D.files D.faults K.written K.faults disk.old out.old)
        (devices_of D.files D.faults K.written K.faults disk.new out.new)
        status (disk.new ≡ disk.old) (out.new ≡ out.old) }
    ensures later { (D.faults disk.old ≤ D.faults disk.new) × (K.faults out.old ≤ K.faults out.new) }
{
    let status = run(rt.alloc(), words, disk, out);
    end_with(rt, status)
}

/// Packs the key files that a manifest names to standard output, and gives the exit status of [`run_over`], or that of
/// words that could not be read.
pub fn run_program(rt: &HostRuntime) -> ExitCode {
    let mut disk = StdDisk::new(rt);
    let mut out = StdSink::new(io::writer(rt));
    match words_of(rt) {
        Ok(words) => run_over(rt, &words, &mut disk, &mut out),
        Err(error) => end_with(rt, unread(error.kind())),
    }
}
