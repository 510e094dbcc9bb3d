//! How a program ends.
ghost use Rattle.std.specs.Prelude.{◌≡◌};
ghost use Rattle.std.specs.Process.{exit_status};
ghost use Rattle.command_line.specs.Status.{status_number};

use crate::status::Status;
use std::process::ExitCode;

/// Writes what a person is told of a status to standard error, in one line behind the program's name, and gives the
/// exit status. Where nothing is to be told, nothing is written; that the line could not be written changes nothing.
pub fn end(rt: &HostRuntime, program: &str, status: Status, notice: Option<&str>) -> ExitCode
    ensures { exit_status result ≡ status_number status }
{
    if let Some(notice) = notice {
        let _ = eprintln!(rt; "{program}: {notice}");
    }
    ExitCode::from(status.number())
}
