//! `identity_tool`, run by the gate on a script with two accepted updates, a refused one and queries between them.
#![tactic(auto)]

use std::process::ExitCode;

fn main(rt: HostRuntime) -> ExitCode {
    tool_program::run_program(&rt, &rt)
}
