//! `identity_tool`, run by the gate on a script that four workers answer.
#![tactic(auto)]

use std::process::ExitCode;

fn main(rt: HostRuntime) -> ExitCode {
    tool_program::run_program(&rt, &rt)
}
