//! `identity_tool`, run by the gate with a word too many, which is no command.
#![tactic(auto)]

use std::process::ExitCode;

fn main(rt: HostRuntime) -> ExitCode {
    tool_program::run_program(&rt, &rt)
}
