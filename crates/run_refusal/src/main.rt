//! `identity_tool`, run by the gate on a text with a line ending at its end, which is refused.
#![tactic(auto)]

use std::process::ExitCode;

fn main(rt: HostRuntime) -> ExitCode {
    tool_program::run_program(&rt, &rt)
}
