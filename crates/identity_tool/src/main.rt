//! `identity_tool`: reports the SPIFFE identities and trust bundles of an update text.
#![tactic(auto)]

use std::process::ExitCode;

fn main(rt: HostRuntime) -> ExitCode {
    tool_program::run_program(&rt, &rt)
}
