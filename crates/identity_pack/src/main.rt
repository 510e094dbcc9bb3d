//! `identity_pack`: packs the key files that a manifest names into the text of an update.
#![tactic(auto)]

use std::process::ExitCode;

fn main(rt: HostRuntime) -> ExitCode {
    pack_program::run_program(&rt)
}
