//! `bundle_keys`: writes the key set of a SPIFFE bundle document, as a bundle of an update holds it.
#![tactic(auto)]

use std::process::ExitCode;

fn main(rt: HostRuntime) -> ExitCode {
    bundle_selection::run_program(&rt)
}
