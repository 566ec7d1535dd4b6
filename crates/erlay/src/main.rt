//! The program `erlay`.
#![tactic(auto)]

use std::process::ExitCode;

fn main(rt: HostRuntime) -> ExitCode {
    erlay_process::start(rt)
}
