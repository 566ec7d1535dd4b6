//! The program once more, for a run that ends with a status other than 0.
#![tactic(auto)]

use std::process::ExitCode;

fn main(rt: HostRuntime) -> ExitCode {
    erlay_process::start(rt)
}
