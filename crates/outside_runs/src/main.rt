// The program week on another script: runs of twelve gateways with the answers of an independent model. A program has one stored
// script, and so these are two.
#![tactic(auto)]

use std::process::ExitCode;

fn main(rt: HostRuntime) -> ExitCode {
    script::run_standard(&rt).map_or(ExitCode::FAILURE, |()| ExitCode::SUCCESS)
}
