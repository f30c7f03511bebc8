// Carries out the call script on standard input. The stored script is one week of a filling station's book. It is a program beside
// outside_runs, with the same main, since a program has one stored script.
#![tactic(auto)]

use std::process::ExitCode;

fn main(rt: HostRuntime) -> ExitCode {
    script::run_standard(&rt).map_or(ExitCode::FAILURE, |()| ExitCode::SUCCESS)
}
