// Measures how fast the gateway is; bench/run holds it against plain C.
#![tactic(auto)]

mod calls;

use anyhow::bail;
use calls::measure_calls;
use std::env;

const USAGE: &str =
    "call_speed calls: lets wrappers arrive at a gateway and prints calls per second with a digest of all answers";

fn main(rt: HostRuntime) -> anyhow::Result<()> {
    let mode = env::args(&rt)?.nth(1);
    match mode.as_ref().map(|word| word.as_str()) {
        None => {
            println!(rt; "{USAGE}")?;
            Ok(())
        }
        Some("calls") => measure_calls(&rt),
        Some(_) => bail!("unknown word; with none, call_speed says which it knows"),
    }
}
