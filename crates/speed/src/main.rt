// Measures how fast the library is; bench/run holds it against plain C.
#![tactic(auto)]

mod ciphers;
mod sealing;

use anyhow::bail;
use ciphers::measure_aes;
use sealing::measure_sealing;
use std::env;

const USAGE: &str = "speed aes: enciphers 64 MiB and prints MiB/s with the last block
speed sealer: seals and opens telegrams of 8, 64 and 474 octets and prints frames per second with the last nonce";

fn main(rt: HostRuntime) -> anyhow::Result<()> {
    let mode = env::args(&rt)?.nth(1);
    match mode.as_ref().map(|word| word.as_str()) {
        None => {
            println!(rt; "{USAGE}")?;
            Ok(())
        }
        Some("aes") => measure_aes(&rt),
        Some("sealer") => measure_sealing(&rt),
        Some(_) => bail!("unknown word; with none, speed says which it knows"),
    }
}
