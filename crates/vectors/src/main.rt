// Tries the library against published vectors: AES-128 against FIPS 197, the KNX sealer against the KNX sample session.
#![tactic(auto)]

mod ciphers;
mod sealing;

ghost use Rattle.vectors.specs.Examples.{ExampleVector, WorkedExample};

use anyhow::{bail, ensure};
use ciphers::try_aes;
use octets::hex::Hex;
use sealing::try_knx;
use std::env;

// The standard's two examples hold of the definition that the code is proved against; there is nothing to compute.
pub fn examples_hold()
    ensures worked_example { WorkedExample }
    ensures example_vector { ExampleVector }
{}

// Prints what was made, or says that it is not what is published.
fn compare(rt: &HostRuntime, name: &str, made: &[u8], published: &[u8]) -> anyhow::Result<()> {
    let shown = Hex(made);
    if made != published {
        println!(rt; "{name}: {shown} is not what is published")?;
        bail!("a vector failed");
    }
    println!(rt; "{name}: {shown}")?;
    Ok(())
}

fn main(rt: HostRuntime) -> anyhow::Result<()> {
    ensure!(env::args(&rt)?.nth(1).is_none(), "vectors takes no words");
    try_aes(&rt)?;
    try_knx(&rt)
}
