// What stands so far, from beginning to end: the worked example of FIPS 197, the MAC of a timer notify under the bench
// cipher, and the KNX sample session from its request to its sign-in.
#![tactic(auto)]

mod ciphers;
mod session;

use ciphers::{show_notice_mac, show_worked_example};
use octets::hex::Hex;
use session::show_session;

fn show(rt: &HostRuntime, what: &str, octets: &[u8]) -> anyhow::Result<()> {
    let shown = Hex(octets);
    println!(rt; "{what:12} {shown}")?;
    Ok(())
}

fn main(rt: HostRuntime) -> anyhow::Result<()> {
    show_worked_example(&rt)?;
    show_notice_mac(&rt)?;
    show_session(&rt)
}
