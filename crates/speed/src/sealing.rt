// How fast the KNX sealer over AES-128 is: a telegram sealed and opened again and again.
use anyhow::ensure;
use cipher::aes::Aes128;
use octets::hex::Hex;
use published::fips::KEY_A1;
use published::knx::WRAPPER_START;
use sealer::sealers::Knx;
use sealer::{Nonce, Sealer};
use std::time::Instant;

const ROUNDS: u32 = 40_000;

// Each MAC is part of the next nonce, so that no turn can be left out. The flag is gathered, since a way out of the loop would be measured too.
fn seal_often(nonce: &mut Nonce, text: &mut [u8]) -> bool {
    let mut opened = true;
    if text.len() > sealer::LARGEST_TELEGRAM {
        return false;
    }
    for _ in 0..ROUNDS {
        let mac = Knx::<Aes128>::seal(KEY_A1, nonce, WRAPPER_START, text);
        opened &= Knx::<Aes128>::open(KEY_A1, nonce, WRAPPER_START, text, &mac);
        nonce.copy_from_slice(&mac[0..14]);
    }
    opened
}

fn measure_length(rt: &HostRuntime, text: &mut [u8]) -> anyhow::Result<()> {
    let mut nonce = [0; 14];
    let start = Instant::now(rt)?;
    ensure!(
        seal_often(&mut nonce, text),
        "a sealed telegram did not open"
    );
    let seconds = start.elapsed(rt)?.as_secs_f64();
    let rate = f64::from(2 * ROUNDS) / seconds;
    let length = text.len();
    let last = Hex(&nonce);
    println!(rt; "{rate:.0} frames/s {length}-octets-{last}")?;
    Ok(())
}

pub fn measure_sealing(rt: &HostRuntime) -> anyhow::Result<()> {
    measure_length(rt, &mut [0x5a; 8])?;
    measure_length(rt, &mut [0x5a; 64])?;
    measure_length(rt, &mut [0x5a; 474])
}
