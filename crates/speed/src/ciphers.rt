// How fast AES-128 is: one block, enciphered again and again, so that each turn waits for the one before.
use cipher::aes::{Aes128, RoundKeys};
use cipher::{Block, BlockCipher};
use octets::hex::Hex;
use published::fips::KEY_A1;
use std::time::Instant;

const MEBIBYTES: u32 = 64;

const BLOCKS: u32 = MEBIBYTES * 65_536;

fn encipher_often(prepared: &RoundKeys, block: &mut Block, times: u32) {
    for _ in 0..times {
        Aes128::encipher(prepared, block);
    }
}

pub fn measure_aes(rt: &HostRuntime) -> anyhow::Result<()> {
    let mut block = [0; 16];
    let prepared = Aes128::prepare(KEY_A1);
    let start = Instant::now(rt)?;
    encipher_often(&prepared, &mut block, BLOCKS);
    let seconds = start.elapsed(rt)?.as_secs_f64();
    let rate = f64::from(MEBIBYTES) / seconds;
    let last = Hex(&block);
    println!(rt; "{rate:.1} MiB/s {last}")?;
    Ok(())
}
