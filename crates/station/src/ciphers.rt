// The two block ciphers at work.
use crate::show;
use anyhow::Context;
use cipher::aes::Aes128;
use cipher::bench::Bench;
use cipher::encipher_once;
use frames::sealing::seal_notice;
use frames::stamps::Stamp;
use published::fips;
use sealer::sealers::Knx;

pub fn show_worked_example(rt: &HostRuntime) -> anyhow::Result<()> {
    let mut block = *fips::BLOCK_B;
    encipher_once::<Aes128>(fips::KEY_A1, &mut block);
    println!(rt; "AES-128, the worked example of FIPS 197")?;
    show(rt, "key", fips::KEY_A1)?;
    show(rt, "block", fips::BLOCK_B)?;
    show(rt, "made", &block)?;
    show(rt, "published", fips::RESULT_B)
}

pub fn show_notice_mac(rt: &HostRuntime) -> anyhow::Result<()> {
    println!(rt;
        "timer notify of time 5, serial 00FA00000001, tag 0007, bench cipher, key of sixteen 11"
    )?;
    let mut out = [0; 36];
    let stamp = Stamp {
        number: 5,
        serial: 0x00fa_0000_0001,
        tag: 7,
    };
    seal_notice::<Knx<Bench>>(&[0x11; 16], stamp, &mut out).context("no room for a timer notify")?;
    show(rt, "frame", &out)
}
