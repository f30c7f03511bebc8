// The KNX sealer over AES-128 against the KNX sample session.
use crate::compare;
use anyhow::bail;
use cipher::Block;
use cipher::aes::Aes128;
use octets::runs::{put, xor_into};
use published::knx;
use sealer::Sealer;
use sealer::sealers::Knx;

// The MAC of a frame that opens a session or signs in: over its first eight octets and X XOR Y.
fn exchange_mac(key: &Block, start: &[u8; 8]) -> Block {
    let mut exchanged = *knx::X;
    xor_into(&mut exchanged, knx::Y);
    let mut associated = [0; 40];
    put(&mut associated, 0, start);
    put(&mut associated, 8, &exchanged);
    Knx::<Aes128>::seal(key, &[0; 14], &associated, &mut [])
}

fn try_exchange(rt: &HostRuntime) -> anyhow::Result<()> {
    let response = exchange_mac(knx::DEVICE_CODE, knx::RESPONSE_START);
    compare(rt, "session response, MAC", &response, knx::RESPONSE_MAC)?;
    let authenticate = exchange_mac(knx::PASSWORD_HASH, knx::AUTHENTICATE_START);
    compare(
        rt,
        "session authenticate, MAC",
        &authenticate,
        knx::AUTHENTICATE_MAC,
    )
}

fn try_sealing(rt: &HostRuntime) -> anyhow::Result<()> {
    let mut text = *knx::AUTHENTICATE;
    let mac = Knx::<Aes128>::seal(
        knx::SESSION_KEY,
        knx::WRAPPER_NONCE,
        knx::WRAPPER_START,
        &mut text,
    );
    compare(
        rt,
        "secure wrapper, ciphertext",
        &text,
        knx::WRAPPER_CIPHERTEXT,
    )?;
    compare(rt, "secure wrapper, MAC", &mac, knx::WRAPPER_MAC)
}

// Opens the sample wrapper with a MAC: the telegram, or what is left in the buffer.
fn opened(mac: &Block) -> Result<[u8; 24], [u8; 24]> {
    let mut text = *knx::WRAPPER_CIPHERTEXT;
    let yes = Knx::<Aes128>::open(
        knx::SESSION_KEY,
        knx::WRAPPER_NONCE,
        knx::WRAPPER_START,
        &mut text,
        mac,
    );
    if yes { Ok(text) } else { Err(text) }
}

fn try_opening(rt: &HostRuntime) -> anyhow::Result<()> {
    let Ok(telegram) = opened(knx::WRAPPER_MAC) else {
        bail!("the secure wrapper does not open");
    };
    compare(rt, "secure wrapper, opened", &telegram, knx::AUTHENTICATE)?;
    let mut damaged = *knx::WRAPPER_MAC;
    damaged[15] ^= 1;
    let Err(left) = opened(&damaged) else {
        bail!("a damaged wrapper opens");
    };
    compare(rt, "damaged wrapper, refused and cleared", &left, &[0; 24])
}

pub fn try_knx(rt: &HostRuntime) -> anyhow::Result<()> {
    try_exchange(rt)?;
    try_sealing(rt)?;
    try_opening(rt)
}
