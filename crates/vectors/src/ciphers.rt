// AES-128 against FIPS 197.
use crate::compare;
use cipher::aes::{Aes128, add_round_key, key_schedule, mix_columns, shift_rows, sub_bytes};
use cipher::{Block, encipher_once};
use published::fips::*;

fn try_key_schedule(rt: &HostRuntime) -> anyhow::Result<()> {
    let made = key_schedule(KEY_A1);
    for (key, published) in made.iter().zip(&ROUND_KEYS_A1) {
        compare(rt, "appendix A.1, round key", key, *published)?;
    }
    Ok(())
}

fn try_cipher(
    rt: &HostRuntime,
    name: &str,
    key: &Block,
    block: &Block,
    published: &Block,
) -> anyhow::Result<()> {
    let mut made = *block;
    encipher_once::<Aes128>(key, &mut made);
    compare(rt, name, &made, published)
}

fn try_first_round(rt: &HostRuntime) -> anyhow::Result<()> {
    let mut state = *BLOCK_C1;
    add_round_key(&mut state, KEY_C1);
    compare(rt, "appendix C.1, round 1, start", &state, START_1)?;
    sub_bytes(&mut state);
    compare(rt, "appendix C.1, round 1, after SubBytes", &state, S_BOX_1)?;
    shift_rows(&mut state);
    compare(
        rt,
        "appendix C.1, round 1, after ShiftRows",
        &state,
        S_ROW_1,
    )?;
    mix_columns(&mut state);
    compare(
        rt,
        "appendix C.1, round 1, after MixColumns",
        &state,
        M_COL_1,
    )?;
    add_round_key(&mut state, K_SCH_1);
    compare(rt, "appendix C.1, round 2, start", &state, START_2)
}

pub fn try_aes(rt: &HostRuntime) -> anyhow::Result<()> {
    try_key_schedule(rt)?;
    try_cipher(rt, "appendix B", KEY_A1, BLOCK_B, RESULT_B)?;
    try_first_round(rt)?;
    try_cipher(rt, "appendix C.1", KEY_C1, BLOCK_C1, RESULT_C1)
}
