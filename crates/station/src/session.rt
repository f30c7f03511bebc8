// The KNX sample session: each frame as the gateway reads or writes it.
use crate::show;
use anyhow::{Context, ensure};
use cipher::aes::Aes128;
use frames::reading::{Frame, Notice, Wrapper, read};
use frames::sealing::{mac_of_authenticate, seal_response};
use frames::telegrams::{SignIn, Telegram, authenticate, classify};
use octets::runs::put;
use published::knx;
use sealer::Sealer;
use sealer::mac::same_mac;
use sealer::sealers::Knx;

fn show_frame(rt: &HostRuntime, frame: &[u8]) -> anyhow::Result<()> {
    match read(frame) {
        Ok(Frame::Request { x }) => {
            println!(rt; "session request")?;
            show(rt, "X", x)
        }
        Ok(Frame::Wrapper(wrapper)) => {
            let Wrapper {
                session,
                stamp,
                ciphertext,
                mac,
                ..
            } = wrapper;
            println!(rt;
                "secure wrapper of session {session}, number {}, serial {:012X}, tag {:04X}",
                stamp.number, stamp.serial, stamp.tag
            )?;
            show(rt, "ciphertext", ciphertext)?;
            show(rt, "MAC", mac)
        }
        Ok(Frame::Notice(Notice { stamp, mac, .. })) => {
            println!(rt;
                "timer notify of time {}, serial {:012X}, tag {:04X}",
                stamp.number, stamp.serial, stamp.tag
            )?;
            show(rt, "MAC", mac)
        }
        Err(why) => {
            let number = why.refusal();
            println!(rt; "refused {number}")?;
            Ok(())
        }
    }
}

fn show_request(rt: &HostRuntime) -> anyhow::Result<()> {
    let mut request = [0; 46];
    put(&mut request, 0, b"\x06\x10\x09\x51\x00\x2e\x08\x02");
    put(&mut request, 14, knx::X);
    show_frame(rt, &request)
}

fn show_response(rt: &HostRuntime) -> anyhow::Result<()> {
    println!(rt; "session response of session 1")?;
    let mut response = [0; 56];
    seal_response::<Knx<Aes128>>(knx::DEVICE_CODE, 1, knx::X, knx::Y, &mut response).context(
        "no room for a session response",
    )?;
    show(rt, "made", &response)?;
    show(rt, "published", knx::RESPONSE)
}

fn show_telegram(rt: &HostRuntime, telegram: &[u8]) -> anyhow::Result<()> {
    ensure!(
        classify(telegram) == Telegram::Authenticate,
        "no session authenticate"
    );
    let SignIn { user, mac } = authenticate(telegram).context(
        "a session authenticate that is not well formed",
    )?;
    let wanted = mac_of_authenticate::<Knx<Aes128>>(knx::PASSWORD_HASH, user, knx::X, knx::Y);
    let right = same_mac(&wanted, mac);
    println!(rt; "session authenticate of user {user}, MAC right: {right}")?;
    show(rt, "MAC", mac)
}

fn show_sign_in(rt: &HostRuntime) -> anyhow::Result<()> {
    show_frame(rt, knx::WRAPPER)?;
    let mut text = *knx::WRAPPER_CIPHERTEXT;
    let opened = Knx::<Aes128>::open(
        knx::SESSION_KEY,
        knx::WRAPPER_NONCE,
        knx::WRAPPER_START,
        &mut text,
        knx::WRAPPER_MAC,
    );
    ensure!(opened, "the wrapper does not open");
    show_telegram(rt, &text)?;
    let mac = Knx::<Aes128>::seal(
        knx::SESSION_KEY,
        knx::WRAPPER_NONCE,
        knx::WRAPPER_START,
        &mut text,
    );
    println!(rt; "sealed again")?;
    show(rt, "ciphertext", &text)?;
    show(rt, "MAC", &mac)
}

pub fn show_session(rt: &HostRuntime) -> anyhow::Result<()> {
    show_request(rt)?;
    show_response(rt)?;
    show_sign_in(rt)
}
