// The published session over AES-128, frames with one octet changed, and the reading sealer.
use crate::line::Seen::*;
use crate::line::Step::*;
use crate::line::{Line, Run, Seen};
use crate::site::{GOOD, LONGEST, SIGN_IN_1, published_site, site};
use cipher::aes::Aes128;
use cipher::bench::Bench;
use published::knx;
use sealer::sealers::{Knx, Reading};
use std::test::*;

// The status that answers the published sign-in. The published one bears tag AFFE, a gateway writes tag 0000; so these octets are
// the published ones up to the tag (octets 0 to 19), and ciphertext and MAC under the other tag were reckoned apart from this
// library, from the rules of sealing and FIPS 197, by what also makes the published frame.
const STATUS: &[u8] = b"\
    \x06\x10\x09\x50\x00\x2e\x00\x01\x00\x00\x00\x00\x00\x00\x00\xfa\
    \xaa\xaa\xaa\xaa\x00\x00\xf6\x0d\xd0\x8d\x96\x3e\x6d\x44\xd8\x10\
    \xe1\x54\xde\xd2\x53\x2c\x0c\x72\x15\xd3\x7c\x1f\x6a\x49";

// Reckoned likewise: time 5 and time 6 of the group under a key of sixteen 33, from the client, tag 0007.
const NOTICE: &[u8] = b"\
    \x06\x10\x09\x55\x00\x24\x00\x00\x00\x00\x00\x05\x00\xfa\x00\x00\
    \x00\x02\x00\x07\xd4\x8b\x65\x66\x48\xfb\xce\x27\xe9\xcc\x84\xb9\
    \x2d\x55\x07\x7b";

const WRAPPER: &[u8] = b"\
    \x06\x10\x09\x50\x00\x2c\x00\x00\x00\x00\x00\x00\x00\x06\x00\xfa\
    \x00\x00\x00\x02\x00\x07\x01\x10\xc3\xdc\x4f\xa6\xff\x0c\x40\xe3\
    \xcd\xe9\x33\xed\xbd\x95\x64\x11\x3c\xa6\x47\xe3";

// What a frame is refused with, one of whose octets is changed: the header, the session of a wrapper, then the MAC. Tests have refusals
// by the numbers that a host sees.
fn refusal(at: usize, wrapper: bool) -> Seen {
    match at {
        0 | 1 | 4 | 5 => Refused(2),
        2 | 3 => Refused(3),
        6 | 7 if wrapper => Refused(6),
        _ => Refused(9),
    }
}

fn damage(line: &mut Line<Knx<Aes128>>, frame: &'static [u8], wrapper: bool) -> Result<(), Fail> {
    // by place, since a step names the octet that it changes by its place
    for at in 0..frame.len() {
        line.see(&Changed(frame, at, 0x80), &refusal(at, wrapper))?;
    }
    Ok(())
}

#[test]
fn the_published_session(rt: HostRuntime) -> Result<(), Fail> {
    const RUN: Run = &[
        (Octets(knx::WRAPPER), Frame(STATUS)),
        (Octets(knx::WRAPPER), Refused(8)),
        // the serial is our own here
        (Octets(knx::STATUS), Refused(7)),
    ];
    let mut line = Line::<Knx<Aes128>>::new(rt.alloc(), published_site())?;
    line.see(&PublishedRequest, &Frame(knx::RESPONSE))?;
    damage(&mut line, knx::WRAPPER, true)?;
    line.play(RUN)
}

#[test]
fn every_octet_of_a_frame_of_the_group_counts(rt: HostRuntime) -> Result<(), Fail> {
    const RUN: Run = &[
        (Octets(NOTICE), Timer(5)),
        (Octets(WRAPPER), Delivered(0, 6, 0, GOOD)),
        (Pass(0), Timer(6)),
    ];
    let mut line = Line::<Knx<Aes128>>::new(rt.alloc(), site(0, 0, 0))?;
    damage(&mut line, NOTICE, false)?;
    damage(&mut line, WRAPPER, true)?;
    line.play(RUN)
}

// Telegrams stand readable in the frames, and the MAC is the same. The largest frame fills all 512 octets.
#[test]
fn the_reading_sealer_leaves_telegrams_readable(rt: HostRuntime) -> Result<(), Fail> {
    const SIGNED: &[u8] = b"\
        \x06\x10\x09\x50\x00\x2e\x00\x01\x00\x00\x00\x00\x00\x00\x00\xfa\
        \x00\x00\x00\x01\x00\x00\x06\x10\x09\x54\x00\x08\x00\x00\x00\x08\
        \x06\x10\x09\x50\x00\x2e\x00\x01\x06\x10\x09\x54\xff\x00";
    const RUN: Run = &[
        (Request(1), Response(1)),
        (Wrapped(1, 0, SIGN_IN_1), Frame(SIGNED)),
        (Wrapped(1, 1, LONGEST), Delivered(1, 1, 1, LONGEST)),
        (Send(1, LONGEST), Longest(1)),
    ];
    Line::<Reading<Bench>>::new(rt.alloc(), site(0, 0, 0))?.play(RUN)
}
