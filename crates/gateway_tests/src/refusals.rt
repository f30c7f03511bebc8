// Refusals, by their numbers. Those from making (14) and of spent times (13) are among the samples.
// 12 has no test: it takes 2^48 - 1 sends in one session to bring its own number to the last.
use crate::line::Seen::*;
use crate::line::Step::*;
use crate::line::{OPEN, Run, SIGNED, play};
use crate::site::{CLIENT, GOOD, LAST, OWN, REQUEST, SIGN_IN_1, STATUS_0, TOO_LONG, site};
use std::test::*;

// Number 100 in session 1, with a MAC of zeros.
const FORGED: &[u8] = b"\
    \x06\x10\x09\x50\x00\x2c\x00\x01\x00\x00\x00\x00\x00\x64\x00\xfa\
    \x00\x00\x00\x02\x00\x00\x00\x00\x00\x00\x00\x00\x00\x00\x00\x00\
    \x00\x00\x00\x00\x00\x00\x00\x00\x00\x00\x00\x00";

// What is refused for short buffers goes through after it, so the refusals changed nothing.
#[test]
fn short_buffers_1(rt: HostRuntime) -> Result<(), Fail> {
    const RUN: Run = &[
        OPEN,
        SIGNED,
        (Pass(10_400), Taken),
        (Lend(511, 512), Taken),
        (Wrapped(1, 1, GOOD), Refused(1)),
        (Due(0), Refused(1)),
        (Send(1, GOOD), Refused(1)),
        (Announce(GOOD, 0), Refused(1)),
        (HangUp(1), Refused(1)),
        (Lend(512, 511), Taken),
        (Wrapped(1, 1, GOOD), Refused(1)),
        (Due(0), Refused(1)),
        (Send(1, GOOD), Refused(1)),
        (Announce(GOOD, 0), Refused(1)),
        (HangUp(1), Refused(1)),
        (Lend(511, 511), Taken),
        (Wrapped(1, 1, GOOD), Refused(1)),
        (Due(0), Refused(1)),
        (Send(1, GOOD), Refused(1)),
        (Announce(GOOD, 0), Refused(1)),
        (HangUp(1), Refused(1)),
        (Lend(600, 0), Taken),
        (Octets(b""), Refused(1)),
        (Lend(512, 512), Taken),
        (Wrapped(1, 1, GOOD), Delivered(1, 1, 1, GOOD)),
        (Due(0), Notice(10_400, OWN, 0)),
        (Send(1, GOOD), Sent(1, 1)),
        (Lend(600, 600), Taken),
        (Announce(GOOD, 0), Announced(10_401, 0)),
        (HangUp(1), Status(1, 2, 5)),
    ];
    play(rt.alloc(), site(0, 0, 0), RUN)
}

#[test]
fn frames_that_are_not_read_2_3_4(rt: HostRuntime) -> Result<(), Fail> {
    const RUN: Run = &[
        (Stating(0x0950, 0), Refused(2)),
        (Stating(0x0950, 5), Refused(2)),
        (Stating(0x0950, 513), Refused(2)),
        (Changed(REQUEST, 0, 0x03), Refused(2)),
        (Changed(REQUEST, 1, 0x01), Refused(2)),
        (Changed(REQUEST, 4, 0x01), Refused(2)),
        (Changed(REQUEST, 5, 0x01), Refused(2)),
        (Stating(0x0952, 8), Refused(3)),
        (Stating(0x0952, 56), Refused(3)),
        (Stating(0x0953, 24), Refused(3)),
        (Stating(0x0954, 8), Refused(3)),
        (Stating(0x0956, 36), Refused(3)),
        (Stating(0x0530, 512), Refused(3)),
        (Changed(REQUEST, 2, 0x01), Refused(3)),
        (Stating(0x0950, 6), Refused(4)),
        (Stating(0x0950, 43), Refused(4)),
        (Stating(0x0951, 45), Refused(4)),
        (Stating(0x0951, 47), Refused(4)),
        (Stating(0x0955, 35), Refused(4)),
        (Stating(0x0955, 37), Refused(4)),
        (Changed(REQUEST, 6, 0x0f), Refused(4)),
        (Changed(REQUEST, 7, 0x01), Refused(4)),
        (Changed(REQUEST, 7, 0x02), Refused(4)),
        // these are read
        (Changed(REQUEST, 7, 0x03), Refused(5)),
        (Changed(REQUEST, 13, 0xff), Refused(5)),
        (Stating(0x0950, 44), Refused(9)),
        (Stating(0x0950, 512), Refused(9)),
        (Stating(0x0955, 36), Refused(9)),
    ];
    play(rt.alloc(), site(0, 0, 0), RUN)
}

#[test]
fn offers_5(rt: HostRuntime) -> Result<(), Fail> {
    const RUN: Run = &[
        (Offer(b""), Refused(5)),
        (Offer(&[1; 49]), Refused(5)),
        (Offer(&[1; 51]), Refused(5)),
        (Offer(&[0; 50]), Refused(5)),
        OPEN,
        (Request(1), Refused(5)),
        // it has lapsed
        (Pass(u32::MAX), Taken),
        (Request(1), Refused(5)),
        (Due(0), Status(1, 0, 3)),
        OPEN,
    ];
    play(rt.alloc(), site(0, 0, 0), RUN)
}

// No such session, or a lapsed one. Session 0 is none.
#[test]
fn sessions_6(rt: HostRuntime) -> Result<(), Fail> {
    const RUN: Run = &[
        (Wrapped(1, 0, STATUS_0), Refused(6)),
        (Send(1, b""), Refused(6)),
        (HangUp(1), Refused(6)),
        (Send(0, GOOD), Refused(6)),
        (HangUp(0), Refused(6)),
        OPEN,
        (Wrapped(257, 0, STATUS_0), Refused(6)),
        (Pass(10_000), Taken),
        (Wrapped(1, 0, SIGN_IN_1), Refused(6)),
        (Send(1, GOOD), Refused(6)),
        (HangUp(1), Refused(6)),
        (Due(0), Status(1, 0, 3)),
        (HangUp(1), Refused(6)),
    ];
    play(rt.alloc(), site(0, 0, 0), RUN)
}

// Before number and MAC are looked at, and after the session is.
#[test]
fn own_wrappers_taken_back_7(rt: HostRuntime) -> Result<(), Fail> {
    const RUN: Run = &[
        OPEN,
        SIGNED,
        (Send(1, GOOD), Sent(1, 1)),
        (Back(1, 1), Refused(7)),
        (Back(1, 0), Refused(7)),
        (Back(2, 0), Refused(6)),
        (Announce(GOOD, 3), Announced(0, 3)),
        (Grouped(0, OWN, 3, 0), Refused(7)),
        // a timer notify of our own is accepted
        (Notify(9, OWN, 3, 0), Timer(9)),
    ];
    play(rt.alloc(), site(0, 0, 0), RUN)
}

// The number of a wrapper that does not open is not stored.
#[test]
fn numbers_8_and_a_forged_one_9(rt: HostRuntime) -> Result<(), Fail> {
    const RUN: Run = &[
        OPEN,
        (Wrapped(1, 5, SIGN_IN_1), Status(1, 0, 0)),
        (Wrapped(1, 5, GOOD), Refused(8)),
        (Wrapped(1, 4, GOOD), Refused(8)),
        (Wrapped(1, 0, GOOD), Refused(8)),
        (Octets(FORGED), Refused(9)),
        (Wrapped(1, 99, GOOD), Delivered(1, 99, 1, GOOD)),
        (Octets(FORGED), Refused(9)),
        (Wrapped(1, 100, GOOD), Delivered(1, 100, 1, GOOD)),
        (Octets(FORGED), Refused(8)),
        (Wrapped(1, LAST, GOOD), Delivered(1, LAST, 1, GOOD)),
        (Wrapped(1, LAST, GOOD), Refused(8)),
    ];
    play(rt.alloc(), site(0, 0, 0), RUN)
}

// Not good: another stated length, another version, family 09, too short, too long.
#[test]
fn telegrams_10_before_the_sign_in_11(rt: HostRuntime) -> Result<(), Fail> {
    const STATED: &[u8] = b"\x06\x10\x05\x30\x00\x07";
    const VERSION: &[u8] = b"\x06\x11\x05\x30\x00\x06";
    const FAMILY: &[u8] = b"\x06\x10\x09\x30\x00\x06";
    const RUN: Run = &[
        OPEN,
        (Send(1, STATED), Refused(10)),
        (Send(1, VERSION), Refused(10)),
        (Send(1, FAMILY), Refused(10)),
        (Send(1, b"\x06\x10\x05\x30\x00"), Refused(10)),
        (Send(1, TOO_LONG), Refused(10)),
        (Announce(STATED, 0), Refused(10)),
        (Announce(VERSION, 0), Refused(10)),
        (Announce(FAMILY, 0), Refused(10)),
        (Announce(b"", 0), Refused(10)),
        (Announce(TOO_LONG, 0), Refused(10)),
        (Wrapped(0, 5, STATED), Refused(10)),
        (Wrapped(0, 5, VERSION), Refused(10)),
        (Wrapped(0, 5, FAMILY), Refused(10)),
        (Wrapped(0, 5, STATUS_0), Refused(10)),
        (Wrapped(0, 5, SIGN_IN_1), Refused(10)),
        (Send(1, GOOD), Refused(11)),
        (Grouped(5, CLIENT, 0, 0), Delivered(0, 5, 0, GOOD)),
    ];
    play(rt.alloc(), site(0, 0, 0), RUN)
}
