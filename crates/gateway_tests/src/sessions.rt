// Sessions: slots, sign-in, what an open one takes, and how it ends.
use crate::line::Seen::*;
use crate::line::Step::*;
use crate::line::{OPEN, Run, SIGNED, bench, play};
use crate::site::{CLOSE, GOOD, LONGEST, MANAGING, OWN, SIGN_IN_1, SIGN_IN_2, STATUS_0, site};
use std::alloc::Global;
use std::test::*;

const EIGHT: Run = &[
    (Request(7), Response(7)),
    (Request(3), Response(3)),
    (Request(5), Response(5)),
    (Request(1), Response(1)),
    (Request(8), Response(8)),
    (Request(2), Response(2)),
    (Request(6), Response(6)),
    (Request(4), Response(4)),
];

// Sessions 1 to 8 are open.
fn play_with_eight(heap: Global, run: Run) -> Result<(), Fail> {
    let mut line = bench(heap, site(0, 0, 0))?;
    line.play(EIGHT)?;
    line.play(run)
}

#[test]
fn the_ninth_request_finds_no_slot(rt: HostRuntime) -> Result<(), Fail> {
    const RUN: Run = &[
        (Request(9), NoSession),
        (Request(8), Refused(5)),
        (Offer(b""), Refused(5)),
        (HangUp(4), Status(4, 0, 5)),
        (Request(9), Response(9)),
        (Request(4), NoSession),
    ];
    play_with_eight(rt.alloc(), RUN)
}

#[test]
fn a_lapsed_session_keeps_its_slot_and_number_until_due_ends_it(
    rt: HostRuntime,
) -> Result<(), Fail> {
    const RUN: Run = &[
        (Pass(10_000), Taken),
        (Request(9), NoSession),
        (Request(1), Refused(5)),
        (Due(0), Status(1, 0, 3)),
        (Request(1), Response(1)),
        (Request(9), NoSession),
        (Due(0), Status(2, 0, 3)),
        (Request(9), Response(9)),
        (HangUp(1), Status(1, 0, 5)),
        (HangUp(3), Refused(6)),
    ];
    play_with_eight(rt.alloc(), RUN)
}

#[test]
fn due_ends_the_smallest_number_first_and_rests_after_nine_frames(
    rt: HostRuntime,
) -> Result<(), Fail> {
    const RUN: Run = &[
        (Pass(10_400), Taken),
        (Due(7), Status(1, 0, 3)),
        (Due(7), Status(2, 0, 3)),
        (Due(7), Status(3, 0, 3)),
        (Due(7), Status(4, 0, 3)),
        (Due(7), Status(5, 0, 3)),
        (Due(7), Status(6, 0, 3)),
        (Due(7), Status(7, 0, 3)),
        (Due(7), Status(8, 0, 3)),
        (Due(7), Notice(10_400, OWN, 7)),
        (Due(7), Nothing),
    ];
    play_with_eight(rt.alloc(), RUN)
}

// Octet 6 is wrong while the MAC is right over it; a user who has no hash; user 0; user 9; user 2 under the hash of user 1;
// a wrong MAC; lengths and stated lengths other than 24.
#[test]
fn a_wrong_sign_in_gets_status_01_and_ends_the_session(rt: HostRuntime) -> Result<(), Fail> {
    const RUN: Run = &[
        OPEN,
        (
            Wrapped(
                1,
                0,
                b"\x06\x10\x09\x53\x00\x18\x01\x01\x44\x6c\x42\x54\x4d\x17\x44\x5c\x45\x45\x44\x44\x44\x44\xbb\x44",
            ),
            Status(1, 0, 1),
        ),
        OPEN,
        (
            Wrapped(
                1,
                0,
                b"\x06\x10\x09\x53\x00\x18\x00\x03\x00\x28\x06\x10\x09\x53\x00\x18\x00\x03\x00\x00\x00\x00\xff\x00",
            ),
            Status(1, 0, 1),
        ),
        OPEN,
        (
            Wrapped(
                1,
                0,
                b"\x06\x10\x09\x53\x00\x18\x00\x00\x44\x6c\x42\x54\x4d\x17\x44\x5c\x44\x44\x44\x44\x44\x44\xbb\x44",
            ),
            Status(1, 0, 1),
        ),
        OPEN,
        (
            Wrapped(
                1,
                0,
                b"\x06\x10\x09\x53\x00\x18\x00\x09\x44\x6c\x42\x54\x4d\x17\x44\x5c\x44\x4d\x44\x44\x44\x44\xbb\x44",
            ),
            Status(1, 0, 1),
        ),
        OPEN,
        (
            Wrapped(
                1,
                0,
                b"\x06\x10\x09\x53\x00\x18\x00\x02\x44\x6c\x42\x54\x4d\x17\x44\x5c\x44\x46\x44\x44\x44\x44\xbb\x44",
            ),
            Status(1, 0, 1),
        ),
        OPEN,
        (
            Wrapped(
                1,
                0,
                b"\x06\x10\x09\x53\x00\x18\x00\x01\x44\x6c\x42\x54\x4d\x17\x44\x5c\x44\x45\x44\x44\x44\x44\xbb\x45",
            ),
            Status(1, 0, 1),
        ),
        OPEN,
        (
            Wrapped(
                1,
                0,
                b"\x06\x10\x09\x53\x00\x17\x00\x01\x44\x6c\x42\x54\x4d\x17\x44\x53\x44\x45\x44\x44\x44\x44\xbb\x44",
            ),
            Status(1, 0, 1),
        ),
        OPEN,
        (
            Wrapped(
                1,
                0,
                b"\x06\x10\x09\x53\x00\x19\x00\x01\x44\x6c\x42\x54\x4d\x17\x44\x5d\x44\x45\x44\x44\x44\x44\xbb\x44\x00",
            ),
            Status(1, 0, 1),
        ),
        OPEN,
        (Wrapped(1, 0, b"\x06\x10\x09\x53\x00\x06"), Status(1, 0, 1)),
        (HangUp(1), Refused(6)),
    ];
    play(rt.alloc(), site(0, 0, 0), RUN)
}

// Anything but a sign-in or a status gets status 02 before the sign-in; a status is taken.
#[test]
fn an_unsigned_session_ends_by_any_other_telegram(rt: HostRuntime) -> Result<(), Fail> {
    const RUN: Run = &[
        OPEN,
        (Wrapped(1, 0, STATUS_0), Taken),
        (Wrapped(1, 0, GOOD), Refused(8)),
        (Wrapped(1, 1, GOOD), Status(1, 0, 2)),
        (HangUp(1), Refused(6)),
        OPEN,
        (Wrapped(1, 7, MANAGING), Status(1, 0, 2)),
        OPEN,
        // a status that states another length
        (
            Wrapped(1, 7, b"\x06\x10\x09\x54\x00\x09\x05\x00"),
            Status(1, 0, 2),
        ),
        OPEN,
        (Wrapped(1, 7, b"\x00\x00\x00\x00\x00\x00"), Status(1, 0, 2)),
        (HangUp(1), Refused(6)),
    ];
    play(rt.alloc(), site(0, 0, 0), RUN)
}

#[test]
fn user_1_is_delivered_family_03_and_user_2_is_not(rt: HostRuntime) -> Result<(), Fail> {
    const RUN: Run = &[
        OPEN,
        SIGNED,
        (Wrapped(1, 1, MANAGING), Delivered(1, 1, 1, MANAGING)),
        (Request(2), Response(2)),
        (Wrapped(2, 0, SIGN_IN_2), Status(2, 0, 0)),
        (Wrapped(2, 1, MANAGING), Taken),
        (Wrapped(2, 1, GOOD), Refused(8)),
        (Wrapped(2, 2, GOOD), Delivered(2, 2, 2, GOOD)),
        (Wrapped(1, 2, GOOD), Delivered(1, 2, 1, GOOD)),
    ];
    play(rt.alloc(), site(0, 0, 0), RUN)
}

// A second sign-in too.
#[test]
fn a_signed_in_session_takes_what_is_not_delivered(rt: HostRuntime) -> Result<(), Fail> {
    const RUN: Run = &[
        OPEN,
        SIGNED,
        (Wrapped(1, 1, SIGN_IN_2), Taken),
        (Wrapped(1, 2, STATUS_0), Taken),
        (Wrapped(1, 3, b"\x06\x10\x09\x54\x00\x09\x05\x00"), Taken),
        (Wrapped(1, 4, b"\x06\x10\x05\x30\x00\x07"), Taken),
        (Wrapped(1, 5, b"\x06\x10\x09\x30\x00\x06"), Taken),
        (Wrapped(1, 6, LONGEST), Delivered(1, 6, 1, LONGEST)),
    ];
    play(rt.alloc(), site(0, 0, 0), RUN)
}

#[test]
fn status_05_closes_whatever_its_octet_7_is(rt: HostRuntime) -> Result<(), Fail> {
    const RUN: Run = &[
        OPEN,
        (Wrapped(1, 0, CLOSE), Taken),
        (Wrapped(1, 1, CLOSE), Refused(6)),
        OPEN,
        SIGNED,
        (Wrapped(1, 1, b"\x06\x10\x09\x54\x00\x08\x05\xff"), Taken),
        (Send(1, GOOD), Refused(6)),
        OPEN,
    ];
    play(rt.alloc(), site(0, 0, 0), RUN)
}

#[test]
fn own_numbers_rise_by_one_in_each_session(rt: HostRuntime) -> Result<(), Fail> {
    const RUN: Run = &[
        OPEN,
        (Request(2), Response(2)),
        SIGNED,
        (Send(1, GOOD), Sent(1, 1)),
        (Send(1, b""), Refused(10)),
        (Send(1, GOOD), Sent(1, 2)),
        (Wrapped(2, 0, SIGN_IN_2), Status(2, 0, 0)),
        (Send(2, GOOD), Sent(2, 1)),
        (HangUp(1), Status(1, 3, 5)),
        (Send(2, GOOD), Sent(2, 2)),
        // a new session begins at 0
        OPEN,
        (HangUp(1), Status(1, 0, 5)),
    ];
    play(rt.alloc(), site(0, 0, 0), RUN)
}

#[test]
fn nothing_clears_the_idle_time_of_an_unsigned_session(rt: HostRuntime) -> Result<(), Fail> {
    const RUN: Run = &[
        OPEN,
        (Pass(6_000), Taken),
        (Wrapped(1, 0, STATUS_0), Taken),
        (Pass(3_999), Taken),
        (Wrapped(1, 1, STATUS_0), Taken),
        (Pass(1), Taken),
        (Wrapped(1, 2, SIGN_IN_1), Refused(6)),
        (Due(0), Status(1, 0, 3)),
    ];
    play(rt.alloc(), site(0, 0, 0), RUN)
}

// The sign-in clears it, and then every wrapper that opens; send does not.
#[test]
fn a_signed_in_session_lapses_at_60_000(rt: HostRuntime) -> Result<(), Fail> {
    const RUN: Run = &[
        OPEN,
        (Pass(9_999), Taken),
        SIGNED,
        (Pass(59_999), Taken),
        (Wrapped(1, 1, GOOD), Delivered(1, 1, 1, GOOD)),
        (Pass(59_999), Taken),
        (Wrapped(1, 2, STATUS_0), Taken),
        (Pass(30_000), Taken),
        (Send(1, GOOD), Sent(1, 1)),
        (Pass(29_999), Taken),
        (Send(1, GOOD), Sent(1, 2)),
        (Pass(1), Taken),
        (Wrapped(1, 3, GOOD), Refused(6)),
        (Due(0), Status(1, 3, 3)),
        (Due(0), Notice(189_997, OWN, 0)),
    ];
    play(rt.alloc(), site(0, 0, 0), RUN)
}
