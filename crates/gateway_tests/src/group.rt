// The group's time, with latency tolerance 1,000 and sync tolerance 100.
use crate::line::Seen::*;
use crate::line::Step::*;
use crate::line::{Run, play};
use crate::site::{CLIENT, GOOD, LAST, OWN, site};
use std::test::*;

const OTHER: u64 = 0x00fa_0000_0003;

// A follower's first countdown is 10,000 + 4 * 100, a keeper's 10,000 + lot mod 301: 65,543 = 217 * 301 + 226.
#[test]
fn a_follower_becomes_keeper_by_its_notify(rt: HostRuntime) -> Result<(), Fail> {
    const RUN: Run = &[
        (Pass(10_399), Taken),
        (Due(0), Nothing),
        (Pass(1), Taken),
        (Due(0x0001_0007), Notice(15_400, OWN, 7)),
        (Due(0), Nothing),
        (Pass(10_225), Taken),
        (Due(0), Nothing),
        (Pass(1), Taken),
        (Due(0xabcd), Notice(25_626, OWN, 0xabcd)),
    ];
    play(rt.alloc(), site(5_000, 1_000, 0), RUN)
}

// A follower's reply wait is 300 + lot mod 1,001. Later frames may shorten the countdown, and the first stays the one.
#[test]
fn a_late_frame_wants_a_reply_under_its_serial_and_tag(rt: HostRuntime) -> Result<(), Fail> {
    const RUN: Run = &[
        (Grouped(4_000, CLIENT, 0x0102, 5), Taken),
        (Notify(100, OTHER, 0x0304, 1_002), Taken),
        (Notify(4_000, OTHER, 0x0506, 900), Taken),
        (Announce(GOOD, 9), Announced(5_000, 9)),
        (Pass(300), Taken),
        (Due(7), Nothing),
        (Pass(1), Taken),
        (Due(7), Notice(5_301, CLIENT, 0x0102)),
        (Due(7), Nothing),
        // keeper, and no reply is wanted any more: 10,000 + 7
        (Pass(10_006), Taken),
        (Due(9), Nothing),
        (Pass(1), Taken),
        (Due(9), Notice(15_308, OWN, 9)),
    ];
    play(rt.alloc(), site(5_000, 1_000, 0), RUN)
}

// A keeper's reply wait is 100 + lot mod 101; a frame in step makes a follower of it, whose wait is 300 and more.
#[test]
fn a_keeper_replies_sooner_until_it_hears_a_frame_in_step(rt: HostRuntime) -> Result<(), Fail> {
    const RUN: Run = &[
        (Pass(10_400), Taken),
        (Due(0), Notice(10_400, OWN, 0)),
        (Notify(9_400, CLIENT, 1, 250), Taken),
        (Pass(147), Taken),
        (Due(0), Nothing),
        (Pass(1), Taken),
        (Due(0), Notice(10_548, CLIENT, 1)),
        (Grouped(10_449, OTHER, 2, 0), Delivered(0, 10_449, 0, GOOD)),
        (Grouped(9_548, CLIENT, 3, 0), Taken),
        (Pass(299), Taken),
        (Due(0), Nothing),
        (Pass(1), Taken),
        (Due(0), Notice(10_848, CLIENT, 3)),
    ];
    play(rt.alloc(), site(0, 1_000, 0), RUN)
}

// In step: the reply is not wanted any more, and the countdown is 10,400 + lot mod 1,001.
#[test]
fn a_frame_in_step_answers_for_the_gateway(rt: HostRuntime) -> Result<(), Fail> {
    const RUN: Run = &[
        (Grouped(4_000, CLIENT, 1, 0), Taken),
        (Pass(299), Taken),
        (Notify(5_200, OTHER, 2, 1_000), Taken),
        (Pass(11_399), Taken),
        (Due(4), Nothing),
        (Pass(1), Taken),
        (Due(4), Notice(16_699, OWN, 4)),
    ];
    play(rt.alloc(), site(5_000, 1_000, 0), RUN)
}

// From 100 to 999 behind: delivered, and countdown, role and wanted reply stay.
#[test]
fn a_frame_behind_but_tolerated_changes_nothing(rt: HostRuntime) -> Result<(), Fail> {
    const RUN: Run = &[
        (Pass(10_000), Taken),
        (Grouped(14_900, CLIENT, 1, 0), Delivered(0, 14_900, 0, GOOD)),
        (Pass(399), Taken),
        (Due(0), Nothing),
        (Pass(1), Taken),
        (Due(0), Notice(15_400, OWN, 0)),
        (Grouped(14_400, CLIENT, 5, 0), Taken),
        (Grouped(14_401, OTHER, 6, 0), Delivered(0, 14_401, 0, GOOD)),
        (Notify(15_300, OTHER, 7, 0), Taken),
        (Pass(99), Taken),
        (Due(0), Nothing),
        (Pass(1), Taken),
        (Due(0), Notice(15_500, CLIENT, 5)),
    ];
    play(rt.alloc(), site(5_000, 1_000, 0), RUN)
}

#[test]
fn a_frame_ahead_sets_the_timer(rt: HostRuntime) -> Result<(), Fail> {
    const RUN: Run = &[
        (Grouped(9_000, CLIENT, 0, 0), Delivered(0, 9_000, 0, GOOD)),
        (Pass(0), Timer(9_000)),
        (Notify(9_001, CLIENT, 0, 0), Timer(9_001)),
        (Announce(GOOD, 0), Announced(9_001, 0)),
        (Notify(LAST, CLIENT, 0, 0), Timer(LAST)),
        (Announce(GOOD, 0), Announced(LAST, 0)),
    ];
    play(rt.alloc(), site(5_000, 1_000, 0), RUN)
}

#[test]
fn announces_and_notifies_draw_on_the_same_times(rt: HostRuntime) -> Result<(), Fail> {
    const RUN: Run = &[
        (Pass(10_400), Taken),
        (Announce(GOOD, 0xffff_1234), Announced(10_400, 0x1234)),
        (Due(0), Notice(10_401, OWN, 0)),
        (Announce(GOOD, 0), Announced(10_402, 0)),
        (Pass(100), Timer(10_502)),
        (Announce(GOOD, 0), Announced(10_502, 0)),
    ];
    play(rt.alloc(), site(0, 1_000, 0), RUN)
}
