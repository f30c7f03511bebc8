// The short runs of the rules' worked examples; the ninth session request is among the sessions.
use crate::line::Seen::*;
use crate::line::Step::*;
use crate::line::{Run, play};
use crate::site::{CLIENT, GOOD, LAST, OWN, SIGN_IN_1, site};
use cipher::bench::Bench;
use gateway::Gateway;
use rules::settings::Settings;
use sealer::sealers::Knx;
use std::test::*;

#[test]
fn a_repeated_number_zero_is_refused(rt: HostRuntime) -> Result<(), Fail> {
    const RUN: Run = &[
        (Request(1), Response(1)),
        (Wrapped(1, 0, SIGN_IN_1), Status(1, 0, 0)),
        (Wrapped(1, 0, GOOD), Refused(8)),
        (Wrapped(1, 1, GOOD), Delivered(1, 1, 1, GOOD)),
    ];
    play(rt.alloc(), site(0, 0, 0), RUN)
}

// Soon after a start the timer less the tolerance is below zero, and nothing is late.
#[test]
fn late_begins_at_the_timer_less_the_tolerance(rt: HostRuntime) -> Result<(), Fail> {
    const EARLY: Run = &[(Grouped(0, CLIENT, 0, 0), Delivered(0, 0, 0, GOOD))];
    const RUN: Run = &[
        (Grouped(4_000, CLIENT, 0, 0), Taken),
        (Grouped(4_001, CLIENT, 0, 0), Delivered(0, 4_001, 0, GOOD)),
        (Pass(0), Timer(5_000)),
    ];
    play(rt.alloc(), site(500, 1_000, 0), EARLY)?;
    play(rt.alloc(), site(5_000, 1_000, 0), RUN)
}

#[test]
fn two_announces_use_two_times(rt: HostRuntime) -> Result<(), Fail> {
    const RUN: Run = &[
        (Announce(GOOD, 0), Announced(700, 0)),
        (Announce(GOOD, 0), Announced(701, 0)),
        (Pass(0), Timer(701)),
    ];
    play(rt.alloc(), site(700, 0, 0), RUN)
}

// The timer stays at it, and no timer notify goes out either.
#[test]
fn the_last_time_is_used_once(rt: HostRuntime) -> Result<(), Fail> {
    const RUN: Run = &[
        (Announce(GOOD, 0), Announced(LAST, 0)),
        (Announce(GOOD, 0), Refused(13)),
        (Pass(10_400), Timer(LAST)),
        (Due(0), Nothing),
    ];
    play(rt.alloc(), site(LAST, 0, 0), RUN)
}

#[test]
fn an_unsigned_session_lapses_at_10_000(rt: HostRuntime) -> Result<(), Fail> {
    const RUN: Run = &[
        (Request(1), Response(1)),
        (Pass(9_999), Taken),
        (HangUp(1), Status(1, 0, 5)),
        (Request(1), Response(1)),
        (Pass(10_000), Taken),
        (HangUp(1), Refused(6)),
        (Due(0), Status(1, 0, 3)),
    ];
    play(rt.alloc(), site(0, 0, 0), RUN)
}

// The number of the refusal, if no gateway is made.
fn refusal(settings: Settings) -> Option<u8> {
    let made = Gateway::<Knx<Bench>>::make(settings);
    made.err().map(|why| why.number())
}

#[test]
fn settings_are_refused_past_their_bounds(rt: HostRuntime) -> Result<(), Fail> {
    let table = [
        (0, 5, 0, None),
        (0, 10_001, 0, Some(14)),
        (0, 10_001, 1, Some(14)),
        (LAST, 10_000, 10_000, None),
        (0, 5, 6, Some(14)),
        (0, 0, 1_000, None),
        (0, 0, 1_001, Some(14)),
        (LAST + 1, 0, 0, Some(14)),
        (u64::MAX, u32::MAX, u32::MAX, Some(14)),
    ];
    for (start, latency, sync, number) in table {
        assert!(rt; refusal(site(start, latency, sync)) == number);
    }
    Ok(())
}

// Latency tolerance 5 makes sync tolerance 1, so the first timer notify is due at 10,004.
#[test]
fn the_default_of_the_sync_tolerance_is_at_least_1(rt: HostRuntime) -> Result<(), Fail> {
    const RUN: Run = &[
        (Pass(10_003), Taken),
        (Due(0), Nothing),
        (Pass(1), Taken),
        (Due(0), Notice(10_004, OWN, 0)),
    ];
    play(rt.alloc(), site(0, 5, 0), RUN)
}
