use crate::lines::expect;
use std::test::Fail;

const NONE: &str = "no gateway is made";

#[test]
fn calls_without_a_gateway(rt: HostRuntime) -> Result<(), Fail> {
    let heap = rt.alloc();
    let calls = [
        "arrive - - 0",
        "pass 0",
        "due 0",
        "send 0001 -",
        "announce - 0",
        "hangup 0001",
        "timer",
        "book",
    ];
    for call in calls {
        let before = format!(in heap; "buffers 512 512\n{call}\n")?;
        let end = format!(in heap; "line 2: {NONE}")?;
        expect(&rt, heap, before.as_str(), "", Some(end.as_str()))?;
        let refused = format!(in heap; "make\ntolerance 10001\nmake\n{call}\n")?;
        let end = format!(in heap; "line 4: {NONE}")?;
        expect(
            &rt,
            heap,
            refused.as_str(),
            "made\nrefused 14\n",
            Some(end.as_str()),
        )?;
    }
    Ok(())
}

// Whole scripts: what they print.
#[test]
fn settings_and_buffers(rt: HostRuntime) -> Result<(), Fail> {
    let table = [
        // the limits of what a gateway can be made from
        ("tolerance 10000\nmake\n", "made\n"),
        ("tolerance 10\nsync 11\nmake\n", "refused 14\n"),
        ("tolerance 10\nsync 10\nmake\n", "made\n"),
        (
            "start 281474976710655\nmake\ntimer\n",
            "made\ntimer 281474976710655\n",
        ),
        ("start 281474976710656\nmake\n", "refused 14\n"),
        ("start 18446744073709551615\nmake\n", "refused 14\n"),
        // settings count for one making, whether it is refused or not
        (
            "start 5\nmake\ntimer\nmake\ntimer\n",
            "made\ntimer 5\nmade\ntimer 0\n",
        ),
        (
            "start 5\ntolerance 20000\nmake\nmake\ntimer\n",
            "refused 14\nmade\ntimer 0\n",
        ),
        // and not for the gateway that is there; of two the later counts
        (
            "make\nstart 9\nstart 8\ntimer\nmake\ntimer\n",
            "made\ntimer 0\nmade\ntimer 8\n",
        ),
        // buffers stay as they are
        (
            "make\nbuffers 0 65536\ndue 0\nmake\ndue 0\n",
            "made\nrefused 1\nmade\nrefused 1\n",
        ),
        (
            "buffers 512 511\nmake\ndue 0\nbuffers 512 512\ndue 0\n",
            "made\nrefused 1\nnothing\n",
        ),
    ];
    let heap = rt.alloc();
    for (script, printed) in table {
        expect(&rt, heap, script, printed, None)?;
    }
    Ok(())
}
