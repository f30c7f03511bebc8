use std::alloc::Global;
use std::process::Abort;
use std::test::Fail;

// Carries out a script, and holds what it prints and how it ends to what is expected; it goes to its last line where nothing is said.
pub fn expect(
    rt: &impl Abort,
    heap: Global,
    script: &str,
    printed: &str,
    end: Option<&str>,
) -> Result<(), Fail> {
    let mut input = script.as_bytes();
    let mut output = Vec::new(heap);
    let ended = match script::run(heap, &mut input, &mut output) {
        Ok(()) => None,
        Err(stop) => Some(stop.to_string(heap)?),
    };
    let ended = ended.as_ref().map(|said| said.as_str());
    assert!(rt; output.as_slice() == printed.as_bytes(), "{script}");
    assert!(rt; ended == end, "{ended:?}");
    Ok(())
}

// Lines that cannot be read, and what is said of them.
const UNREADABLE: &str = "arive - - 0 => the first word is neither a setting nor a call
ARRIVE - - 0 => the first word is neither a setting nor a call
 # a remark => the first word is neither a setting nor a call
arrive => the frame is missing
arrive - => the offer is missing
arrive - - => the lot is missing
arrive - - 0 0 => there are more words than the line takes
make again => there are more words than the line takes
arrive 06 10 09 0 => there are more words than the line takes
arrive 0 - 0 => the frame has an odd number of digits
arrive 0G - 0 => the frame is not hexadecimal
arrive - -- 0 => the offer is not hexadecimal
arrive - 061 0 => the offer has an odd number of digits
arrive - - 0x1 => the lot is not a decimal number
due -1 => the lot is not a decimal number
due +1 => the lot is not a decimal number
due 4294967296 => the lot is above 4294967295
due 99999999999999999999 => the lot is above 4294967295
pass => the number of milliseconds is missing
pass 4294967296 => the number of milliseconds is above 4294967295
send 001 - => the session is not four hexadecimal digits
send 00001 - => the session is not four hexadecimal digits
send 00G1 - => the session is not four hexadecimal digits
send 0001 => the telegram is missing
hangup => the session is missing
buffers 512 => the work area is missing
buffers 65537 512 => the output is above 65536
buffers 512 65537 => the work area is above 65536
cipher des => the cipher is neither aes nor bench
sealer KNX => the sealer is neither knx nor reading
serial 00FA000001 => the serial does not have 6 octets
serial - => the serial does not have 6 octets
device-code 00 => the device code does not have 16 octets
group-key 0 => the group key has an odd number of digits
user 0 - => the user is not from 1 to 8
user 9 - => the user is not from 1 to 8
user 1 => the password hash is missing
user 1 - => the password hash does not have 16 octets
start 18446744073709551616 => the start is above 18446744073709551615
tolerance 4294967296 => the latency tolerance is above 4294967295
sync x => the sync tolerance is not a decimal number";

// Each stands in the fourth line of a script.
#[test]
fn lines_that_cannot_be_read(rt: HostRuntime) -> Result<(), Fail> {
    let heap = rt.alloc();
    for row in UNREADABLE.lines() {
        let (line, why) = row.split_once(" => ").ok_or("no row")?;
        let script = format!(in heap; "make\n\n# wrong:\n{line}\ntimer\n")?;
        let end = format!(in heap; "line 4: {why}")?;
        expect(
            &rt,
            heap,
            script.as_str(),
            "made\n# wrong:\n",
            Some(end.as_str()),
        )?;
    }
    Ok(())
}

#[test]
fn a_line_that_is_not_text(rt: HostRuntime) -> Result<(), Fail> {
    let heap = rt.alloc();
    let mut input: &[u8] = b"make\n# \xff\ntimer \xff\n";
    let mut output = Vec::new(heap);
    let stop = script::run(heap, &mut input, &mut output)
        .err()
        .ok_or("read to the end")?;
    assert!(rt; output.as_slice() == b"made\n# \xff\n".as_slice());
    assert!(rt; stop.to_string(heap)?.as_str() == "line 3: the line is not UTF-8 text");
    Ok(())
}

// Blanks of every kind, digits in small letters, leading zeros, a last line without its line break.
#[test]
fn lines_that_can(rt: HostRuntime) -> Result<(), Fail> {
    let heap = rt.alloc();
    expect(&rt, heap, "", "", None)?;
    expect(
        &rt,
        heap,
        "\n  \n\t\r\n# no gateway\n",
        "# no gateway\n",
        None,
    )?;
    expect(
        &rt,
        heap,
        "start  007\t\r\n make \r\ntimer",
        "made\ntimer 7\n",
        None,
    )?;
    expect(&rt, heap, "# a\r\n#b", "# a\r\n#b\n", None)?;
    expect(
        &rt,
        heap,
        "make\narrive 0610 - 4294967295\nhangup ffff\nsend FfFf 06\nbook\n",
        "made\nrefused 2\nrefused 6\nrefused 6\n",
        None,
    )
}
