// The call script: lines of text that make gateways, call them, and print what each call answers.
#![tactic(auto)]

mod answers;
mod book;
pub mod faults;
mod gateways;
mod items;
mod settings;
mod station;
mod words;

use faults::{Fault, Stop};
use items::Octets;
use station::Station;
use std::alloc::Global;
use std::io::{BufRead, BufReader, BufWriter, Write};
use std::str;

// Carries out the script on standard input. Where a line cannot be read, standard error says which and why.
pub fn run_standard(rt: &HostRuntime) -> Result<(), Stop> {
    let result = run_buffered(rt);
    if let Err(stop) = &result {
        let _ = eprintln!(rt; "{stop}");
    }
    result
}

fn run_buffered(rt: &HostRuntime) -> Result<(), Stop> {
    let heap = rt.alloc();
    let mut input = BufReader::new(heap, rt.stdin()).map_err(before_any_line)?;
    let mut output = BufWriter::new(heap, rt.stdout()).map_err(before_any_line)?;
    run(heap, &mut input, &mut output)
}

fn before_any_line<E>(error: E) -> Stop
where
    Fault: From<E>,
{
    Stop {
        line: 0,
        why: error.into(),
    }
}

// Carries out a script to its end or to the first line that cannot be read. What a line prints is written out before the
// next is read.
pub fn run<R: BufRead, W: Write>(heap: Global, input: &mut R, output: &mut W) -> Result<(), Stop> {
    let mut station = Station::new(heap).map_err(before_any_line)?;
    // the number is wanted where a line cannot be read, and a loop that reads to an end has to have a bound
    for line in 1..u64::MAX {
        if !carry_out_line(heap, &mut station, input, output).map_err(|why| Stop { line, why })? {
            break;
        }
    }
    Ok(())
}

// Says whether there was a line.
fn carry_out_line<R: BufRead, W: Write>(
    heap: Global,
    station: &mut Station,
    input: &mut R,
    output: &mut W,
) -> Result<bool, Fault> {
    let mut line = Vec::new(heap);
    if input.read_until(b'\n', &mut line)? == 0 {
        return Ok(false);
    }
    if line.starts_with(b"#") {
        copy(line.as_slice(), output)?;
    } else {
        let text = str::from_utf8(line.as_slice()).map_err(|_| Fault::NotText)?;
        let mut octets = Octets::none(heap);
        if let Some(item) = items::read(text, &mut octets)? {
            station.carry_out(item, output)?;
        }
    }
    output.flush()?;
    Ok(true)
}

// A line as it stands; the last of a script may lack its line break.
fn copy<W: Write>(line: &[u8], output: &mut W) -> Result<(), Fault> {
    output.write_all(line)?;
    if !line.ends_with(b"\n") {
        output.write_all(b"\n")?;
    }
    Ok(())
}
