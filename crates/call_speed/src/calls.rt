// How fast arrive is over the KNX sealer and AES-128: wrappers that are delivered and wrappers that are refused.
ghost use Rattle.std.specs.Prelude.{◌≤◌};

use anyhow::{anyhow, bail};
use cipher::aes::Aes128;
use frames::sealing::{mac_of_authenticate, seal_wrapper};
use frames::stamps::Stamp;
use frames::{LARGEST_FRAME, WRAPPER_OVERHEAD};
use gateway::Gateway;
use octets::numbers::put_number;
use octets::runs::put;
use published::fips::KEY_A1 as KEY;
use published::knx::AUTHENTICATE_START;
use rules::answers::{Answer, Refusal};
use rules::settings::{Settings, User};
use sealer::LARGEST_TELEGRAM;
use sealer::sealers::Knx;
use std::time::Instant;

const CLIENT: u64 = 0x00fa_0000_0002;

// Frames are made in batches; only the calls are timed.
const BATCH: usize = 64;

#[derive(Drop)]
struct Line {
    gateway: Gateway<Knx<Aes128>>,
    out: [u8; LARGEST_FRAME],
    work: [u8; LARGEST_FRAME],
    // the last number that a frame bears
    number: u64,
    // of all answers so far
    digest: u64,
}

fn settings() -> Settings {
    let user = User {
        present: true,
        hash: *KEY,
    };
    Settings {
        serial: *b"\x00\xfa\x00\x00\x00\x01",
        device: *KEY,
        group: *KEY,
        users: [user; 8],
        start: 0,
        latency: 0,
        sync: 0,
    }
}

fn stamp(number: u64) -> Stamp {
    Stamp {
        number,
        serial: CLIENT,
        tag: 0,
    }
}

// A wrapper of a session, N octets long; all octets of its telegram after the header are the number's last.
fn make_frame<const N: usize>(session: u16, number: u64) -> [u8; N] {
    let size = N.saturating_sub(WRAPPER_OVERHEAD).min(LARGEST_TELEGRAM);
    let mut telegram = [(number % 256) as u8; LARGEST_TELEGRAM];
    put(&mut telegram, 0, b"\x06\x10\x05\x30");
    put_number(&mut telegram, 4, size as u16);
    let mut frame = [0; N];
    let _ = seal_wrapper::<Knx<Aes128>>(KEY, session, stamp(number), &telegram[..size], &mut frame);
    frame
}

impl Line {
    fn new() -> anyhow::Result<Line> {
        let gateway = Gateway::make(settings()).map_err(|_| anyhow!("no gateway"))?;
        Ok(Line {
            gateway,
            out: [0; LARGEST_FRAME],
            work: [0; LARGEST_FRAME],
            number: 0,
            digest: 0,
        })
    }

    fn arrive(&mut self, frame: &[u8], offer: &[u8]) -> Result<Answer, Refusal> {
        self.gateway
            .arrive(frame, offer, 0, &mut self.out, &mut self.work)
    }

    // A session opens, and user 1 signs in.
    fn open_session(&mut self, session: u16) -> anyhow::Result<()> {
        let mut request = [0; 46];
        put(&mut request, 0, b"\x06\x10\x09\x51\x00\x2e\x08\x01");
        let mut offer = [0; 50];
        put_number(&mut offer, 0, session);
        put(&mut offer, 34, KEY);
        let mut telegram = [0; 24];
        put(&mut telegram, 0, AUTHENTICATE_START);
        let mac = mac_of_authenticate::<Knx<Aes128>>(KEY, 1, &[0; 32], &[0; 32]);
        put(&mut telegram, 8, &mac);
        let mut frame = [0; 62];
        let _ = seal_wrapper::<Knx<Aes128>>(KEY, session, stamp(0), &telegram, &mut frame);
        let opened = self.arrive(&request, &offer);
        let signed = self.arrive(&frame, &[]);
        match (opened, signed) {
            (Ok(Answer::Frame { length: 56 }), Ok(Answer::Frame { length: 46 })) => Ok(()),
            _ => bail!("no session"),
        }
    }

    fn note(&mut self, got: Result<Answer, Refusal>) {
        let value = match got {
            Ok(Answer::Delivered { number, length, .. }) if length > 0 && length <= 512 => {
                number
                    .wrapping_add(length as u64)
                    .wrapping_add(self.out[length - 1] as u64)
            }
            Ok(_) => 0,
            Err(why) => why.number() as u64,
        };
        self.digest = (self.digest ^ value).wrapping_mul(0x0100_0000_01b3);
    }

    fn make_batch<const N: usize>(&mut self, session: u16, batch: &mut [[u8; N]; BATCH]) {
        for frame in batch {
            self.number = self.number.wrapping_add(1);
            *frame = make_frame(session, self.number);
        }
    }

    fn take_batch<const N: usize>(&mut self, batch: &[[u8; N]; BATCH]) {
        for frame in batch {
            let got = self.arrive(frame, &[]);
            self.note(got);
        }
    }

    // The same frame again and again, with another tag each time.
    fn take_often(&mut self, frame: &mut [u8; 102], calls: u32) {
        for i in 0..calls {
            frame[21] = (i % 256) as u8;
            let got = self.arrive(frame, &[]);
            self.note(got);
        }
    }
}

fn show(rt: &HostRuntime, line: &Line, calls: u32, seconds: f64, what: &str) -> anyhow::Result<()> {
    let rate = f64::from(calls) / seconds;
    let digest = line.digest;
    println!(rt; "{rate:.0} calls/s {what}-{digest:016X}")?;
    Ok(())
}

// Frames of N octets, which is 38 more than their telegrams have.
fn measure_deliveries<const N: usize>(
    rt: &HostRuntime,
    line: &mut Line,
    session: u16,
    batches: u32,
    what: &str,
) -> anyhow::Result<()>
    requires { N ≤ 512 }
{
    let mut batch = [[0; N]; BATCH];
    let mut seconds = 0.0;
    for _ in 0..batches {
        line.make_batch(session, &mut batch);
        let start = Instant::now(rt)?;
        line.take_batch(&batch);
        seconds += start.elapsed(rt)?.as_secs_f64();
    }
    show(rt, line, batches.wrapping_mul(BATCH as u32), seconds, what)
}

fn measure_refusals(
    rt: &HostRuntime,
    line: &mut Line,
    frame: &mut [u8; 102],
    calls: u32,
    what: &str,
) -> anyhow::Result<()> {
    let start = Instant::now(rt)?;
    line.take_often(frame, calls);
    let seconds = start.elapsed(rt)?.as_secs_f64();
    show(rt, line, calls, seconds, what)
}

pub fn measure_calls(rt: &HostRuntime) -> anyhow::Result<()> {
    let mut line = Line::new()?;
    line.open_session(1)?;
    measure_deliveries::<46>(rt, &mut line, 1, 4000, "8-octets")?;
    measure_deliveries::<102>(rt, &mut line, 1, 2000, "64-octets")?;
    measure_deliveries::<512>(rt, &mut line, 1, 500, "474-octets")?;
    for session in 2..9 {
        line.open_session(session)?;
    }
    measure_deliveries::<102>(rt, &mut line, 8, 2000, "64-octets-of-the-eighth-session")?;
    measure_deliveries::<102>(rt, &mut line, 1, 2000, "64-octets-after-500000-calls")?;
    let mut frame = make_frame(1, line.number.wrapping_add(1));
    frame[101] ^= 1;
    measure_refusals(rt, &mut line, &mut frame, 100_000, "64-octets-refused-9")?;
    frame[0] = 0x07;
    measure_refusals(rt, &mut line, &mut frame, 10_000_000, "64-octets-refused-2")
}
