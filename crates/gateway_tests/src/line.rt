// A gateway on a line: steps are taken on it, and each is held to what is to be seen.
use crate::site::{CLIENT, OWN, SIGN_IN_1};
use crate::{by_hand, site};
use cipher::bench::Bench;
use frames::WRAPPER_OVERHEAD;
use frames::sealing::seal_wrapper;
use frames::stamps::Stamp;
use gateway::Gateway;
use rules::answers::{Answer, Refusal};
use rules::settings::Settings;
use sealer::Sealer;
use sealer::sealers::Knx;
use std::alloc::{AllocError, Global};
use std::test::*;

// What buffers hold before each call.
const FILL: u8 = 0xa5;

// Steps and what is to be seen are values and no closures, so that a run is a table in its test; and number, serial and tag stand apart,
// so that a row is short.
#[derive(Clone, Copy)]
pub enum Step {
    // a session request arrives, with the offer of a session or with other octets
    Request(u16),
    Offer(&'static [u8]),
    // the same with X, Y and key of the published session
    PublishedRequest,
    // octets arrive as they are; with bits of one octet changed: place, bits; zeros after a kind and their length
    Octets(&'static [u8]),
    Changed(&'static [u8], usize, u8),
    Stating(u16, u16),
    // what send put out comes back: session, own number
    Back(u16, u64),
    // a wrapper of a session, or of the group, from the client: session, number, telegram
    Wrapped(u16, u64, &'static [u8]),
    // the good telegram in a wrapper of the group: time, serial, tag, lot
    Grouped(u64, u64, u16, u32),
    // a timer notify: time, serial, tag, lot
    Notify(u64, u64, u16, u32),
    Pass(u32),
    Due(u32),
    Send(u16, &'static [u8]),
    Announce(&'static [u8], u32),
    HangUp(u16),
    // no call: from here on so many octets of output and work area are lent
    Lend(usize, usize),
}

#[derive(Clone, Copy)]
pub enum Seen {
    Refused(u8),
    Nothing,
    Taken,
    // taken, and the timer is at this
    Timer(u64),
    // session, number, user, telegram
    Delivered(u16, u64, u8, &'static [u8]),
    // a session response, and the short one
    Response(u16),
    NoSession,
    // session, own number, status
    Status(u16, u64, u8),
    // what send puts out, of the good telegram: session, own number
    Sent(u16, u64),
    // the same of the longest telegram in session 1, under the reading sealer
    Longest(u64),
    // what announce puts out, of the good telegram: time, tag
    Announced(u64, u16),
    // time, serial, tag
    Notice(u64, u64, u16),
    Frame(&'static [u8]),
}

pub type Run = &'static [(Step, Seen)];

// Session 1 opens, and user 1 signs in.
pub const OPEN: (Step, Seen) = (Step::Request(1), Seen::Response(1));

pub const SIGNED: (Step, Seen) = (Step::Wrapped(1, 0, SIGN_IN_1), Seen::Status(1, 0, 0));

// Makes the frame that arrives.
fn make_frame<S: Sealer>(heap: Global, step: &Step) -> Result<Vec<u8>, AllocError> {
    match *step {
        Step::Octets(octets) => octets.to_vec(heap),
        Step::Changed(octets, at, bits) => {
            let mut frame = octets.to_vec(heap)?;
            if let Some(octet) = frame.get_mut(at) {
                *octet ^= bits;
            }
            Ok(frame)
        }
        Step::Wrapped(session, number, telegram) => {
            let key = site::key_of(session);
            let stamp = Stamp {
                number,
                serial: CLIENT,
                tag: 0,
            };
            let mut frame = vec![in heap; 0; telegram.len().saturating_add(WRAPPER_OVERHEAD)]?;
            seal_wrapper::<S>(&key, session, stamp, telegram, frame.as_mut_slice());
            Ok(frame)
        }
        Step::Request(_) | Step::Offer(_) => site::REQUEST.to_vec(heap),
        Step::PublishedRequest => site::published_request().to_vec(heap),
        Step::Stating(kind, size) => site::stating(heap, kind, size),
        Step::Back(session, number) => by_hand::sent(session, number).to_vec(heap),
        Step::Grouped(time, serial, tag, _) => by_hand::grouped(time, serial, tag).to_vec(heap),
        Step::Notify(time, serial, tag, _) => by_hand::notice(time, serial, tag).to_vec(heap),
        _ => Ok(Vec::new(heap)),
    }
}

fn make_offer(heap: Global, step: &Step) -> Result<Vec<u8>, AllocError> {
    match *step {
        Step::Request(session) => site::offer(session).to_vec(heap),
        Step::Offer(octets) => octets.to_vec(heap),
        Step::PublishedRequest => site::published_offer().to_vec(heap),
        _ => Ok(Vec::new(heap)),
    }
}

fn lot_of(step: &Step) -> u32 {
    match *step {
        Step::Grouped(_, _, _, lot) | Step::Notify(_, _, _, lot) => lot,
        _ => 0,
    }
}

// What is to be put out.
fn make_output(heap: Global, seen: &Seen) -> Result<Vec<u8>, AllocError> {
    match *seen {
        Seen::Delivered(_, _, _, octets) | Seen::Frame(octets) => octets.to_vec(heap),
        Seen::NoSession => b"\x06\x10\x09\x52\x00\x08\x00\x00".to_vec(heap),
        Seen::Response(session) => by_hand::response(session).to_vec(heap),
        Seen::Status(session, number, code) => by_hand::status(session, number, code).to_vec(heap),
        Seen::Sent(session, number) => by_hand::sent(session, number).to_vec(heap),
        Seen::Longest(number) => by_hand::longest(number).to_vec(heap),
        Seen::Announced(time, tag) => by_hand::grouped(time, OWN, tag).to_vec(heap),
        Seen::Notice(time, serial, tag) => by_hand::notice(time, serial, tag).to_vec(heap),
        Seen::Refused(_) | Seen::Nothing | Seen::Taken | Seen::Timer(_) => Ok(Vec::new(heap)),
    }
}

// What is to be answered where so many octets are put out. A refusal is told by its number.
fn expected(seen: &Seen, length: usize) -> Result<Answer, u8> {
    match *seen {
        Seen::Refused(number) => Err(number),
        Seen::Nothing => Ok(Answer::Nothing),
        Seen::Taken | Seen::Timer(_) => Ok(Answer::Taken),
        Seen::Delivered(session, number, user, _) => Ok(Answer::Delivered {
            session,
            number,
            user,
            length,
        }),
        Seen::Sent(_, number) | Seen::Longest(number) | Seen::Announced(number, _) => {
            Ok(Answer::Sealed { length, number })
        }
        _ => Ok(Answer::Frame { length }),
    }
}

// What differs from what is to be seen.
#[derive(Debug, Drop)]
enum Fault {
    AnotherAnswer,
    AnotherOutput,
    WorkNotClear,
    AnotherTimer,
    NoMemory,
}

impl From<AllocError> for Fault {
    fn from(_: AllocError) -> Fault {
        Fault::NoMemory
    }
}

#[derive(Drop)]
pub struct Line<S> {
    gateway: Gateway<S>,
    // output and work area, as long as they are lent
    out: Vec<u8>,
    work: Vec<u8>,
}

impl<S: Sealer> Line<S> {
    pub fn new(heap: Global, settings: Settings) -> Result<Line<S>, Fail> {
        let gateway = Gateway::make(settings).map_err(|_| Fail::new("no gateway"))?;
        Ok(Line {
            gateway,
            out: vec![in heap; FILL; 512]?,
            work: vec![in heap; FILL; 512]?,
        })
    }

    // Each call by its own method, and not by carry_out: they are what is tested.
    fn take(&mut self, step: &Step) -> Result<Result<Answer, Refusal>, AllocError> {
        let heap = *self.out.allocator();
        let (out, work) = (self.out.as_mut_slice(), self.work.as_mut_slice());
        Ok(match *step {
            Step::Pass(milliseconds) => {
                work.fill(0);
                Ok(self.gateway.pass(milliseconds))
            }
            Step::Due(lot) => self.gateway.due(lot, out, work),
            Step::Send(session, telegram) => self.gateway.send(session, telegram, out, work),
            Step::Announce(telegram, lot) => self.gateway.announce(telegram, lot, out, work),
            Step::HangUp(session) => self.gateway.hang_up(session, out, work),
            _ => {
                let frame = make_frame::<S>(heap, step)?;
                let offer = make_offer(heap, step)?;
                self.gateway.arrive(frame.as_slice(), offer.as_slice(), lot_of(step), out, work)
            }
        })
    }

    // Takes a step, and holds it to what is to be seen.
    fn hold(&mut self, step: &Step, seen: &Seen) -> Result<(), Fault> {
        if let Step::Lend(out, work) = *step {
            self.out.resize(out, FILL)?;
            self.work.resize(work, FILL)?;
            return Ok(());
        }
        self.out.fill(FILL);
        self.work.fill(FILL);
        let before = self.gateway.timer();
        let got = self.take(step)?.map_err(|why| why.number());
        let after = self.gateway.timer();
        let timer = match *seen {
            Seen::Refused(_) => before,
            Seen::Timer(timer) => timer,
            _ => after,
        };
        let mut out = make_output(*self.out.allocator(), seen)?;
        if got != expected(seen, out.len()) {
            return Err(Fault::AnotherAnswer);
        }
        out.resize(self.out.len(), FILL)?;
        if self.out != out {
            return Err(Fault::AnotherOutput);
        }
        if self.work.iter().any(|octet| *octet != 0) {
            return Err(Fault::WorkNotClear);
        }
        if after != timer {
            return Err(Fault::AnotherTimer);
        }
        Ok(())
    }

    pub fn see(&mut self, step: &Step, seen: &Seen) -> Result<(), Fail> {
        self.hold(step, seen)?;
        Ok(())
    }

    pub fn play(&mut self, run: &[(Step, Seen)]) -> Result<(), Fail> {
        for (count, (step, seen)) in (1u32..).zip(run) {
            self.hold(step, seen)
                .map_err(|why| Fail::new(format_args!("step {count}: {why:?}")))?;
        }
        Ok(())
    }
}

// A line with the KNX sealer over the bench cipher.
pub fn bench(heap: Global, settings: Settings) -> Result<Line<Knx<Bench>>, Fail> {
    Line::new(heap, settings)
}

pub fn play(heap: Global, settings: Settings, run: Run) -> Result<(), Fail> {
    bench(heap, settings)?.play(run)
}
