// Whole runs: any list of calls, carried out on a gateway that is made for it.
ghost use Rattle.gateway.specs.Made.{EitherWay};
ghost use Rattle.gateway.specs.Obeyed.{Promise};
ghost use Rattle.gateway.specs.Ran.{Follows, Ran, Stops, call_of, out_of};
ghost use Rattle.gateway.specs.declared.runs.Stopped.TheVariants.{NoMemory, Refused};
ghost use Rattle.rules.specs.Meaning.{meaning};
ghost use Rattle.std.specs.Prelude.{◌≡◌};

use crate::gateway::Gateway;
use frames::LARGEST_FRAME;
use rules::answers::{Answer, Refusal};
use rules::settings::Settings;
use sealer::Sealer;
use std::alloc::{AllocFailed, Global};

#[derive(Clone, Copy, PartialEq, Eq)]
pub enum Call<'a> {
    Arrive {
        frame: &'a [u8],
        offer: &'a [u8],
        lot: u32,
    },
    Pass {
        milliseconds: u32,
    },
    Due {
        lot: u32,
    },
    Send {
        session: u16,
        telegram: &'a [u8],
    },
    Announce {
        telegram: &'a [u8],
        lot: u32,
    },
    HangUp {
        session: u16,
    },
}

// What came of a call.
#[derive(Clone, Copy, PartialEq, Eq)]
pub struct Event<'a> {
    pub call: Call<'a>,
    pub answer: Result<Answer, Refusal>,
    // the output after the call, which was lent as zeros; pass is lent none, and nothing is said of it then
    pub out: [u8; LARGEST_FRAME],
    // the group timer before and after the call
    pub before: u64,
    pub after: u64,
}

impl<S: Sealer> Gateway<S> {
    // One call, with the buffers that it is lent. By cases and not as a closure: a call is a value, which a contract can list.
    pub fn carry_out(
        &mut self,
        call: Call,
        out: &mut [u8],
        work: &mut [u8],
    ) -> Result<Answer, Refusal>
        ensures { Promise (meaning S.Sealer) (call_of call.entry out.old work.old) self.old.core self.new.core result (out_of call.entry out.new) (out_of call.entry work.new) }
    {
        match call {
            Call::Arrive { frame, offer, lot } => self.arrive(frame, offer, lot, out, work),
            Call::Pass { milliseconds } => Ok(self.pass(milliseconds)),
            Call::Due { lot } => self.due(lot, out, work),
            Call::Send { session, telegram } => self.send(session, telegram, out, work),
            Call::Announce { telegram, lot } => self.announce(telegram, lot, out, work),
            Call::HangUp { session } => self.hang_up(session, out, work),
        }
    }
}

// The same with buffers of its own, and what came of it.
fn step<'a, S: Sealer>(gateway: &mut Gateway<S>, call: Call<'a>) -> Event<'a>
    ensures { Follows (meaning S.Sealer) call.entry gateway.old.core gateway.new.core result }
{
    let before = gateway.timer();
    let mut out = [0; LARGEST_FRAME];
    let mut work = [0; LARGEST_FRAME];
    let answer = gateway.carry_out(call, &mut out, &mut work);
    let after = gateway.timer();
    Event {
        call,
        answer,
        out,
        before,
        after,
    }
}

// Why there is no run.
#[derive(Clone, Copy, PartialEq, Eq)]
pub enum Stopped {
    Refused(Refusal),
    NoMemory,
}

impl From<Refusal> for Stopped {
    ghost from_gives = { λ why stopped. stopped ≡ Refused why };

    fn from(why: Refusal) -> Stopped {
        Stopped::Refused(why)
    }
}

impl<T: Drop> From<AllocFailed<T>> for Stopped {
    ghost from_gives = { λ _ stopped. stopped ≡ NoMemory };

    fn from(_failed: AllocFailed<T>) -> Stopped {
        Stopped::NoMemory
    }
}

// Carries out the calls, in their order, on a new gateway. The events are what came of each; where memory runs out there are none.
pub fn run<'a, S: Sealer>(
    heap: Global,
    settings: Settings,
    calls: &[Call<'a>],
) -> Result<Vec<Event<'a>>, Stopped>
    ensures { EitherWay result (λ events. Ran (meaning S.Sealer) settings calls.now events.items) (Stops settings) }
{
    let mut gateway = Gateway::<S>::make(settings)?;
    let mut events = Vec::new(heap);
    for call in calls {
        events.push(step::<S>(&mut gateway, *call))?;
    }
    Ok(events)
}
