// A gateway, made from settings and called by its host.
//
// Each call promises two things. Its rule: answer or refusal, the gateway after it, every octet of output and work area, on every
// input. And the law: whatever calls led to the gateway as it came in, together with this call they keep the law over runs.
// Output and work area are the host's, two slices that it lends to each call.
ghost use Rattle.gateway.specs.Made.{EitherWay, Made, Unmade};
ghost use Rattle.gateway.specs.Obeyed.{Promise};
ghost use Rattle.rules.specs.Calls.{announce, arrive, due, hang_up, pass, send};
ghost use Rattle.rules.specs.Meaning.{meaning};
ghost use Rattle.std.specs.Prelude.{◌≡◌, [], Ok};
ghost use Rattle.steps.specs.Buffers.{lending};
ghost use Rattle.steps.specs.Cores.{Ready};

use crate::calls;
use rules::answers::{Answer, Refusal};
use rules::settings::Settings;
use sealer::Sealer;
use std::marker::PhantomData;
use steps::state::Core;

#[derive(Drop)]
pub struct Gateway<S> {
    core: Core,
    sealer: PhantomData<S>,
    ghost ready: { ∥ Ready core ∥₁ },
}

impl<S: Sealer> Gateway<S> {
    // A new gateway, if the settings are acceptable.
    pub fn make(settings: Settings) -> Result<Gateway<S>, Refusal>
        ensures { EitherWay result (λ g. Made (meaning S.Sealer) settings g.core) (Unmade settings) }
    {
        if !settings.acceptable() {
            return Err(Refusal::Settings);
        }
        Ok(Gateway {
            core: Core::new(settings),
            sealer: PhantomData,
        })
    }

    // The group timer.
    pub fn timer(&self) -> u64
        ensures { result ≡ self.now.core.group.timer }
    {
        self.core.group.timer
    }

    // Milliseconds pass.
    pub fn pass(&mut self, milliseconds: u32) -> Answer
        ensures { Promise (meaning S.Sealer) (pass milliseconds) self.old.core self.new.core (Ok result) [] [] }
    {
        calls::pass::<S>(&mut self.core, milliseconds)
    }

    // A frame arrives. The offer is for a new session, should the frame ask for one; the lot spreads answers in time.
    pub fn arrive(
        &mut self,
        frame: &[u8],
        offer: &[u8],
        lot: u32,
        out: &mut [u8],
        work: &mut [u8],
    ) -> Result<Answer, Refusal>
        ensures { Promise (meaning S.Sealer) (arrive frame.now offer.now lot (lending out.old work.old)) self.old.core self.new.core result out.new work.new }
    {
        calls::arrive::<S>(&mut self.core, frame, offer, lot, out, work)
    }

    // What time has brought: a lapsed session ends, or a timer notify goes out, or there is nothing.
    pub fn due(&mut self, lot: u32, out: &mut [u8], work: &mut [u8]) -> Result<Answer, Refusal>
        ensures { Promise (meaning S.Sealer) (due lot (lending out.old work.old)) self.old.core self.new.core result out.new work.new }
    {
        calls::due::<S>(&mut self.core, lot, out, work)
    }

    // A telegram to a session.
    pub fn send(
        &mut self,
        session: u16,
        telegram: &[u8],
        out: &mut [u8],
        work: &mut [u8],
    ) -> Result<Answer, Refusal>
        ensures { Promise (meaning S.Sealer) (send session telegram.now (lending out.old work.old)) self.old.core self.new.core result out.new work.new }
    {
        calls::send::<S>(&mut self.core, session, telegram, out, work)
    }

    // A telegram to the group.
    pub fn announce(
        &mut self,
        telegram: &[u8],
        lot: u32,
        out: &mut [u8],
        work: &mut [u8],
    ) -> Result<Answer, Refusal>
        ensures { Promise (meaning S.Sealer) (announce telegram.now lot (lending out.old work.old)) self.old.core self.new.core result out.new work.new }
    {
        calls::announce::<S>(&mut self.core, telegram, lot, out, work)
    }

    // A session ends, and is told so.
    pub fn hang_up(
        &mut self,
        session: u16,
        out: &mut [u8],
        work: &mut [u8],
    ) -> Result<Answer, Refusal>
        ensures { Promise (meaning S.Sealer) (hang_up session (lending out.old work.old)) self.old.core self.new.core result out.new work.new }
    {
        calls::hang_up::<S>(&mut self.core, session, out, work)
    }
}
