// The calls with buffers: is there room, then the step; whichever way a call ends, the work area is cleared.
ghost use Rattle.rules.specs.Calls.{Step, announce, arrive, due, hang_up, send};
ghost use Rattle.steps.specs.Buffers.{Carries, lending, lent, wiped};
ghost use Rattle.steps.specs.Cores.{Does, Ready};
ghost use Rattle.steps.specs.Steps.{carrying};
ghost use Rattle.rules.specs.Meaning.{meaning};
ghost use Rattle.std.specs.Prelude.{◌≡◌};

use crate::state::Core;
use crate::wipe::Wipe;
use frames::LARGEST_FRAME;
use rules::answers::{Answer, Refusal};
use sealer::Sealer;

impl Core {
    // Takes one step on the fronts of both buffers, if there is room in both.
    fn lent<F>(&mut self, out: &mut [u8], work: &mut [u8], step: F) -> Result<Answer, Refusal>
    where
        F: FnOnce(
            &mut Core,
            &mut [u8; LARGEST_FRAME],
            &mut [u8; LARGEST_FRAME],
        ) -> Result<Answer, Refusal>,
        requires ready { Ready self.old }
        requires may { (core : _) (front : _) (area : _) → Ready core.now → F.pre step core front area }
        ensures rule { (rule : Core → Step) → Carries (F.post step) rule → Does (lent out.old work.old rule) self.old self.new result out.old out.new }
        ensures work { work.new ≡ wiped work.old }
    {
        let guard = Wipe { work };
        let work = guard.work.first_chunk_mut().ok_or(Refusal::Buffers)?;
        let out = out.first_chunk_mut().ok_or(Refusal::Buffers)?;
        step(self, out, work)
    }

    pub fn arrive<S: Sealer>(
        &mut self,
        frame: &[u8],
        offer: &[u8],
        lot: u32,
        out: &mut [u8],
        work: &mut [u8],
    ) -> Result<Answer, Refusal>
        requires { Ready self.old }
        ensures rule { Does (carrying (meaning S.Sealer) (arrive frame.now offer.now lot (lending out.old work.old))) self.old self.new result out.old out.new }
        ensures work { work.new ≡ wiped work.old }
    {
        self.lent(out, work, |core, out, work| {
            core.arrived::<S>(frame, offer, lot, out, work)
        })
    }

    pub fn due<S: Sealer>(
        &mut self,
        lot: u32,
        out: &mut [u8],
        work: &mut [u8],
    ) -> Result<Answer, Refusal>
        requires { Ready self.old }
        ensures rule { Does (carrying (meaning S.Sealer) (due lot (lending out.old work.old))) self.old self.new result out.old out.new }
        ensures work { work.new ≡ wiped work.old }
    {
        self.lent(out, work, |core, out, _| core.due_now::<S>(lot, out))
    }

    pub fn send<S: Sealer>(
        &mut self,
        session: u16,
        telegram: &[u8],
        out: &mut [u8],
        work: &mut [u8],
    ) -> Result<Answer, Refusal>
        requires { Ready self.old }
        ensures rule { Does (carrying (meaning S.Sealer) (send session telegram.now (lending out.old work.old))) self.old self.new result out.old out.new }
        ensures work { work.new ≡ wiped work.old }
    {
        self.lent(
            out,
            work,
            |core, out, _| core.send_in::<S>(session, telegram, out),
        )
    }

    pub fn announce<S: Sealer>(
        &mut self,
        telegram: &[u8],
        lot: u32,
        out: &mut [u8],
        work: &mut [u8],
    ) -> Result<Answer, Refusal>
        requires { Ready self.old }
        ensures rule { Does (carrying (meaning S.Sealer) (announce telegram.now lot (lending out.old work.old))) self.old self.new result out.old out.new }
        ensures work { work.new ≡ wiped work.old }
    {
        self.lent(
            out,
            work,
            |core, out, _| core.announced::<S>(telegram, lot, out),
        )
    }

    pub fn hang_up<S: Sealer>(
        &mut self,
        session: u16,
        out: &mut [u8],
        work: &mut [u8],
    ) -> Result<Answer, Refusal>
        requires { Ready self.old }
        ensures rule { Does (carrying (meaning S.Sealer) (hang_up session (lending out.old work.old))) self.old self.new result out.old out.new }
        ensures work { work.new ≡ wiped work.old }
    {
        self.lent(out, work, |core, out, _| core.hung_up::<S>(session, out))
    }
}
