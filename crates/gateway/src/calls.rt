// The calls on the fields of a gateway, each with its rule and with the law over every run that led there.
// They stand apart from the methods of Gateway, which are thin over them: so a wrong method fails at its own contract.
ghost use Rattle.gateway.specs.Obeyed.{Promise};
ghost use Rattle.rules.specs.Calls.{announce, arrive, due, hang_up, pass, send};
ghost use Rattle.rules.specs.Meaning.{meaning};
ghost use Rattle.std.specs.Prelude.{[], Ok};
ghost use Rattle.steps.specs.Buffers.{lending};
ghost use Rattle.steps.specs.Cores.{Ready};

use rules::answers::{Answer, Refusal};
use sealer::Sealer;
use steps::state::Core;

pub(crate) fn pass<S: Sealer>(core: &mut Core, milliseconds: u32) -> Answer
    requires { Ready core.old }
    ensures ready { Ready core.new }
    ensures promise { Promise (meaning S.Sealer) (pass milliseconds) core.old core.new (Ok result) [] [] }
{
    core.passed(milliseconds);
    Answer::Taken
}

pub(crate) fn arrive<S: Sealer>(
    core: &mut Core,
    frame: &[u8],
    offer: &[u8],
    lot: u32,
    out: &mut [u8],
    work: &mut [u8],
) -> Result<Answer, Refusal>
    requires { Ready core.old }
    ensures ready { Ready core.new }
    ensures promise { Promise (meaning S.Sealer) (arrive frame.now offer.now lot (lending out.old work.old)) core.old core.new result out.new work.new }
{
    core.arrive::<S>(frame, offer, lot, out, work)
}

pub(crate) fn due<S: Sealer>(
    core: &mut Core,
    lot: u32,
    out: &mut [u8],
    work: &mut [u8],
) -> Result<Answer, Refusal>
    requires { Ready core.old }
    ensures ready { Ready core.new }
    ensures promise { Promise (meaning S.Sealer) (due lot (lending out.old work.old)) core.old core.new result out.new work.new }
{
    core.due::<S>(lot, out, work)
}

pub(crate) fn send<S: Sealer>(
    core: &mut Core,
    session: u16,
    telegram: &[u8],
    out: &mut [u8],
    work: &mut [u8],
) -> Result<Answer, Refusal>
    requires { Ready core.old }
    ensures ready { Ready core.new }
    ensures promise { Promise (meaning S.Sealer) (send session telegram.now (lending out.old work.old)) core.old core.new result out.new work.new }
{
    core.send::<S>(session, telegram, out, work)
}

pub(crate) fn announce<S: Sealer>(
    core: &mut Core,
    telegram: &[u8],
    lot: u32,
    out: &mut [u8],
    work: &mut [u8],
) -> Result<Answer, Refusal>
    requires { Ready core.old }
    ensures ready { Ready core.new }
    ensures promise { Promise (meaning S.Sealer) (announce telegram.now lot (lending out.old work.old)) core.old core.new result out.new work.new }
{
    core.announce::<S>(telegram, lot, out, work)
}

pub(crate) fn hang_up<S: Sealer>(
    core: &mut Core,
    session: u16,
    out: &mut [u8],
    work: &mut [u8],
) -> Result<Answer, Refusal>
    requires { Ready core.old }
    ensures ready { Ready core.new }
    ensures promise { Promise (meaning S.Sealer) (hang_up session (lending out.old work.old)) core.old core.new result out.new work.new }
{
    core.hang_up::<S>(session, out, work)
}
