// Wrappers of a session that arrive.
ghost use Rattle.rules.specs.Meaning.{meaning};
ghost use Rattle.std.specs.Prelude.{◌≤◌, length};
ghost use Rattle.sealer.specs.Limits.{largest_telegram};
ghost use Rattle.steps.specs.Cores.{Does, Ready};
ghost use Rattle.steps.specs.Opened.{Opens};
ghost use Rattle.steps.specs.Steps.{opening, receiving};

use crate::state::Core;
use cipher::Block;
use frames::LARGEST_FRAME;
use frames::reading::Wrapper;
use rules::answers::{Answer, Refusal};
use sealer::Sealer;

// The length of the telegram that a wrapper opens to; it stands in front of the work area, which is lent.
pub(crate) fn open<S: Sealer>(
    key: &Block,
    wrapper: Wrapper,
    work: &mut [u8; LARGEST_FRAME],
) -> Result<usize, Refusal>
    requires small { length wrapper.ciphertext.now ≤ largest_telegram }
    ensures { Opens (opening (meaning S.Sealer) key.now wrapper.entry) work.new result }
{
    wrapper.open::<S>(key, work).ok_or(Refusal::Opening)
}

impl Core {
    pub(crate) fn session_wrapper<S: Sealer>(
        &mut self,
        wrapper: Wrapper,
        out: &mut [u8; LARGEST_FRAME],
        work: &mut [u8; LARGEST_FRAME],
    ) -> Result<Answer, Refusal>
        requires ready { Ready self.old }
        requires small { length wrapper.ciphertext.now ≤ largest_telegram }
        ensures { Does (receiving (meaning S.Sealer) wrapper.entry) self.old self.new result out.old out.new }
    {
        let at = self.live(wrapper.session)?;
        if wrapper.stamp.serial == self.settings.own_serial() {
            return Err(Refusal::OwnSerial);
        }
        let slot = self.table.slot(at);
        if !slot.is_new(wrapper.stamp.number) {
            return Err(Refusal::Number);
        }
        let length = open::<S>(&slot.key, wrapper, work)?;
        self.act::<S>(at, wrapper.stamp.number, &work[..length], out)
    }
}
