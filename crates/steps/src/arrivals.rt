// A frame that arrives, by what it is.
ghost use Rattle.rules.specs.Meaning.{meaning};
ghost use Rattle.steps.specs.Cores.{Does, Ready};
ghost use Rattle.steps.specs.Steps.{arriving};

use crate::state::Core;
use frames::LARGEST_FRAME;
use frames::reading::{Frame, read};
use rules::answers::{Answer, Refusal};
use rules::limits::GROUP;
use sealer::Sealer;

impl Core {
    pub(crate) fn arrived<S: Sealer>(
        &mut self,
        frame: &[u8],
        offer: &[u8],
        lot: u32,
        out: &mut [u8; LARGEST_FRAME],
        work: &mut [u8; LARGEST_FRAME],
    ) -> Result<Answer, Refusal>
        requires ready { Ready self.old }
        ensures { Does (arriving (meaning S.Sealer) frame.now offer.now lot) self.old self.new result out.old out.new }
    {
        match read(frame)? {
            Frame::Request { x } => self.request::<S>(x, offer, out),
            Frame::Notice(notice) => self.notice::<S>(notice, lot),
            Frame::Wrapper(wrapper) if wrapper.session == GROUP => {
                self.group_wrapper::<S>(wrapper, lot, out, work)
            }
            Frame::Wrapper(wrapper) => self.session_wrapper::<S>(wrapper, out, work),
        }
    }
}
