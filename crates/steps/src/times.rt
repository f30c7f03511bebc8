// What time brings: waiting, sessions that lapse, timer notifies.
ghost use Rattle.rules.specs.Meaning.{meaning};
ghost use Rattle.slots.specs.Rows.{Distinct};
ghost use Rattle.steps.specs.Cores.{Becomes, Does, Ready};
ghost use Rattle.steps.specs.Living.{Lapses};
ghost use Rattle.steps.specs.Steps.{falling_due, waited};

use crate::state::Core;
use crate::statuses::Status;
use frames::LARGEST_FRAME;
use rules::answers::{Answer, Refusal};
use sealer::Sealer;
use slots::place::Place;

impl Core {
    pub fn passed(&mut self, ms: u32)
        requires apart { Distinct self.old.table.rows }
        ensures { Becomes (waited ms self.old) self.old self.new }
    {
        self.group.pass(ms);
        self.table.wait(ms);
    }

    // The place of the lapsed session with the smallest number.
    fn first_lapsed(&self) -> Option<Place>
        requires ready { Ready self.now }
        ensures { Lapses self.now result }
    {
        self.table.first_lapsed()
    }

    // The lapsed session with the smallest number ends; with none lapsed, a timer notify may be due.
    pub(crate) fn due_now<S: Sealer>(
        &mut self,
        lot: u32,
        out: &mut [u8; LARGEST_FRAME],
    ) -> Result<Answer, Refusal>
        requires ready { Ready self.old }
        ensures { Does (falling_due (meaning S.Sealer) lot) self.old self.new result out.old out.new }
    {
        match self.first_lapsed() {
            Some(at) => self.end::<S>(at, Status::Lapsed, out),
            None => self.notify_due::<S>(lot, out),
        }
    }
}
