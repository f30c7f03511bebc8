// Session requests.
ghost use Rattle.rules.specs.Meaning.{meaning};
ghost use Rattle.std.specs.Prelude.{◌≡◌, length, Ok};
ghost use Rattle.frames.specs.Writing.{no_session};
ghost use Rattle.octets.specs.Runs.{over};
ghost use Rattle.rules.specs.declared.answers.Answer.TheVariants as answer;
ghost use Rattle.steps.specs.Cores.{Does, Ready};
ghost use Rattle.steps.specs.Offers.{Offers};
ghost use Rattle.steps.specs.Steps.{requesting};

use crate::sealed::respond;
use crate::state::Core;
use cipher::Block;
use frames::LARGEST_FRAME;
use frames::writing::refuse_session;
use octets::numbers::number_at;
use octets::runs::part_at;
use rules::answers::{Answer, Refusal};
use sealer::Sealer;
use slots::slot::Slot;

const OFFER_LENGTH: usize = 50;

// What the host offers for a new session.
#[derive(Clone, Copy)]
pub struct Offer {
    pub session: u16,
    pub y: [u8; 32],
    pub key: Block,
}

fn read_offer(octets: &[u8]) -> Option<Offer>
    ensures { Offers octets.now result }
{
    if octets.len() != OFFER_LENGTH {
        return None;
    }
    let session: u16 = number_at(octets, 0);
    if session == 0 {
        return None;
    }
    Some(Offer {
        session,
        y: *part_at(octets, 2),
        key: *part_at(octets, 34),
    })
}

// There is no free slot.
fn decline(out: &mut [u8; LARGEST_FRAME]) -> Result<Answer, Refusal>
    ensures answer { result ≡ Ok (answer.Frame (length no_session)) }
    ensures out { out.new ≡ over no_session out.old }
{
    let length = refuse_session(out).ok_or(Refusal::Buffers)?;
    Ok(Answer::Frame { length })
}

impl Core {
    pub(crate) fn request<S: Sealer>(
        &mut self,
        x: &[u8; 32],
        offer: &[u8],
        out: &mut [u8; LARGEST_FRAME],
    ) -> Result<Answer, Refusal>
        requires ready { Ready self.old }
        ensures { Does (requesting (meaning S.Sealer) x.now offer.now) self.old self.new result out.old out.new }
    {
        let offer = read_offer(offer).ok_or(Refusal::Offer)?;
        if self.table.find(offer.session).is_some() {
            return Err(Refusal::Offer);
        }
        let Some(at) = self.table.free() else {
            return decline(out);
        };
        let length = respond::<S>(&self.settings.device, offer.session, x, &offer.y, out)?;
        self.table
            .open(at, Slot::begun(offer.session, offer.key, *x, offer.y));
        Ok(Answer::Frame { length })
    }
}
