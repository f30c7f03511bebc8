// Sessions: found, told a status, ended, sent to.
ghost use Rattle.rules.specs.Meaning.{meaning};
ghost use Rattle.std.specs.Prelude.{◌≡◌, ◌≤◌, true, length, Ok};
ghost use Rattle.frames.specs.Writing as writing;
ghost use Rattle.octets.specs.Runs.{over};
ghost use Rattle.frames.specs.Telegrams.{is_good};
ghost use Rattle.rules.specs.Rules.{own_wrapper};
ghost use Rattle.rules.specs.declared.answers.Answer.TheVariants as answer;
ghost use Rattle.sealer.specs.Limits.{largest_telegram};
ghost use Rattle.slots.specs.Rows.{session_of};
ghost use Rattle.steps.specs.Cores.{Does, Ready};
ghost use Rattle.steps.specs.Steps.{ending, hanging_up, sending, sending_at};
ghost use Rattle.steps.specs.Living.{Lives, Standing};
ghost use Rattle.steps.specs.Statuses.{number_of};

use crate::sealed::wrap;
use crate::state::Core;
use crate::statuses::Status;
use frames::LARGEST_FRAME;
use frames::stamps::Stamp;
use frames::telegrams::family;
use frames::writing::status_telegram;
use rules::answers::{Answer, Refusal};
use rules::limits::LAST_TIME;
use rules::settings::Settings;
use sealer::Sealer;
use slots::place::Place;
use slots::slot::{Slot, State};

// An own wrapper of a session around a telegram, into the lent output; answers its length and its number.
fn seal_own<S: Sealer>(
    settings: &Settings,
    slot: &Slot,
    telegram: &[u8],
    out: &mut [u8; LARGEST_FRAME],
) -> Result<(usize, u64), Refusal>
    requires small { length telegram.now ≤ largest_telegram }
    ensures answer { result ≡ Ok (length (own_wrapper settings.now (meaning S.Sealer) slot.now.number (session_of slot.now) telegram.now), slot.now.own) }
    ensures out { out.new ≡ over (own_wrapper settings.now (meaning S.Sealer) slot.now.number (session_of slot.now) telegram.now) out.old }
{
    let stamp = Stamp {
        number: slot.own,
        serial: settings.own_serial(),
        tag: 0,
    };
    let length = wrap::<S>(&slot.key, slot.number, stamp, telegram, out)?;
    Ok((length, slot.own))
}

// A status in an own wrapper.
pub(crate) fn tell<S: Sealer>(
    settings: &Settings,
    slot: &Slot,
    status: Status,
    out: &mut [u8; LARGEST_FRAME],
) -> Result<Answer, Refusal>
    ensures answer { result ≡ Ok (answer.Frame (length (own_wrapper settings.now (meaning S.Sealer) slot.now.number (session_of slot.now) (writing.status (number_of status))))) }
    ensures out { out.new ≡ over (own_wrapper settings.now (meaning S.Sealer) slot.now.number (session_of slot.now) (writing.status (number_of status))) out.old }
{
    let (length, _) = seal_own::<S>(settings, slot, &status_telegram(status.number()), out)?;
    Ok(Answer::Frame { length })
}

// Whether a telegram may be sent.
pub(crate) fn is_good(telegram: &[u8]) -> bool
    ensures good { result ≡ is_good telegram.now }
    ensures small { result ≡ true → length telegram.now ≤ largest_telegram }
{
    family(telegram).is_some()
}

impl Core {
    // The place of a session that has not lapsed.
    pub(crate) fn live(&self, session: u16) -> Result<Place, Refusal>
        ensures { Lives self.now session result }
    {
        self.table
            .find(session)
            .filter(|at| !self.table.slot(*at).lapsed())
            .ok_or(Refusal::Session)
    }

    // A status goes out, and the session ends.
    pub(crate) fn end<S: Sealer>(
        &mut self,
        at: Place,
        status: Status,
        out: &mut [u8; LARGEST_FRAME],
    ) -> Result<Answer, Refusal>
        requires ready { Ready self.old }
        ensures { Does (ending (meaning S.Sealer) at (number_of status)) self.old self.new result out.old out.new }
    {
        let slot = self.table.slot(at);
        let answer = tell::<S>(&self.settings, &slot, status, out);
        self.table.end(at);
        answer
    }

    pub(crate) fn hung_up<S: Sealer>(
        &mut self,
        session: u16,
        out: &mut [u8; LARGEST_FRAME],
    ) -> Result<Answer, Refusal>
        requires ready { Ready self.old }
        ensures { Does (hanging_up (meaning S.Sealer) session) self.old self.new result out.old out.new }
    {
        let at = self.live(session)?;
        self.end::<S>(at, Status::Close, out)
    }

    fn send_at<S: Sealer>(
        &mut self,
        at: Place,
        telegram: &[u8],
        out: &mut [u8; LARGEST_FRAME],
    ) -> Result<Answer, Refusal>
        requires ready { Ready self.old }
        requires stands { Standing self.old at }
        requires small { length telegram.now ≤ largest_telegram }
        ensures { Does (sending_at (meaning S.Sealer) at telegram.now) self.old self.new result out.old out.new }
    {
        let slot = self.table.slot(at);
        if let State::Unsigned = slot.state {
            return Err(Refusal::SignIn);
        }
        // the last number is kept for the status that ends the session
        if slot.own >= LAST_TIME {
            return Err(Refusal::NumbersSpent);
        }
        let (length, number) = seal_own::<S>(&self.settings, &slot, telegram, out)?;
        self.table.set(at, slot.sent_one());
        Ok(Answer::Sealed { length, number })
    }

    pub(crate) fn send_in<S: Sealer>(
        &mut self,
        session: u16,
        telegram: &[u8],
        out: &mut [u8; LARGEST_FRAME],
    ) -> Result<Answer, Refusal>
        requires ready { Ready self.old }
        ensures { Does (sending (meaning S.Sealer) session telegram.now) self.old self.new result out.old out.new }
    {
        let at = self.live(session)?;
        if !is_good(telegram) {
            return Err(Refusal::Telegram);
        }
        self.send_at::<S>(at, telegram, out)
    }
}
