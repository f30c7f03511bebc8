// What a telegram does that opened in a session.
ghost use Rattle.rules.specs.Meaning.{meaning};
ghost use Rattle.std.specs.Prelude.{◌≡◌, ◌≤◌, length};
ghost use Rattle.rules.specs.Limits.{may_deliver};
ghost use Rattle.rules.specs.Sessions.{signs_in};
ghost use Rattle.sealer.specs.Limits.{largest_telegram};
ghost use Rattle.slots.specs.Rows.{session_of};
ghost use Rattle.steps.specs.Cores.{Becomes, Does, Ready};
ghost use Rattle.steps.specs.Living.{Standing};
ghost use Rattle.steps.specs.Steps.{acting, admitted, ended, gone_on, signing_in};

use crate::sessions::tell;
use crate::state::Core;
use crate::statuses::{CLOSE, Status};
use frames::LARGEST_FRAME;
use frames::sealing::mac_of_authenticate;
use frames::telegrams::{Telegram, authenticate, classify};
use octets::runs::put;
use rules::answers::{Answer, Refusal};
use rules::settings::Settings;
use sealer::Sealer;
use sealer::mac::same_mac;
use slots::place::Place;
use slots::slot::{Slot, State};

// Telegrams of this family manage the installation. A number and no enum: families are an open set.
const MANAGEMENT: u8 = 0x03;

// User 1 manages.
fn may_deliver(user: u8, family: u8) -> bool
    ensures { result ≡ may_deliver user family }
{
    family != MANAGEMENT || user == 1
}

// The user whom a session authenticate signs in.
fn signs_in<S: Sealer>(settings: &Settings, slot: &Slot, telegram: &[u8]) -> Option<u8>
    ensures { result ≡ signs_in settings.now (meaning S.Sealer) (session_of slot.now) telegram.now }
{
    let given = authenticate(telegram)?;
    let hash = settings.hash_of(given.user)?;
    let made = mac_of_authenticate::<S>(&hash, given.user, &slot.x, &slot.y);
    same_mac(given.mac, &made).then_some(given.user)
}

impl Core {
    // The session goes on: a wrapper with this number opened.
    fn go_on(&mut self, at: Place, number: u64)
        requires ready { Ready self.old }
        requires stands { Standing self.old at }
        ensures { Becomes (gone_on at number self.old) self.old self.new }
    {
        let slot = self.table.slot(at);
        self.table
            .set(at, slot.opened_by(number, slot.own, slot.state));
    }

    fn close(&mut self, at: Place)
        requires ready { Ready self.old }
        ensures { Becomes (ended at self.old) self.old self.new }
    {
        self.table.end(at);
    }

    // A user is signed in, and the status that says so has the session's own number.
    fn admit(&mut self, at: Place, number: u64, user: u8)
        requires ready { Ready self.old }
        requires stands { Standing self.old at }
        ensures { Becomes (admitted at number user self.old) self.old self.new }
    {
        let slot = self.table.slot(at);
        self.table.set(
            at,
            slot.opened_by(number, slot.own + 1, State::SignedIn(user)),
        );
    }

    // A user signs in, or is turned away.
    fn sign_in<S: Sealer>(
        &mut self,
        at: Place,
        number: u64,
        telegram: &[u8],
        out: &mut [u8; LARGEST_FRAME],
    ) -> Result<Answer, Refusal>
        requires ready { Ready self.old }
        requires stands { Standing self.old at }
        ensures { Does (signing_in (meaning S.Sealer) at number telegram.now) self.old self.new result out.old out.new }
    {
        let slot = self.table.slot(at);
        let Some(user) = signs_in::<S>(&self.settings, &slot, telegram) else {
            return self.end::<S>(at, Status::TurnedAway, out);
        };
        let answer = tell::<S>(&self.settings, &slot, Status::SignedIn, out);
        self.admit(at, number, user);
        answer
    }

    // By who is signed in and what the telegram is.
    pub(crate) fn act<S: Sealer>(
        &mut self,
        at: Place,
        number: u64,
        telegram: &[u8],
        out: &mut [u8; LARGEST_FRAME],
    ) -> Result<Answer, Refusal>
        requires ready { Ready self.old }
        requires stands { Standing self.old at }
        requires small { length telegram.now ≤ largest_telegram }
        ensures { Does (acting (meaning S.Sealer) at number telegram.now) self.old self.new result out.old out.new }
    {
        let slot = self.table.slot(at);
        match (slot.state, classify(telegram)) {
            (State::Unsigned, Telegram::Authenticate) => {
                self.sign_in::<S>(at, number, telegram, out)
            }
            (_, Telegram::Status(CLOSE)) => {
                self.close(at);
                Ok(Answer::Taken)
            }
            (State::Unsigned, Telegram::Good(_) | Telegram::Other) => {
                self.end::<S>(at, Status::NotSignedIn, out)
            }
            (State::SignedIn(user), Telegram::Good(family)) if may_deliver(user, family) => {
                self.go_on(at, number);
                put(out, 0, telegram);
                Ok(Answer::Delivered {
                    session: slot.number,
                    number,
                    user,
                    length: telegram.len(),
                })
            }
            (_, Telegram::Status(_)) | (State::SignedIn(_), _) => {
                self.go_on(at, number);
                Ok(Answer::Taken)
            }
        }
    }
}
