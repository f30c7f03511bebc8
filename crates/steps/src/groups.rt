// Frames of the group: those that arrive, and those that go out.
ghost use Rattle.rules.specs.Meaning.{meaning};
ghost use Rattle.std.specs.Prelude.{◌≡◌, ◌<◌, ◌≤◌, [], length};
ghost use Rattle.frames.specs.Sealing.{wrapper};
ghost use Rattle.rules.specs.GroupTime.{heard, next_time, tag_of, within};
ghost use Rattle.rules.specs.Limits.{numbers};
ghost use Rattle.rules.specs.Making.{latency, own_serial};
ghost use Rattle.sealer.specs.Limits.{largest_telegram};
ghost use Rattle.steps.specs.Cores.{Becomes, Does, Ready, model};
ghost use Rattle.steps.specs.Timed.{Timed};
ghost use Rattle.steps.specs.Steps.{announcing, group_receiving, notifying, noticing};

use crate::sealed::{notify, wrap};
use crate::sessions::is_good;
use crate::state::Core;
use crate::wrappers::open;
use clock::group::tag_of;
use frames::LARGEST_FRAME;
use frames::reading::{Notice, Wrapper};
use frames::stamps::Stamp;
use octets::runs::put;
use rules::answers::{Answer, Refusal};
use rules::limits::{GROUP, GROUP_USER, NUMBERS};
use sealer::Sealer;

impl Core {
    // A frame with its stamp: true where it is not late. That its number is a time is a clause, here and below: anybody can make a stamp.
    fn hear(&mut self, stamp: Stamp, lot: u32) -> bool
        requires ready { Ready self.old }
        requires time { stamp.number < numbers }
        ensures goes { Becomes (heard self.old.settings (model self.old) stamp.number stamp.serial stamp.tag lot) self.old self.new }
        ensures answer { result ≡ within self.old.group.timer (latency self.old.settings) stamp.number }
    {
        let tolerances = self.settings.tolerances();
        self.group.heard(tolerances, stamp, lot)
    }

    // A late wrapper is taken, any other is delivered.
    pub(crate) fn group_wrapper<S: Sealer>(
        &mut self,
        wrapper: Wrapper,
        lot: u32,
        out: &mut [u8; LARGEST_FRAME],
        work: &mut [u8; LARGEST_FRAME],
    ) -> Result<Answer, Refusal>
        requires ready { Ready self.old }
        requires time { wrapper.stamp.number < numbers }
        requires small { length wrapper.ciphertext.now ≤ largest_telegram }
        ensures { Does (group_receiving (meaning S.Sealer) wrapper.entry lot) self.old self.new result out.old out.new }
    {
        if wrapper.stamp.serial == self.settings.own_serial() {
            return Err(Refusal::OwnSerial);
        }
        let length = open::<S>(&self.settings.group, wrapper, work)?;
        let telegram = &work[..length];
        if !is_good(telegram) {
            return Err(Refusal::Telegram);
        }
        if !self.hear(wrapper.stamp, lot) {
            return Ok(Answer::Taken);
        }
        put(out, 0, telegram);
        Ok(Answer::Delivered {
            session: GROUP,
            number: wrapper.stamp.number,
            user: GROUP_USER,
            length,
        })
    }

    pub(crate) fn notice<S: Sealer>(&mut self, notice: Notice, lot: u32) -> Result<Answer, Refusal>
        requires ready { Ready self.old }
        requires time { notice.stamp.number < numbers }
        ensures { Does (noticing (meaning S.Sealer) notice.entry lot) self.old self.new result [] [] }
    {
        if !notice.opens::<S>(&self.settings.group) {
            return Err(Refusal::Opening);
        }
        self.hear(notice.stamp, lot);
        Ok(Answer::Taken)
    }

    // The time that the next frame to the group bears.
    fn next_time(&self) -> u64
        requires ready { Ready self.now }
        ensures { result ≡ next_time self.now.group.timer self.now.group.sent }
    {
        self.group.next_time()
    }

    // A wrapper to the group, into the lent output; answers its length and its time.
    fn seal_timed<S: Sealer>(
        &self,
        telegram: &[u8],
        lot: u32,
        out: &mut [u8; LARGEST_FRAME],
    ) -> Result<(usize, u64), Refusal>
        requires ready { Ready self.now }
        requires small { length telegram.now ≤ largest_telegram }
        ensures { Timed (meaning S.Sealer) self.now.settings (next_time self.now.group.timer self.now.group.sent) lot telegram.now result out.old out.new }
    {
        let time = self.next_time();
        if time >= NUMBERS {
            return Err(Refusal::TimesSpent);
        }
        let stamp = Stamp {
            number: time,
            serial: self.settings.own_serial(),
            tag: tag_of(lot),
        };
        let length = wrap::<S>(&self.settings.group, GROUP, stamp, telegram, out)?;
        Ok((length, time))
    }

    pub(crate) fn announced<S: Sealer>(
        &mut self,
        telegram: &[u8],
        lot: u32,
        out: &mut [u8; LARGEST_FRAME],
    ) -> Result<Answer, Refusal>
        requires ready { Ready self.old }
        ensures { Does (announcing (meaning S.Sealer) telegram.now lot) self.old self.new result out.old out.new }
    {
        if !is_good(telegram) {
            return Err(Refusal::Telegram);
        }
        let (length, number) = self.seal_timed::<S>(telegram, lot, out)?;
        self.group.sent_at(number);
        Ok(Answer::Sealed { length, number })
    }

    // A timer notify, where the countdown has run down and there is a time left.
    pub(crate) fn notify_due<S: Sealer>(
        &mut self,
        lot: u32,
        out: &mut [u8; LARGEST_FRAME],
    ) -> Result<Answer, Refusal>
        requires ready { Ready self.old }
        ensures { Does (notifying (meaning S.Sealer) lot) self.old self.new result out.old out.new }
    {
        let time = self.next_time();
        if self.group.countdown != 0 || time >= NUMBERS {
            return Ok(Answer::Nothing);
        }
        let stamp = Stamp {
            number: time,
            serial: self.group.notice_serial(self.settings.own_serial()),
            tag: self.group.notice_tag(lot),
        };
        let length = notify::<S>(&self.settings.group, stamp, out)?;
        self.group
            .notified_at(self.settings.tolerances(), time, lot);
        Ok(Answer::Frame { length })
    }
}
