// The group timer, what was sent by it, and what is planned.
ghost use Rattle.std.specs.Prelude.{◌≡◌, ◌<◌};
ghost use Rattle.clock.specs.Times.{
  Small,
  asked,
  followed,
  heard_by,
  notified_by,
  passed_by,
  reply_in,
  sent_by,
  started_at,
};
ghost use Rattle.rules.specs.GroupTime.{next_time, notice_serial, notice_tag, tag_of, within};
ghost use Rattle.rules.specs.Limits.{numbers};

use frames::stamps::Stamp;
use rules::limits::LAST_TIME;
use rules::tolerances::Tolerances;

// That the timer lies below `numbers` is a clause where it is needed and no ghost field: the definitions make clocks of any numbers.
#[derive(Clone, Copy)]
pub struct Group {
    pub timer: u64,
    // the last time that was sent
    pub sent: Option<u64>,
    // time keeper, or time follower; an enum would have to be turned into the rules' flag in every clause
    pub keeper: bool,
    // serial and tag of the frame to which a reply is wanted: plain numbers, in the form that is given
    pub wanted: Option<(u64, u16)>,
    // milliseconds until a timer notify is due
    pub countdown: u32,
}

// The tag that a lot makes.
pub fn tag_of(lot: u32) -> u16
    ensures { result ≡ tag_of lot }
{
    (lot % 0x1_0000) as u16
}

impl Group {
    // A new gateway's clock.
    pub fn new(tolerances: Tolerances, start: u64) -> Group
        ensures { result ≡ started_at tolerances.sync start }
    {
        Group {
            timer: start,
            sent: None,
            keeper: false,
            wanted: None,
            countdown: 10_000 + 4 * tolerances.sync,
        }
    }

    // Whether a time exceeds the timer less the tolerance; the difference may lie below 0.
    fn tolerates(self, tolerance: u32, time: u64) -> bool
        requires { (self.timer < numbers) × (time < numbers) }
        ensures { result ≡ within self.timer tolerance time }
    {
        let earliest = self.timer as i64 - tolerance as i64;
        earliest < time as i64
    }

    // Milliseconds until the reply to a late frame.
    fn reply_in(self, tolerances: Tolerances, lot: u32) -> u32
        ensures { result ≡ reply_in tolerances.sync self.keeper lot }
    {
        let sync = tolerances.sync;
        if self.keeper {
            100 + lot % (sync + 1)
        } else {
            100 + 2 * sync + lot % (10 * sync + 1)
        }
    }

    // Follower of this time.
    fn followed(self, tolerances: Tolerances, time: u64, lot: u32) -> Group
        ensures { result ≡ followed tolerances.sync self time lot }
    {
        let sync = tolerances.sync;
        Group {
            timer: time,
            keeper: false,
            wanted: None,
            countdown: 10_000 + 4 * sync + lot % (10 * sync + 1),
            ..self
        }
    }

    // A reply is wanted; the first late frame stays the one to reply to.
    fn asked(self, tolerances: Tolerances, stamp: Stamp, lot: u32) -> Group
        ensures { result ≡ asked tolerances.sync self stamp.serial stamp.tag lot }
    {
        Group {
            wanted: self.wanted.or(Some((stamp.serial, stamp.tag))),
            countdown: self.countdown.min(self.reply_in(tolerances, lot)),
            ..self
        }
    }

    fn heard_by(self, tolerances: Tolerances, stamp: Stamp, lot: u32) -> Group
        requires { (self.timer < numbers) × (stamp.number < numbers) }
        ensures group { result ≡ heard_by tolerances.latency tolerances.sync self stamp.number stamp.serial stamp.tag lot }
        ensures small { result.timer < numbers }
    {
        let time = stamp.number;
        if self.timer < time {
            self.followed(tolerances, time, lot)
        } else if self.tolerates(tolerances.sync, time) {
            self.followed(tolerances, self.timer, lot)
        } else if self.tolerates(tolerances.latency, time) {
            self
        } else {
            self.asked(tolerances, stamp, lot)
        }
    }

    // A frame of the group with this stamp: true where it is not late.
    pub fn heard(&mut self, tolerances: Tolerances, stamp: Stamp, lot: u32) -> bool
        requires { (self.old.timer < numbers) × (stamp.number < numbers) }
        ensures group { self.new ≡ heard_by tolerances.latency tolerances.sync self.old stamp.number stamp.serial stamp.tag lot }
        ensures small { self.new.timer < numbers }
        ensures answer { result ≡ within self.old.timer tolerances.latency stamp.number }
    {
        let in_time = self.tolerates(tolerances.latency, stamp.number);
        *self = self.heard_by(tolerances, stamp, lot);
        in_time
    }

    // The timer stops at its largest value, the countdown at 0.
    pub fn pass(&mut self, ms: u32)
        ensures group { self.new ≡ passed_by self.old ms }
        ensures small { self.new.timer < numbers }
    {
        self.timer = self.timer.saturating_add(ms as u64).min(LAST_TIME);
        self.countdown = self.countdown.saturating_sub(ms);
    }

    // The time that the next frame to the group bears: never one that was sent.
    pub fn next_time(&self) -> u64
        requires { Small self.now.sent }
        ensures { result ≡ next_time self.now.timer self.now.sent }
    {
        self.sent
            .map_or(self.timer, |last| self.timer.max(last + 1))
    }

    // After a frame to the group.
    pub fn sent_at(&mut self, time: u64)
        ensures { self.new ≡ sent_by self.old time }
    {
        self.timer = time;
        self.sent = Some(time);
    }

    // After a timer notify: the gateway keeps the time.
    pub fn notified_at(&mut self, tolerances: Tolerances, time: u64, lot: u32)
        ensures { self.new ≡ notified_by tolerances.sync time lot }
    {
        *self = Group {
            timer: time,
            sent: Some(time),
            keeper: true,
            wanted: None,
            countdown: 10_000 + lot % (3 * tolerances.sync + 1),
        };
    }

    // Serial and tag of a timer notify: those that are wanted, or our own and the lot's.
    pub fn notice_serial(&self, own: u64) -> u64
        ensures { result ≡ notice_serial self.now.wanted own }
    {
        self.wanted.map_or(own, |(serial, _)| serial)
    }

    pub fn notice_tag(&self, lot: u32) -> u16
        ensures { result ≡ notice_tag self.now.wanted lot }
    {
        self.wanted.map_or(tag_of(lot), |(_, tag)| tag)
    }
}
