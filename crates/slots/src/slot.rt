// One row of the session table.
ghost use Rattle.std.specs.Prelude.{◌≡◌, ◌<◌};
ghost use Rattle.rules.specs.Limits.{numbers};
ghost use Rattle.rules.specs.Sessions.{above, begun, lapsed, opened_by, sent_one};
ghost use Rattle.slots.specs.Rows.{has, is_free, lapsed_row, session_of, user_of, waited_row};

use cipher::Block;

// Milliseconds after which a session lapses that is not signed in, and one that is.
pub const SIGN_IN_TIME: u32 = 10_000;

pub const IDLE_TIME: u32 = 60_000;

#[derive(Clone, Copy)]
pub enum State {
    Unsigned,
    // by this user
    SignedIn(u8),
}

#[derive(Clone, Copy)]
pub struct Slot {
    // 0: the row is free. Not an Option: the table is a fixed form, and a freed row is written over whole, which an Option's None would not promise.
    pub number: u16,
    pub key: Block,
    // the values that were exchanged
    pub x: [u8; 32],
    pub y: [u8; 32],
    // the number of the last wrapper that opened
    pub last: Option<u64>,
    // the number of the next own wrapper
    pub own: u64,
    pub state: State,
    // milliseconds that the session has waited, up to the longest that matters
    pub idle: u32,
}

impl Slot {
    pub const FREE: Slot = Slot {
        number: 0,
        key: [0; 16],
        x: [0; 32],
        y: [0; 32],
        last: None,
        own: 0,
        state: State::Unsigned,
        idle: 0,
    };

    // A session as it opens.
    pub fn begun(number: u16, key: Block, x: [u8; 32], y: [u8; 32]) -> Slot
        ensures session { session_of result ≡ begun key x y }
        ensures number { result.number ≡ number }
    {
        Slot {
            number,
            key,
            x,
            y,
            ..Slot::FREE
        }
    }

    pub fn is_free(&self) -> bool
        ensures { result ≡ is_free self.now }
    {
        self.number == 0
    }

    // Whether the row is that of this session.
    pub fn has(&self, number: u16) -> bool
        ensures { result ≡ has number self.now }
    {
        number != 0 && self.number == number
    }

    // Whether the session has waited too long.
    pub fn lapsed(&self) -> bool
        ensures { result ≡ lapsed (session_of self.now) }
    {
        let patience = match self.state {
            State::Unsigned => SIGN_IN_TIME,
            State::SignedIn(_) => IDLE_TIME,
        };
        patience <= self.idle
    }

    // The same, of a row: a free one has no session to lapse.
    pub fn has_lapsed(&self) -> bool
        ensures { result ≡ lapsed_row self.now }
    {
        !self.is_free() && self.lapsed()
    }

    // Whether a number is above every number that opened.
    pub fn is_new(&self, number: u64) -> bool
        ensures { result ≡ above self.now.last number }
    {
        match self.last {
            None => true,
            Some(last) => last < number,
        }
    }

    // The row after a wrapper opened: only a session that is signed in then starts to wait anew.
    pub fn opened_by(self, number: u64, own: u64, state: State) -> Slot
        ensures session { session_of result ≡ opened_by (session_of self) number own (user_of state) }
        ensures number { result.number ≡ self.number }
    {
        let idle = match state {
            State::Unsigned => self.idle,
            State::SignedIn(_) => 0,
        };
        Slot {
            last: Some(number),
            own,
            state,
            idle,
            ..self
        }
    }

    // The row after an own wrapper.
    pub fn sent_one(self) -> Slot
        requires { self.own < numbers }
        ensures session { session_of result ≡ sent_one (session_of self) }
        ensures number { result.number ≡ self.number }
    {
        Slot {
            own: self.own + 1,
            ..self
        }
    }

    pub fn waited(self, ms: u32) -> Slot
        ensures { result ≡ waited_row ms self }
    {
        Slot {
            idle: self.idle.saturating_add(ms).min(IDLE_TIME),
            ..self
        }
    }
}
