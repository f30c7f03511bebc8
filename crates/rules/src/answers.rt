// What a call answers.
ghost use Rattle.rules.specs.Answers.{answer_number, refusal_number};
ghost use Rattle.std.specs.Prelude.{◌≡◌};

use frames::reading::Unreadable;

#[derive(Clone, Copy, PartialEq, Eq)]
pub enum Answer {
    Nothing,
    Delivered {
        session: u16,
        number: u64,
        user: u8,
        length: usize,
    },
    // a frame to go out
    Frame {
        length: usize,
    },
    // the same, with the number or the time that it bears
    Sealed {
        length: usize,
        number: u64,
    },
    Taken,
}

impl Answer {
    // By cases: the variants hold values, and two have one number, so `as` cannot say it.
    pub fn number(self) -> u8
        ensures { result ≡ answer_number self }
    {
        match self {
            Answer::Nothing => 0,
            Answer::Delivered { .. } => 1,
            Answer::Frame { .. } => 2,
            Answer::Sealed { .. } => 2,
            Answer::Taken => 3,
        }
    }
}

// Why a call is refused: the question that was answered no. `number` is a method and no `From`, so that a call says what the number is.
#[derive(Clone, Copy, PartialEq, Eq)]
pub enum Refusal {
    Buffers = 1,
    Header = 2,
    Kind = 3,
    Length = 4,
    Offer = 5,
    Session = 6,
    OwnSerial = 7,
    Number = 8,
    Opening = 9,
    Telegram = 10,
    SignIn = 11,
    NumbersSpent = 12,
    TimesSpent = 13,
    Settings = 14,
}

impl Refusal {
    pub fn number(self) -> u8
        ensures { result ≡ refusal_number self }
    {
        self as u8
    }
}

// A frame that is not read.
impl From<Unreadable> for Refusal {
    ghost use Rattle.rules.specs.Answers.{unread};
    ghost use Rattle.std.specs.Prelude.{◌≡◌};

    ghost from_gives = { λ why refusal. refusal ≡ unread why };

    fn from(why: Unreadable) -> Refusal {
        match why {
            Unreadable::Header => Refusal::Header,
            Unreadable::Kind => Refusal::Kind,
            Unreadable::Length => Refusal::Length,
        }
    }
}
