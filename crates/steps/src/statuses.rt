// The statuses that a session is told or tells, with the numbers that a telegram has for them.
ghost use Rattle.std.specs.Prelude.{◌≡◌};
ghost use Rattle.steps.specs.Statuses.{number_of};

#[derive(Clone, Copy)]
pub enum Status {
    SignedIn = 0,
    TurnedAway = 1,
    NotSignedIn = 2,
    Lapsed = 3,
    // ends the session
    Close = 5,
}

// The number of a close, for a pattern.
pub const CLOSE: u8 = Status::Close as u8;

// A method and no `From`, so that a call says what the number is.
impl Status {
    pub fn number(self) -> u8
        ensures { result ≡ number_of self }
    {
        self as u8
    }
}
