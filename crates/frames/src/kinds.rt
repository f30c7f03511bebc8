// The kinds of frames, as their headers state them.
use crate::reading::Unreadable;

#[derive(Clone, Copy, PartialEq, Eq)]
pub enum Kind {
    Wrapper = 0x0950,
    Request = 0x0951,
    Response = 0x0952,
    Authenticate = 0x0953,
    Status = 0x0954,
    Notice = 0x0955,
}

impl TryFrom<u16> for Kind {
    ghost use Rattle.frames.specs.Kinds.{kind_of};
    ghost use Rattle.std.specs.Prelude.{◌≡◌};

    type Error = Unreadable;

    ghost try_from_gives = { λ number kind. kind ≡ kind_of number };

    fn try_from(number: u16) -> Result<Kind, Unreadable> {
        // the numbers stand here once more: a pattern names a discriminant only by a constant, and six of those are no plainer
        match number {
            0x0950 => Ok(Kind::Wrapper),
            0x0951 => Ok(Kind::Request),
            0x0952 => Ok(Kind::Response),
            0x0953 => Ok(Kind::Authenticate),
            0x0954 => Ok(Kind::Status),
            0x0955 => Ok(Kind::Notice),
            _ => Err(Unreadable::Kind),
        }
    }
}
