// The line that a call prints: its answer or its refusal.
use octets::hex::Hex;
use rules::answers::{Answer, Refusal};
use std::fmt;

// What a call answered, and the output that it was lent.
#[derive(Clone, Copy)]
pub struct Answered<'a> {
    pub answer: Result<Answer, Refusal>,
    pub out: &'a [u8],
}

impl Answered<'_> {
    // The first octets of the output, at most all of it.
    fn front(&self, length: usize) -> Hex<'_> {
        Hex(&self.out[..length.min(self.out.len())])
    }
}

impl fmt::Display for Answered<'_> {
    fn fmt<W: fmt::Write>(&self, f: &mut fmt::Formatter<W>) -> fmt::Result {
        match self.answer {
            Ok(Answer::Nothing) => write!(f, "nothing"),
            Ok(Answer::Taken) => write!(f, "taken"),
            Ok(
                Answer::Delivered {
                    session,
                    number,
                    user,
                    length,
                },
            ) => {
                let telegram = self.front(length);
                write!(
                    f,
                    "delivered {session:04X} {number} {user} {length} {telegram}"
                )
            }
            Ok(Answer::Frame { length }) => {
                let frame = self.front(length);
                write!(f, "frame {length} {frame}")
            }
            Ok(Answer::Sealed { length, number }) => {
                let frame = self.front(length);
                write!(f, "frame {length} {number} {frame}")
            }
            Err(refusal) => {
                let number = refusal.number();
                write!(f, "refused {number}")
            }
        }
    }
}
