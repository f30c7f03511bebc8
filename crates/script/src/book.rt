// The book: what was delivered since the last making, in order.
use rules::answers::Answer;
use std::alloc::{AllocError, Global};
use std::fmt;

#[derive(Drop)]
pub struct Book {
    // deliveries alone, as they were answered: a struct of their own would repeat the fields of one variant
    entries: Vec<Answer>,
}

impl Book {
    pub fn new(heap: Global) -> Book {
        Book {
            entries: Vec::new(heap),
        }
    }

    pub fn clear(&mut self) {
        self.entries.clear();
    }

    // Enters an answer that is a delivery.
    pub fn enter(&mut self, answer: Answer) -> Result<(), AllocError> {
        if let Answer::Delivered { .. } = answer {
            self.entries.push(answer)?;
        }
        Ok(())
    }

    // How many entries a user has.
    fn total(&self, of: u8) -> usize {
        self.entries
            .iter()
            .filter(|entry| matches!(entry, Answer::Delivered { user, .. } if *user == of))
            .count()
    }
}

// The entries, and then how many each user has; the group is user 0.
impl fmt::Display for Book {
    fn fmt<W: fmt::Write>(&self, f: &mut fmt::Formatter<W>) -> fmt::Result {
        for entry in &self.entries {
            if let Answer::Delivered {
                session,
                number,
                user,
                length,
            } = entry
            {
                writeln!(f, "entered {session:04X} {number} {user} {length}")?;
            }
        }
        for user in 0..9 {
            let total = self.total(user);
            if total > 0 {
                writeln!(f, "total {user} {total}")?;
            }
        }
        Ok(())
    }
}
