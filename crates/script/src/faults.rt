// Why a script ends before its last line.
use std::alloc::{AllocError, AllocFailed};
use std::io;
use thiserror::Error;

// What is wrong with a line. A text names the part of the line that is meant.
#[derive(Debug, Drop, Error)]
pub enum Fault {
    #[error("the line is not UTF-8 text")]
    NotText,
    #[error("the first word is neither a setting nor a call")]
    UnknownWord,
    #[error("the {0} is missing")]
    Missing(&'static str),
    #[error("there are more words than the line takes")]
    Surplus,
    #[error("the {0} is not a decimal number")]
    NotNumber(&'static str),
    // above the largest number that is read there
    #[error("the {0} is above {1}")]
    TooLarge(&'static str, u64),
    #[error("the {0} is not hexadecimal")]
    NotOctets(&'static str),
    #[error("the {0} has an odd number of digits")]
    HalfOctet(&'static str),
    // not as many octets as the part has
    #[error("the {0} does not have {1} octets")]
    WrongLength(&'static str, usize),
    #[error("the session is not four hexadecimal digits")]
    NotSession,
    #[error("the user is not from 1 to 8")]
    NoSuchUser,
    #[error("the cipher is neither aes nor bench")]
    NoSuchCipher,
    #[error("the sealer is neither knx nor reading")]
    NoSuchSealer,
    #[error("no gateway is made")]
    NoGateway,
    // input, output or memory failed
    #[error(transparent)]
    Failed(#[from] io::Error),
}

// A variant takes one `#[from]`, and memory that runs out is the same failure; so these two stand by hand.
impl From<AllocError> for Fault {
    fn from(error: AllocError) -> Fault {
        Fault::Failed(error.into())
    }
}

impl<T: Drop> From<AllocFailed<T>> for Fault {
    fn from(refused: AllocFailed<T>) -> Fault {
        Fault::Failed(refused.into())
    }
}

// The line at which a script ended, and why.
#[derive(Debug, Drop, Error)]
#[error("line {line}: {why}")]
pub struct Stop {
    pub line: u64,
    pub why: Fault,
}
