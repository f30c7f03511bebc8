// Telegrams: what the octets are that a secure wrapper held.
ghost use Rattle.frames.specs.Telegrams.{good_family, sign_in, signed, telegram_kind};
ghost use Rattle.std.specs.Prelude.{◌≡◌};

use crate::AUTHENTICATE_LENGTH;
use crate::headers::stated_kind;
use crate::kinds::Kind;
use cipher::Block;
use octets::runs::part_at;
use sealer::LARGEST_TELEGRAM;

#[derive(Clone, Copy, PartialEq, Eq)]
pub enum Telegram {
    Authenticate,
    // with its number: a client may send any
    Status(u8),
    // with its family, of which any may come too
    Good(u8),
    Other,
}

// What a well formed session authenticate holds.
#[derive(Clone, Copy)]
pub struct SignIn<'a> {
    pub user: u8,
    pub mac: &'a Block,
}

// The family of a good telegram.
pub fn family(telegram: &[u8]) -> Option<u8>
    ensures { result ≡ good_family telegram.now }
{
    if telegram.len() > LARGEST_TELEGRAM {
        return None;
    }
    stated_kind(telegram)?;
    match telegram[2] {
        0x09 => None,
        family => Some(family),
    }
}

// A session authenticate may have any length here: one that is not well formed is a sign-in that fails.
pub fn classify(telegram: &[u8]) -> Telegram
    ensures { result ≡ telegram_kind telegram.now }
{
    match telegram {
        [0x06, 0x10, 0x09, 0x53, ..] => Telegram::Authenticate,
        // the last octet is not read
        [0x06, 0x10, 0x09, 0x54, 0, 8, status, _] => Telegram::Status(*status),
        _ => family(telegram).map_or(Telegram::Other, Telegram::Good),
    }
}

// What a session authenticate holds, if it is well formed.
pub fn authenticate(telegram: &[u8]) -> Option<SignIn>
    ensures { signed result ≡ sign_in telegram.now }
{
    let kind = stated_kind(telegram)?;
    if kind != Kind::Authenticate as u16
        || telegram.len() != AUTHENTICATE_LENGTH
        || telegram[6] != 0
    {
        return None;
    }
    Some(SignIn {
        user: telegram[7],
        mac: part_at(telegram, 8),
    })
}
