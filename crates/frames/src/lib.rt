// Frames: what arrives is read in place, and what goes out is written into a lent buffer.
#![tactic(auto)]

pub mod headers;
pub mod kinds;
pub mod opening;
pub mod reading;
pub mod sealing;
pub mod stamps;
pub mod telegrams;
pub mod writing;

ghost use Rattle.frames.specs.Laws.{
  AuthenticateIsItsParts,
  AuthenticateReadBack,
  GoodIsApart,
  GoodIsGood,
  NoSessionReadBack,
  NoticeIsItsParts,
  NoticeReadBack,
  ResponseReadBack,
  SealedNoticeReadBack,
  SealedResponseReadBack,
  SealedWrapperReadBack,
  StatusReadBack,
  WrapperIsItsParts,
  WrapperReadBack,
};

use sealer::Sealer;

// The limits on lengths, in octets; the largest telegram is the sealer's.
pub const LARGEST_FRAME: usize = 512;

pub const SMALLEST_WRAPPER: usize = 44;
// What a secure wrapper adds to its telegram.
pub const WRAPPER_OVERHEAD: usize = 38;

pub const REQUEST_LENGTH: usize = 46;

pub const RESPONSE_LENGTH: usize = 56;

pub const NO_SESSION_LENGTH: usize = 8;

pub const AUTHENTICATE_LENGTH: usize = 24;

pub const STATUS_LENGTH: usize = 8;

pub const NOTICE_LENGTH: usize = 36;

// What is written is read back with the parts that were put in; there is nothing to compute.
pub fn read_back_laws_hold()
    ensures wrapper { WrapperReadBack }
    ensures notice { NoticeReadBack }
    ensures response { ResponseReadBack }
    ensures no_session { NoSessionReadBack }
    ensures status { StatusReadBack }
    ensures authenticate { AuthenticateReadBack }
{}

// What is read is its parts, one after the other.
pub fn parts_laws_hold()
    ensures wrapper { WrapperIsItsParts }
    ensures notice { NoticeIsItsParts }
    ensures authenticate { AuthenticateIsItsParts }
{}

// What a sealer sealed is read back, and a wrapper opens to its telegram.
pub fn sealed_laws_hold<S: Sealer>()
    ensures wrapper { SealedWrapperReadBack S.Sealer.ciphertext S.Sealer.mac S.Sealer.opened }
    ensures notice { SealedNoticeReadBack S.Sealer.mac }
    ensures response { SealedResponseReadBack S.Sealer.mac }
{}

// A good telegram is told apart from session authenticate and session status.
pub fn telegram_laws_hold()
    ensures apart { GoodIsApart }
    ensures good { GoodIsGood }
{}
