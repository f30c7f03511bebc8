// Reading: an octet string that arrived is a frame with its parts, or it is refused.
ghost use Rattle.std.specs.Prelude.{◌≡◌, ◌≤◌, length};
ghost use Rattle.frames.specs.Limits.{largest_frame};
ghost use Rattle.frames.specs.Reading.{
  Sound,
  if_fits,
  notice_fits,
  notice_shape,
  reading,
  refusal_number,
  request_fits,
  request_shape,
  shown,
  wrapper_fits,
  wrapper_shape,
};

use crate::headers::stated_kind;
use crate::kinds::Kind;
use crate::stamps::Stamp;
use crate::{LARGEST_FRAME, NOTICE_LENGTH, REQUEST_LENGTH, SMALLEST_WRAPPER};
use cipher::Block;
use octets::numbers::number_at;
use octets::runs::part_at;
use sealer::Nonce;

// A secure wrapper, of a session or of the group. Its parts are lent from the octets that arrived. That number, serial and ciphertext lie
// within bounds is what `read` ensures and no ghost field: any parts make a wrapper, and `open` answers for them.
#[derive(Clone, Copy)]
pub struct Wrapper<'a> {
    pub session: u16,
    pub stamp: Stamp,
    pub associated: &'a [u8; 8],
    pub nonce: &'a Nonce,
    pub ciphertext: &'a [u8],
    pub mac: &'a Block,
}

// A timer notify.
#[derive(Clone, Copy)]
pub struct Notice<'a> {
    pub stamp: Stamp,
    pub associated: &'a [u8; 6],
    pub nonce: &'a Nonce,
    pub mac: &'a Block,
}

// A frame that is read. There is no case for other kinds: reading refuses them, so it could never come.
#[derive(Clone, Copy)]
pub enum Frame<'a> {
    Wrapper(Wrapper<'a>),
    Request { x: &'a [u8; 32] },
    Notice(Notice<'a>),
}

// Why an octet string is not read. The numbers are those of the gateway's refusals, which a crate above has. `refusal` is a method and no
// `From`, so that a call says what the number is.
#[derive(Clone, Copy, PartialEq, Eq)]
pub enum Unreadable {
    Header = 2,
    Kind = 3,
    Length = 4,
}

impl Unreadable {
    // The number under which it is refused.
    pub fn refusal(self) -> u8
        ensures { result ≡ refusal_number self }
    {
        self as u8
    }
}

fn read_wrapper(frame: &[u8]) -> Result<Frame, Unreadable>
    requires { length frame.now ≤ largest_frame }
    ensures meaning { shown result ≡ if_fits (wrapper_fits frame.now) (wrapper_shape frame.now) }
    ensures bounds { Sound result }
{
    if frame.len() < SMALLEST_WRAPPER {
        return Err(Unreadable::Length);
    }
    let end = frame.len() - 16;
    Ok(Frame::Wrapper(Wrapper {
        session: number_at(frame, 6),
        stamp: Stamp::at(frame, 8),
        associated: part_at(frame, 0),
        nonce: part_at(frame, 8),
        ciphertext: &frame[22..end],
        mac: part_at(frame, end),
    }))
}

fn read_request(frame: &[u8]) -> Result<Frame, Unreadable>
    ensures meaning { shown result ≡ if_fits (request_fits frame.now) (request_shape frame.now) }
    ensures bounds { Sound result }
{
    if frame.len() != REQUEST_LENGTH || frame[6] != 0x08 || !matches!(frame[7], 0x01 | 0x02) {
        return Err(Unreadable::Length);
    }
    Ok(Frame::Request {
        x: part_at(frame, 14),
    })
}

fn read_notice(frame: &[u8]) -> Result<Frame, Unreadable>
    ensures meaning { shown result ≡ if_fits (notice_fits frame.now) (notice_shape frame.now) }
    ensures bounds { Sound result }
{
    if frame.len() != NOTICE_LENGTH {
        return Err(Unreadable::Length);
    }
    Ok(Frame::Notice(Notice {
        stamp: Stamp::at(frame, 6),
        associated: part_at(frame, 0),
        nonce: part_at(frame, 6),
        mac: part_at(frame, 20),
    }))
}

// Total: what is no frame is refused, with the first reason in the order header, kind, length.
#[tactic(auto, using(std::proofs::lemmas::Bool::Decides::nat_tests))]
pub fn read(frame: &[u8]) -> Result<Frame, Unreadable>
    ensures meaning { shown result ≡ reading frame.now }
    ensures bounds { Sound result }
{
    let kind = stated_kind(frame).ok_or(Unreadable::Header)?;
    if frame.len() > LARGEST_FRAME {
        return Err(Unreadable::Header);
    }
    match Kind::try_from(kind)? {
        Kind::Wrapper => read_wrapper(frame),
        Kind::Request => read_request(frame),
        Kind::Notice => read_notice(frame),
        Kind::Response | Kind::Authenticate | Kind::Status => Err(Unreadable::Kind),
    }
}
