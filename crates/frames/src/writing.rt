// Writing: the octets of the frames that go out. There is no heap: the output is lent, and what puts octets there answers their length.
ghost use Rattle.std.specs.Prelude.{◌≡◌, ◌+◌, ◌≤◌, [], ◌∷◌, ◌++◌, length};
ghost use Rattle.frames.specs.Limits.{largest_frame, no_session_length};
ghost use Rattle.frames.specs.Kinds.{kind_number};
ghost use Rattle.frames.specs.Writing.{
  authenticate_lead,
  header,
  left,
  no_session,
  notice_lead,
  response_lead,
  room,
  status,
  wrapper_lead,
};

use crate::kinds::Kind;
use crate::{
    AUTHENTICATE_LENGTH, NO_SESSION_LENGTH, NOTICE_LENGTH, RESPONSE_LENGTH, STATUS_LENGTH,
};
use octets::numbers::Number;

// The six octets that every frame begins with. The bound on the size is a clause here and in the two that follow: in a u16 it would need a
// cast wherever one is given.
fn header(kind: Kind, size: usize) -> [u8; 6]
    requires { size ≤ largest_frame }
    ensures { result ≡ header (kind_number kind) size }
{
    let [kind_high, kind_low]: [u8; 2] = (kind as u16).octets();
    let [size_high, size_low]: [u8; 2] = (size as u16).octets();
    [0x06, 0x10, kind_high, kind_low, size_high, size_low]
}

// The same and the two octets that follow.
fn lead(kind: Kind, size: usize, last: [u8; 2]) -> [u8; 8]
    requires { size ≤ largest_frame }
    ensures { result ≡ header (kind_number kind) size ++ last }
{
    let [a, b, c, d, e, f] = header(kind, size);
    let [g, h] = last;
    [a, b, c, d, e, f, g, h]
}

// What stands before the nonce of a secure wrapper; `size` is the length of the whole frame.
#[tactic(auto, unfolding(crate::specs::Writing::wrapper_lead))]
pub(crate) fn wrapper_lead(size: usize, session: u16) -> [u8; 8]
    requires { size ≤ largest_frame }
    ensures { result ≡ wrapper_lead size session }
{
    lead(Kind::Wrapper, size, session.octets())
}

#[tactic(auto, unfolding(crate::specs::Writing::response_lead))]
pub(crate) fn response_lead(session: u16) -> [u8; 8]
    ensures { result ≡ response_lead session }
{
    lead(Kind::Response, RESPONSE_LENGTH, session.octets())
}

#[tactic(auto, unfolding(crate::specs::Writing::authenticate_lead))]
pub(crate) fn authenticate_lead(user: u8) -> [u8; 8]
    ensures { result ≡ authenticate_lead user }
{
    lead(Kind::Authenticate, AUTHENTICATE_LENGTH, [0, user])
}

#[tactic(auto, unfolding(crate::specs::Writing::notice_lead))]
pub(crate) fn notice_lead() -> [u8; 6]
    ensures { result ≡ notice_lead }
{
    header(Kind::Notice, NOTICE_LENGTH)
}

// A session status, which goes out as the telegram of a secure wrapper.
pub fn status_telegram(code: u8) -> [u8; 8]
    ensures { result ≡ status code }
{
    lead(Kind::Status, STATUS_LENGTH, [code, 0])
}

// Puts three runs, one after the other, to the front of the output, and answers their length, or leaves the output as it is.
pub(crate) fn put_parts(first: &[u8], second: &[u8], third: &[u8], out: &mut [u8]) -> Option<usize>
    requires { length first.now + length second.now + length third.now ≤ largest_frame }
    ensures length { result ≡ room (length first.now + length second.now + length third.now) out.old }
    ensures out { out.new ≡ left result (first.now ++ second.now ++ third.now) out.old }
{
    let a = first.len();
    let b = a + second.len();
    let n = b + third.len();
    if n > out.len() {
        return None;
    }
    out[..a].copy_from_slice(first);
    out[a..b].copy_from_slice(second);
    out[b..n].copy_from_slice(third);
    Some(n)
}

// The session response where no slot is free, if the output has the room.
pub fn refuse_session(out: &mut [u8]) -> Option<usize>
    ensures length { result ≡ room no_session_length out.old }
    ensures out { out.new ≡ left result no_session out.old }
{
    *out.first_chunk_mut()? = lead(Kind::Response, NO_SESSION_LENGTH, [0, 0]);
    Some(NO_SESSION_LENGTH)
}
