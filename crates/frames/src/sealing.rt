// Sealing: the frames that go out with a MAC, and the MAC that a user's sign-in has to have. There is no heap: the output is lent, and
// what puts a frame there answers its length.
ghost use Rattle.std.specs.Prelude.{◌≡◌, ◌+◌, ◌≤◌, ◌++◌, length};
ghost use Rattle.frames.specs.Limits.{notice_length, response_length, wrapper_overhead};
ghost use Rattle.frames.specs.Sealing.{
  authenticate_mac,
  exchange_data,
  exchange_mac,
  notified,
  responded,
  sealed_notice,
  sealed_response,
  wrapped,
  wrapper,
  wrapper_room,
};
ghost use Rattle.sealer.specs.Limits.{largest_telegram};
ghost use Rattle.frames.specs.Writing.{left, room};

use crate::WRAPPER_OVERHEAD;
use crate::stamps::Stamp;
use crate::writing::{authenticate_lead, notice_lead, put_parts, response_lead, wrapper_lead};
use cipher::Block;
use octets::runs::xor_into;
use sealer::{LARGEST_TELEGRAM, Nonce, Sealer};

// A timer notify, put to the front of the output if that has the room.
pub fn seal_notice<S: Sealer>(key: &Block, stamp: Stamp, out: &mut [u8]) -> Option<usize>
    ensures length { result ≡ room notice_length out.old }
    ensures out { out.new ≡ left result (sealed_notice S.Sealer.mac key.now stamp.number stamp.serial stamp.tag) out.old }
{
    let lead = notice_lead();
    let nonce = stamp.nonce();
    let mac = S::seal(key, &nonce, &lead, &mut []);
    put_parts(&lead, &nonce, &mac, out)
}

// The associated data of a session response and of a session authenticate. Here and below x and y stay two parameters: a struct of both
// would be made for each call, to be taken apart here.
fn exchange_octets(lead: &[u8; 8], x: &[u8; 32], y: &[u8; 32]) -> [u8; 40]
    ensures { result ≡ exchange_data lead.now x.now y.now }
{
    let mut octets = [0; 40];
    let (front, back) = octets.split_at_mut(8);
    front.copy_from_slice(lead);
    back.copy_from_slice(x);
    xor_into(back, y);
    octets
}

fn mac_of_exchange<S: Sealer>(key: &Block, lead: &[u8; 8], x: &[u8; 32], y: &[u8; 32]) -> Block
    ensures { result ≡ exchange_mac S.Sealer.mac key.now lead.now x.now y.now }
{
    S::seal(key, &[0; 14], &exchange_octets(lead, x, y), &mut [])
}

// A session response, under the device code, put to the front of the output if that has the room.
pub fn seal_response<S: Sealer>(
    key: &Block,
    session: u16,
    x: &[u8; 32],
    y: &[u8; 32],
    out: &mut [u8],
) -> Option<usize>
    ensures length { result ≡ room response_length out.old }
    ensures out { out.new ≡ left result (sealed_response S.Sealer.mac key.now session x.now y.now) out.old }
{
    let lead = response_lead(session);
    let mac = mac_of_exchange::<S>(key, &lead, x, y);
    put_parts(&lead, y, &mac, out)
}

// The MAC of the session authenticate of a user, under the hash of the user's password.
pub fn mac_of_authenticate<S: Sealer>(key: &Block, user: u8, x: &[u8; 32], y: &[u8; 32]) -> Block
    ensures { result ≡ authenticate_mac S.Sealer.mac key.now user x.now y.now }
{
    mac_of_exchange::<S>(key, &authenticate_lead(user), x, y)
}

// The telegram is sealed where it stands in the output; lead, nonce and MAC are written around it.
fn wrap<S: Sealer>(
    key: &Block,
    lead: &[u8; 8],
    nonce: &Nonce,
    telegram: &[u8],
    out: &mut [u8],
) -> Option<usize>
    requires { length telegram.now ≤ largest_telegram }
    ensures length { result ≡ room (length telegram.now + wrapper_overhead) out.old }
    ensures out { out.new ≡ left result (wrapped S.Sealer.ciphertext S.Sealer.mac key.now lead.now nonce.now telegram.now) out.old }
{
    let end = 22 + telegram.len();
    let size = telegram.len() + WRAPPER_OVERHEAD;
    if size > out.len() {
        return None;
    }
    out[..8].copy_from_slice(lead);
    out[8..22].copy_from_slice(nonce);
    let text = &mut out[22..end];
    text.copy_from_slice(telegram);
    let mac = S::seal(key, nonce, lead, text);
    out[end..size].copy_from_slice(&mac);
    Some(size)
}

// A secure wrapper around a telegram, put to the front of the output if both limits allow it.
pub fn seal_wrapper<S: Sealer>(
    key: &Block,
    session: u16,
    stamp: Stamp,
    telegram: &[u8],
    out: &mut [u8],
) -> Option<usize>
    ensures length { result ≡ wrapper_room (length telegram.now) out.old }
    ensures out { out.new ≡ left result (wrapper S.Sealer.ciphertext S.Sealer.mac key.now session stamp.number stamp.serial stamp.tag telegram.now) out.old }
{
    if telegram.len() > LARGEST_TELEGRAM {
        return None;
    }
    let lead = wrapper_lead(telegram.len() + WRAPPER_OVERHEAD, session);
    wrap::<S>(key, &lead, &stamp.nonce(), telegram, out)
}
