// Frames that go out, into an output that has the room for every frame. It is lent, so each answers the length of its frame.
// That a telegram is small enough stays a clause here and in callers: a type for it would wrap a lent slice at each call and say the same once more.
ghost use Rattle.rules.specs.Meaning.{meaning};
ghost use Rattle.std.specs.Prelude.{◌≡◌, ◌≤◌, length, Ok};
ghost use Rattle.frames.specs.Sealing.{sealed_notice, sealed_response, wrapper};
ghost use Rattle.octets.specs.Runs.{over};
ghost use Rattle.sealer.specs.Limits.{largest_telegram};

use cipher::Block;
use frames::LARGEST_FRAME;
use frames::sealing::{seal_notice, seal_response, seal_wrapper};
use frames::stamps::Stamp;
use rules::answers::Refusal;
use sealer::Sealer;

pub(crate) fn wrap<S: Sealer>(
    key: &Block,
    session: u16,
    stamp: Stamp,
    telegram: &[u8],
    out: &mut [u8; LARGEST_FRAME],
) -> Result<usize, Refusal>
    requires small { length telegram.now ≤ largest_telegram }
    ensures length { result ≡ Ok (length (wrapper (meaning S.Sealer).ciphertext (meaning S.Sealer).mac key.now session stamp.number stamp.serial stamp.tag telegram.now)) }
    ensures out { out.new ≡ over (wrapper (meaning S.Sealer).ciphertext (meaning S.Sealer).mac key.now session stamp.number stamp.serial stamp.tag telegram.now) out.old }
{
    seal_wrapper::<S>(key, session, stamp, telegram, out).ok_or(Refusal::Buffers)
}

pub(crate) fn notify<S: Sealer>(
    key: &Block,
    stamp: Stamp,
    out: &mut [u8; LARGEST_FRAME],
) -> Result<usize, Refusal>
    ensures length { result ≡ Ok (length (sealed_notice (meaning S.Sealer).mac key.now stamp.number stamp.serial stamp.tag)) }
    ensures out { out.new ≡ over (sealed_notice (meaning S.Sealer).mac key.now stamp.number stamp.serial stamp.tag) out.old }
{
    seal_notice::<S>(key, stamp, out).ok_or(Refusal::Buffers)
}

pub(crate) fn respond<S: Sealer>(
    key: &Block,
    session: u16,
    x: &[u8; 32],
    y: &[u8; 32],
    out: &mut [u8; LARGEST_FRAME],
) -> Result<usize, Refusal>
    ensures length { result ≡ Ok (length (sealed_response (meaning S.Sealer).mac key.now session x.now y.now)) }
    ensures out { out.new ≡ over (sealed_response (meaning S.Sealer).mac key.now session x.now y.now) out.old }
{
    seal_response::<S>(key, session, x, y, out).ok_or(Refusal::Buffers)
}
