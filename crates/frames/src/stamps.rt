// Stamps: what a nonce says of its frame.
ghost use Rattle.std.specs.Prelude.{◌≡◌, ◌+◌, ◌^◌, ◌<◌, ◌≤◌, length};
ghost use Rattle.frames.specs.Writing.{nonce};
ghost use Rattle.octets.specs.Runs.{number};

use octets::numbers::{Number, number_at};
use sealer::Nonce;

// Which frame it is, and whose. Of number and serial the low 48 bits count.
#[derive(Clone, Copy, Debug, PartialEq, Eq)]
pub struct Stamp {
    // in the group this is the time
    pub number: u64,
    pub serial: u64,
    pub tag: u16,
}

impl Stamp {
    #[tactic(auto, unfolding(crate::specs::Writing::nonce))]
    pub(crate) fn nonce(self) -> Nonce
        ensures { result ≡ nonce self.number self.serial self.tag }
    {
        let [n0, n1, n2, n3, n4, n5]: [u8; 6] = self.number.octets();
        let [s0, s1, s2, s3, s4, s5]: [u8; 6] = self.serial.octets();
        let [t0, t1]: [u8; 2] = self.tag.octets();
        [n0, n1, n2, n3, n4, n5, s0, s1, s2, s3, s4, s5, t0, t1]
    }

    // The stamp in a frame whose nonce stands there.
    pub(crate) fn at(frame: &[u8], at: usize) -> Stamp
        requires { at + 14 ≤ length frame.now }
        ensures number { result.number ≡ number 6 at frame.now }
        ensures serial { result.serial ≡ number 6 (at + 6) frame.now }
        ensures tag { result.tag ≡ number 2 (at + 12) frame.now }
        ensures number_below { result.number < 2 ^ 48 }
        ensures serial_below { result.serial < 2 ^ 48 }
    {
        Stamp {
            number: number_at(frame, at),
            serial: number_at(frame, at + 6),
            tag: number_at(frame, at + 12),
        }
    }
}
