// Opening: a telegram is opened in a lent work area, and nowhere else. There is no heap, so its length is the answer.
ghost use Rattle.std.specs.Prelude.{◌≡◌, [], is_some};
ghost use Rattle.frames.specs.Opening.{fits_in, opened_area, opened_length};

use crate::reading::{Notice, Wrapper};
use cipher::Block;
use sealer::{LARGEST_TELEGRAM, Sealer};

impl Wrapper<'_> {
    // The length of the telegram that it opens to; it stands in front of the work area.
    pub fn open<S: Sealer>(self, key: &Block, work: &mut [u8]) -> Option<usize>
        ensures length { result ≡ opened_length (fits_in self.entry.ciphertext.now work.old) (S.Sealer.opened key.now self.entry.nonce.now self.entry.associated.now self.entry.ciphertext.now self.entry.mac.now) }
        ensures area { work.new ≡ opened_area (fits_in self.entry.ciphertext.now work.old) (S.Sealer.opened key.now self.entry.nonce.now self.entry.associated.now self.entry.ciphertext.now self.entry.mac.now) self.entry.ciphertext.now work.old }
    {
        let Wrapper {
            associated,
            nonce,
            ciphertext,
            mac,
            ..
        } = self;
        let n = ciphertext.len();
        if n > LARGEST_TELEGRAM || n > work.len() {
            return None;
        }
        let text = &mut work[..n];
        text.copy_from_slice(ciphertext);
        S::open(key, nonce, associated, text, mac).then_some(n)
    }
}

impl Notice<'_> {
    // Whether its MAC is right: it opens to the empty telegram.
    pub fn opens<S: Sealer>(self, key: &Block) -> bool
        ensures { result ≡ is_some (S.Sealer.opened key.now self.entry.nonce.now self.entry.associated.now [] self.entry.mac.now) }
    {
        let Notice {
            associated,
            nonce,
            mac,
            ..
        } = self;
        S::open(key, nonce, associated, &mut [], mac)
    }
}
