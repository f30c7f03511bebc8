// Sealing and opening: authenticated encryption of telegrams over any block cipher.
#![tactic(auto)]

pub mod counter;
pub mod mac;
pub mod sealers;

ghost use Rattle.std.specs.Prelude.{◌≡◌, ◌≤◌, true, length};
ghost use Rattle.sealer.specs.Limits.{largest_telegram};
ghost use Rattle.sealer.specs.Samples.{NoticeSample, WrapperSample};
ghost use Rattle.sealer.specs.Sealing.{Apart, Complete, Long, Opened, Openings, Sealed, Sound, Wide};

use cipher::Block;

pub const LARGEST_TELEGRAM: usize = 474;

pub type Nonce = [u8; 14];

// A sealer has no state: its type says which sealer it is. A telegram longer than the largest cannot be passed to it. That is a clause
// and no type, here and in the crates above: a slice type with the bound would be made and taken apart at each call, and say no more.
pub trait Sealer {
    // the meaning: ciphertext and MAC by key, nonce, associated data and telegram
    ghost ciphertext: { Sealed };

    ghost mac: { Sealed };

    // the telegram that a ciphertext and a MAC open to, if there is one
    ghost opened: { Openings };

    // the laws; a member's value is its proof
    ghost apart: { Apart ciphertext };

    ghost long: { Long ciphertext };

    ghost wide: { Wide mac };

    ghost sound: { Sound ciphertext mac opened };

    ghost complete: { Complete ciphertext mac opened };

    // Key, nonce, associated data and text stay apart, here and in mac.rt: they come from up to four places, and a struct of them would be
    // made for each call and taken apart at once.
    // Turns the telegram into its ciphertext where it stands, and returns the MAC.
    fn seal(key: &Block, nonce: &Nonce, associated: &[u8], text: &mut [u8]) -> Block
        requires { length text.old ≤ largest_telegram }
        ensures ciphertext { text.new ≡ ciphertext key.now nonce.now associated.now text.old }
        ensures mac { result ≡ mac key.now nonce.now associated.now text.old };

    // Turns the ciphertext into the telegram where it stands and says yes, or clears it and says no. A bool and no Option, since the telegram
    // stays with the caller, who lent its place.
    fn open(key: &Block, nonce: &Nonce, associated: &[u8], text: &mut [u8], given: &Block) -> bool
        requires { length text.old ≤ largest_telegram }
        ensures { Opened
            (opened key.now nonce.now associated.now text.old given.now)
            (ciphertext key.now nonce.now associated.now)
            (mac key.now nonce.now associated.now)
            text.old given.now result text.new };
}

// What was sealed opens, and gives the telegram back.
pub fn seal_and_open<S: Sealer>(
    key: &Block,
    nonce: &Nonce,
    associated: &[u8],
    text: &mut [u8],
) -> bool
    requires { length text.old ≤ largest_telegram }
    ensures opens { result ≡ true }
    ensures same { text.new ≡ text.old }
{
    let made = S::seal(key, nonce, associated, text);
    S::open(key, nonce, associated, text, &made)
}

// Two frames worked by hand under the bench cipher hold of the definitions; there is nothing to compute.
#[tactic(auto, unfolding(crate::specs::Counter::masked, crate::specs::Mac::mac_of, crate::specs::Mac::raw_mac, crate::specs::Mac::covered))]
pub fn samples_hold()
    ensures notice { NoticeSample }
    ensures wrapper { WrapperSample }
{}
