// The MAC: CBC over what it covers, masked by the enciphered counter block 0.
ghost use Rattle.std.specs.Prelude.{◌≡◌, ℕ, ◌<◌, List, [], ◌∷◌, ◌++◌, length, replicate, if◌then◌else◌, bit_or, bit_xor};
ghost use Rattle.std.specs.List.{fold, zip};
ghost use Rattle.octets.specs.Runs.{xor};
ghost use Rattle.octets.specs.Numbers.{octets_of};
ghost use Rattle.sealer.specs.Absorbing.{finish};
ghost use Rattle.sealer.specs.Counter.{counter};
ghost use Rattle.sealer.specs.Mac.{covered, mac_of, raw_mac};
ghost use Rattle.sealer.specs.Sealing.{same};

use crate::Nonce;
use crate::counter::mask_block;
use cipher::{Block, BlockCipher};
use octets::numbers::Number;
use octets::runs::xor_into;

// CBC that takes its input octet by octet: `at` octets of the current block are XORed into the state already. Not by chunks: the parts that
// the MAC covers begin and end anywhere in a block, and to join them first would need a buffer for the longest telegram.
#[derive(Drop)]
struct Chain {
    state: Block,
    at: usize,
    ghost within: { at < 16 },
}

impl Chain {
    fn absorb<C: BlockCipher>(&mut self, prepared: &C::Prepared, x: u8)
        ensures { (rest : List ℕ) → finish (C.does prepared.now) self.new.state self.new.at rest ≡ finish (C.does prepared.now) self.old.state self.old.at (x ∷ rest) }
    {
        let at = self.at;
        self.state[at] ^= x;
        if at == 15 {
            C::encipher(prepared, &mut self.state);
            self.at = 0;
        } else {
            self.at = at + 1;
        }
    }

    fn absorb_all<C: BlockCipher>(&mut self, prepared: &C::Prepared, xs: &[u8])
        ensures { (rest : List ℕ) → finish (C.does prepared.now) self.new.state self.new.at rest ≡ finish (C.does prepared.now) self.old.state self.old.at (xs.now ++ rest) }
    {
        for x in xs {
            self.absorb::<C>(prepared, *x);
        }
    }

    // A block that is begun is filled up with zeros, which XOR nothing in.
    fn finish<C: BlockCipher>(mut self, prepared: &C::Prepared) -> Block
        ensures { result ≡ finish (C.does prepared.now) self.state self.at [] }
    {
        if self.at != 0 {
            C::encipher(prepared, &mut self.state);
        }
        self.state
    }
}

// A length in two octets, as the MAC covers it.
fn length_octets(xs: &[u8]) -> [u8; 2]
    ensures { result ≡ octets_of 2 (length xs.now) }
{
    ((xs.len() % 65_536) as u16).octets()
}

fn raw<C: BlockCipher>(
    prepared: &C::Prepared,
    nonce: &Nonce,
    associated: &[u8],
    telegram: &[u8],
) -> Block
    ensures { result ≡ raw_mac (C.does prepared.now) (covered nonce.now associated.now telegram.now) }
{
    let mut chain = Chain {
        state: [0; 16],
        at: 0,
    };
    chain.absorb_all::<C>(prepared, nonce);
    chain.absorb_all::<C>(prepared, &length_octets(telegram));
    chain.absorb_all::<C>(prepared, &length_octets(associated));
    chain.absorb_all::<C>(prepared, associated);
    chain.absorb_all::<C>(prepared, telegram);
    chain.finish::<C>(prepared)
}

#[tactic(auto, unfolding(crate::specs::Mac::mac_of))]
pub fn mac<C: BlockCipher>(
    prepared: &C::Prepared,
    nonce: &Nonce,
    associated: &[u8],
    telegram: &[u8],
) -> Block
    ensures { result ≡ mac_of (C.does prepared.now) nonce.now associated.now telegram.now }
{
    let mut mac = raw::<C>(prepared, nonce, associated, telegram);
    xor_into(&mut mac, &mask_block::<C>(prepared, nonce, 0));
    mac
}

// The bits in which two MACs differ, over all sixteen octets.
fn difference(made: &Block, given: &Block) -> u8
    ensures { result ≡ fold (λ d p. bit_or d (bit_xor p.0 p.1)) 0 (zip made.now given.now) }
{
    made.iter()
        .zip(given)
        .fold(0, |so_far, (x, y)| so_far | x ^ y)
}

// Whether two MACs are the same. It looks at all sixteen octets before it decides.
#[tactic(auto, using(crate::proofs::Sames::same_folded))]
pub fn same_mac(made: &Block, given: &Block) -> bool
    ensures { result ≡ same made.now given.now }
{
    difference(made, given) == 0
}

// Keeps a telegram whose MAC is the one given, and clears any other. A bool, as the sealer's `open` answers: the telegram stays where it is.
pub fn confirm<C: BlockCipher>(
    prepared: &C::Prepared,
    nonce: &Nonce,
    associated: &[u8],
    text: &mut [u8],
    given: &Block,
) -> bool
    ensures answer { result ≡ same (mac_of (C.does prepared.now) nonce.now associated.now text.old) given.now }
    ensures left { text.new ≡ (if result then text.old else replicate (length text.old) 0) }
{
    let made = mac::<C>(prepared, nonce, associated, text);
    let yes = same_mac(&made, given);
    if !yes {
        text.fill(0);
    }
    yes
}
