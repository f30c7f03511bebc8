// Counter mode: the text XORed with enciphered counter blocks.
ghost use Rattle.std.specs.Prelude.{◌≡◌, ◌+◌, ◌*◌, ◌<◌, ◌≤◌, ◌++◌, length, take, drop};
ghost use Rattle.octets.specs.Runs.{xor};
ghost use Rattle.sealer.specs.Counter.{counter, masked};
ghost use Rattle.sealer.specs.Limits.{largest_telegram};

use crate::Nonce;
use cipher::{Block, BlockCipher};
use octets::runs::xor_into;

fn counter_block(nonce: &Nonce, i: u8) -> Block
    ensures { result ≡ counter nonce.now i }
{
    let mut block = [0xff; 16];
    block[15] = i;
    block[0..14].copy_from_slice(nonce);
    block
}

// Counter block i, enciphered.
pub fn mask_block<C: BlockCipher>(prepared: &C::Prepared, nonce: &Nonce, i: u8) -> Block
    ensures { result ≡ C.does prepared.now (counter nonce.now i) }
{
    let mut block = counter_block(nonce, i);
    C::encipher(prepared, &mut block);
    block
}

// Masks a text in place; a masked text is unmasked.
#[tactic(auto, using(std::proofs::lemmas::Grind::common_steps, octets::proofs::Xors::xor_none, crate::proofs::Masking::mask_more), unfolding(crate::specs::Counter::masked))]
pub fn mask<C: BlockCipher>(prepared: &C::Prepared, nonce: &Nonce, text: &mut [u8])
    requires { length text.old ≤ largest_telegram }
    ensures { text.new ≡ masked (C.does prepared.now) nonce.now text.old }
{
    // by place: of what is written through chunks_mut a proof knows nothing afterwards
    let parts = text.len().div_ceil(16) as u8;
    for part in 0..parts {
        let block = mask_block::<C>(prepared, nonce, part + 1);
        let at = 16 * part as usize;
        xor_into(&mut text[at..], &block);
    }
}
