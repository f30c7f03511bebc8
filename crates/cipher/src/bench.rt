// The bench cipher: key XOR block. It hides nothing; it lets a person check frames by hand.
ghost use Rattle.cipher.specs.Width.{bench_wide};
ghost use Rattle.octets.specs.Runs.{xor};

use crate::{Block, BlockCipher};
use octets::runs::xor_into;

pub struct Bench;

impl BlockCipher for Bench {
    type Prepared = Block;

    ghost enciphered = { λ key block. xor block key };

    ghost wide = { bench_wide };

    ghost does = { λ key block. xor block key };

    fn prepare(key: &Block) -> Block {
        *key
    }

    fn encipher(prepared: &Block, block: &mut Block) {
        xor_into(block, prepared);
    }
}
