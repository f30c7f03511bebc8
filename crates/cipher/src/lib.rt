// Block ciphers: the trait, AES-128 and the bench cipher.
#![tactic(auto)]

pub mod aes;
pub mod bench;

ghost use Rattle.std.specs.Prelude.{◌≡◌, ℕ, List};
ghost use Rattle.cipher.specs.Width.{Wide};

// Sixteen octets: a key, or a block.
pub type Block = [u8; 16];

// A block cipher. It has no state: its type says which cipher it is.
pub trait BlockCipher {
    // a key made ready for many blocks, in a form that is the cipher's own
    type Prepared: Drop;

    // the meaning: what a key makes of a block
    ghost enciphered: { List ℕ → List ℕ → List ℕ };

    // a law, whose value is its proof: sixteen octets make sixteen
    ghost wide: { Wide enciphered };

    // what a prepared key makes of a block
    ghost does: { Self.Prepared → List ℕ → List ℕ };

    fn prepare(key: &Block) -> Self::Prepared
        ensures { does result ≡ enciphered key.now };

    fn encipher(prepared: &Self::Prepared, block: &mut Block)
        ensures { block.new ≡ does prepared.now block.old };
}

// Enciphers one block under a key that is wanted only once.
pub fn encipher_once<C: BlockCipher>(key: &Block, block: &mut Block)
    ensures { block.new ≡ C.enciphered key.now block.old }
{
    C::encipher(&C::prepare(key), block);
}
