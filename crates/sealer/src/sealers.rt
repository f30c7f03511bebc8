// The KNX sealer and the reading sealer, over any block cipher.
ghost use Rattle.sealer.specs.Counter.{masked};
ghost use Rattle.sealer.specs.Mac.{mac_of};
ghost use Rattle.sealer.specs.Reversing.{masked_apart, masked_complete, masked_long, masked_sound, plain_complete, plain_sound};
ghost use Rattle.sealer.specs.Sealing.{confirmed};
ghost use Rattle.sealer.specs.Widths.{mac_wide};
ghost use Rattle.std.specs.Prelude.{refl};

use crate::counter::mask;
use crate::mac::{confirm, mac};
use crate::{Nonce, Sealer};
use cipher::{Block, BlockCipher};
use std::marker::PhantomData;

// The KNX sealer: the telegram in counter mode, under the CBC-MAC.
pub struct Knx<C> {
    cipher: PhantomData<C>,
}

impl<C: BlockCipher> Sealer for Knx<C> {
    ghost ciphertext = { λ k n a t. masked (C.BlockCipher.enciphered k) n t };

    ghost mac = { λ k n a t. mac_of (C.BlockCipher.enciphered k) n a t };

    ghost opened = { λ k n a c m. confirmed (mac_of (C.BlockCipher.enciphered k) n a (masked (C.BlockCipher.enciphered k) n c)) m (masked (C.BlockCipher.enciphered k) n c) };

    ghost apart = { λ k n a s t _ _ e. masked_apart (C.BlockCipher.enciphered k) n s t e };

    ghost long = { λ k n a t. masked_long (C.BlockCipher.enciphered k) n t };

    ghost wide = { λ k n a t e. mac_wide (C.BlockCipher.enciphered k) (λ b l. C.BlockCipher.wide k b e l) n a t };

    ghost sound = { λ k n a c m t e. masked_sound (C.BlockCipher.enciphered k) n (mac_of (C.BlockCipher.enciphered k) n a) c m t e };

    ghost complete = { λ k n a t. masked_complete (C.BlockCipher.enciphered k) n (mac_of (C.BlockCipher.enciphered k) n a) t };

    fn seal(key: &Block, nonce: &Nonce, associated: &[u8], text: &mut [u8]) -> Block {
        let prepared = C::prepare(key);
        let made = mac::<C>(&prepared, nonce, associated, text);
        mask::<C>(&prepared, nonce, text);
        made
    }

    fn open(key: &Block, nonce: &Nonce, associated: &[u8], text: &mut [u8], given: &Block) -> bool {
        let prepared = C::prepare(key);
        mask::<C>(&prepared, nonce, text);
        confirm::<C>(&prepared, nonce, associated, text, given)
    }
}

// The reading sealer, for the bench: the telegram itself, under the same MAC.
pub struct Reading<C> {
    cipher: PhantomData<C>,
}

impl<C: BlockCipher> Sealer for Reading<C> {
    ghost ciphertext = { λ k n a t. t };

    ghost mac = { λ k n a t. mac_of (C.BlockCipher.enciphered k) n a t };

    ghost opened = { λ k n a c m. confirmed (mac_of (C.BlockCipher.enciphered k) n a c) m c };

    ghost apart = { λ k n a s t _ _ e. e };

    ghost long = { λ k n a t. refl };

    ghost wide = { λ k n a t e. mac_wide (C.BlockCipher.enciphered k) (λ b l. C.BlockCipher.wide k b e l) n a t };

    ghost sound = { λ k n a c m t e. plain_sound (mac_of (C.BlockCipher.enciphered k) n a) c m t e };

    ghost complete = { λ k n a t. plain_complete (mac_of (C.BlockCipher.enciphered k) n a) t };

    fn seal(key: &Block, nonce: &Nonce, associated: &[u8], text: &mut [u8]) -> Block {
        mac::<C>(&C::prepare(key), nonce, associated, text)
    }

    fn open(key: &Block, nonce: &Nonce, associated: &[u8], text: &mut [u8], given: &Block) -> bool {
        confirm::<C>(&C::prepare(key), nonce, associated, text, given)
    }
}
