// Frames under the bench cipher, worked by hand. It XORs a block with the key, so in a MAC the nonce cancels, and the key cancels
// too where the number of blocks is odd: what is left is the XOR of all blocks but the first, of the telegram's length and FF00,
// and of the key where the number of blocks is even. A ciphertext is telegram XOR nonce, FF, 01 XOR key.
// Number, serial and tag stand apart, and not in the library's stamp: nothing of the library makes these frames but its writing of octets.
use crate::site::{GOOD, LONGEST, OWN, key_of};
use octets::numbers::{Number, put_number};
use octets::runs::{put, xor_into};
use sealer::Nonce;

// Number or time, serial, tag.
fn nonce(number: u64, serial: u64, tag: u16) -> Nonce {
    let mut nonce = [0; 14];
    put_number(&mut nonce, 0, number);
    put_number(&mut nonce, 6, serial);
    put_number(&mut nonce, 12, tag);
    nonce
}

// The session response: four blocks. X XOR Y are 32 octets 01, which cancel; the key is sixteen 22.
pub fn response(session: u16) -> [u8; 56] {
    let mut mac = *b"\x22\x0a\x24\x32\x2b\x70\x22\x1a\x22\x22\x22\x22\x22\x22\xdd\x22";
    xor_into(&mut mac[8..], &session.octets());
    let mut frame = [0; 56];
    put(&mut frame, 0, b"\x06\x10\x09\x52\x00\x38");
    put_number(&mut frame, 6, session);
    put(&mut frame, 8, &[0x0b; 32]);
    put(&mut frame, 40, &mac);
    frame
}

// A status in a wrapper of our own: three blocks, the last with the telegram's last two octets.
pub fn status(session: u16, number: u64, code: u8) -> [u8; 46] {
    let mut text = [0x06, 0x10, 0x09, 0x54, 0x00, 0x08, code, 0xfa];
    xor_into(&mut text, &number.octets());
    xor_into(&mut text, &key_of(session));
    let mut mac = *b"\x00\x08\x06\x10\x09\x50\x00\x2e\x00\x00\x06\x10\x09\x54\xff\x00";
    mac[0] = code;
    put_number(&mut mac, 8, session);
    let mut frame = [0; 46];
    put(&mut frame, 0, b"\x06\x10\x09\x50\x00\x2e");
    put_number(&mut frame, 6, session);
    put(&mut frame, 8, &nonce(number, OWN, 0));
    put(&mut frame, 22, &text);
    put(&mut frame, 30, &mac);
    frame
}

// The good telegram in a wrapper: two blocks.
fn wrapper(session: u16, number: u64, serial: u64, tag: u16) -> [u8; 44] {
    let mut text = *GOOD;
    xor_into(&mut text, &number.octets());
    xor_into(&mut text, &key_of(session));
    let mut mac = *b"\x00\x08\x06\x10\x09\x50\x00\x2c\x00\x00\x06\x10\x05\x30\xff\x00";
    put_number(&mut mac, 8, session);
    xor_into(&mut mac, &key_of(session));
    let mut frame = [0; 44];
    put(&mut frame, 0, b"\x06\x10\x09\x50\x00\x2c");
    put_number(&mut frame, 6, session);
    put(&mut frame, 8, &nonce(number, serial, tag));
    put(&mut frame, 22, &text);
    put(&mut frame, 28, &mac);
    frame
}

// What send puts out.
pub fn sent(session: u16, number: u64) -> [u8; 44] {
    wrapper(session, number, OWN, 0)
}

// The same of the longest telegram under the reading sealer, which leaves a telegram readable. The MAC is over 32 blocks.
pub fn longest(number: u64) -> [u8; 512] {
    let mut frame = [0; 512];
    put(&mut frame, 0, b"\x06\x10\x09\x50\x02\x00\x00\x01");
    put(&mut frame, 8, &nonce(number, OWN, 0));
    put(&mut frame, 22, LONGEST);
    put(
        &mut frame,
        496,
        b"\x11\x19\x17\x01\x63\x3d\x6e\x6f\x6e\x70\x6c\x7d\x69\x5f\x91\x71",
    );
    frame
}

// The good telegram in a wrapper of the group.
pub fn grouped(time: u64, serial: u64, tag: u16) -> [u8; 44] {
    wrapper(0, time, serial, tag)
}

// A timer notify: two blocks, and nothing of time, serial and tag in the MAC; the key is sixteen 33.
pub fn notice(time: u64, serial: u64, tag: u16) -> [u8; 36] {
    let mut frame = [0; 36];
    put(&mut frame, 0, b"\x06\x10\x09\x55\x00\x24");
    put(&mut frame, 6, &nonce(time, serial, tag));
    put(
        &mut frame,
        20,
        b"\x33\x35\x35\x23\x3a\x66\x33\x17\x33\x33\x33\x33\x33\x33\xcc\x33",
    );
    frame
}
