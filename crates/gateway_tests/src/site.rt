// A site: settings, keys, and what its client sends.
use octets::numbers::put_number;
use octets::runs::put;
use published::knx;
use rules::settings::{Settings, User};
use std::alloc::{AllocError, Global};

pub const OWN: u64 = 0x00fa_0000_0001;

pub const CLIENT: u64 = 0x00fa_0000_0002;

// the last number, and the last time; written out, since a test takes no limit from the library
pub const LAST: u64 = 0xffff_ffff_ffff;

// a good telegram, and one of the management family
pub const GOOD: &[u8; 6] = b"\x06\x10\x05\x30\x00\x06";

pub const MANAGING: &[u8] = b"\x06\x10\x03\x10\x00\x06";

// the longest good telegram, and one that is too long
pub const LONGEST: &[u8; 474] = b"\x06\x10\x05\x30\x01\xda\
    abcdefghijklmnopqrstuvwxyzabcdefghijklmnopqrstuvwxyzabcdefghijklmnopqrstuvwxyzabcdefghijklmnopqrstuvwxyz\
    abcdefghijklmnopqrstuvwxyzabcdefghijklmnopqrstuvwxyzabcdefghijklmnopqrstuvwxyzabcdefghijklmnopqrstuvwxyz\
    abcdefghijklmnopqrstuvwxyzabcdefghijklmnopqrstuvwxyzabcdefghijklmnopqrstuvwxyzabcdefghijklmnopqrstuvwxyz\
    abcdefghijklmnopqrstuvwxyzabcdefghijklmnopqrstuvwxyzabcdefghijklmnopqrstuvwxyzabcdefghijklmnopqrstuvwxyz\
    abcdefghijklmnopqrstuvwxyzabcdefghijklmnopqrstuvwxyz";

pub const TOO_LONG: &[u8; 475] = b"\x06\x10\x05\x30\x01\xdb\
    abcdefghijklmnopqrstuvwxyzabcdefghijklmnopqrstuvwxyzabcdefghijklmnopqrstuvwxyzabcdefghijklmnopqrstuvwxyz\
    abcdefghijklmnopqrstuvwxyzabcdefghijklmnopqrstuvwxyzabcdefghijklmnopqrstuvwxyzabcdefghijklmnopqrstuvwxyz\
    abcdefghijklmnopqrstuvwxyzabcdefghijklmnopqrstuvwxyzabcdefghijklmnopqrstuvwxyzabcdefghijklmnopqrstuvwxyz\
    abcdefghijklmnopqrstuvwxyzabcdefghijklmnopqrstuvwxyzabcdefghijklmnopqrstuvwxyzabcdefghijklmnopqrstuvwxyz\
    abcdefghijklmnopqrstuvwxyzabcdefghijklmnopqrstuvwxyza";

// Users 1 and 2 sign in. Their MAC by hand is that of the session response in by_hand, with 09 53 00 18 and the user in its
// place, under the hash.
pub const SIGN_IN_1: &[u8] = b"\
    \x06\x10\x09\x53\x00\x18\x00\x01\x44\x6c\x42\x54\x4d\x17\x44\x5c\
    \x44\x45\x44\x44\x44\x44\xbb\x44";

pub const SIGN_IN_2: &[u8] = b"\
    \x06\x10\x09\x53\x00\x18\x00\x02\x55\x7d\x53\x45\x5c\x06\x55\x4d\
    \x55\x57\x55\x55\x55\x55\xaa\x55";

// statuses that a client sends
pub const STATUS_0: &[u8] = b"\x06\x10\x09\x54\x00\x08\x00\x00";

pub const CLOSE: &[u8] = b"\x06\x10\x09\x54\x00\x08\x05\x00";

// A session request: X is 32 octets 0A; Y of the offers is 32 octets 0B.
pub const REQUEST: &[u8; 46] = b"\
    \x06\x10\x09\x51\x00\x2e\x08\x01\x00\x00\x00\x00\x00\x00\
    \x0a\x0a\x0a\x0a\x0a\x0a\x0a\x0a\x0a\x0a\x0a\x0a\x0a\x0a\x0a\x0a\
    \x0a\x0a\x0a\x0a\x0a\x0a\x0a\x0a\x0a\x0a\x0a\x0a\x0a\x0a\x0a\x0a";

fn user(octet: u8) -> User {
    User {
        present: octet != 0,
        hash: [octet; 16],
    }
}

// Users 1 and 2 have a hash.
pub fn site(start: u64, latency: u32, sync: u32) -> Settings {
    let mut users = [user(0); 8];
    users[0] = user(0x44);
    users[1] = user(0x55);
    Settings {
        serial: *b"\x00\xfa\x00\x00\x00\x01",
        device: [0x22; 16],
        group: [0x33; 16],
        users,
        start,
        latency,
        sync,
    }
}

// The key of session n is sixteen octets 10 + n; session 0 is the group.
pub fn key_of(session: u16) -> [u8; 16] {
    match session.to_be_bytes() {
        [0, 0] => [0x33; 16],
        [_, low] => [low.wrapping_add(0x10); 16],
    }
}

// Octets that state their length: a kind, then zeros. Other tests and programs make such octets, requests and offers too, each with what
// it needs behind the header and in a few lines: a crate for those would be no plainer.
pub fn stating(heap: Global, kind: u16, size: u16) -> Result<Vec<u8>, AllocError> {
    let mut header = *b"\x06\x10\x00\x00\x00\x00";
    put_number(&mut header, 2, kind);
    put_number(&mut header, 4, size);
    let mut frame = header.to_vec(heap)?;
    frame.resize(size as usize, 0)?;
    Ok(frame)
}

fn offer_of(session: u16, y: &[u8; 32], key: &[u8; 16]) -> [u8; 50] {
    let mut offer = [0; 50];
    put_number(&mut offer, 0, session);
    put(&mut offer, 2, y);
    put(&mut offer, 34, key);
    offer
}

pub fn offer(session: u16) -> [u8; 50] {
    offer_of(session, &[0x0b; 32], &key_of(session))
}

pub fn published_request() -> [u8; 46] {
    let mut request = *REQUEST;
    put(&mut request, 14, knx::X);
    request
}

pub fn published_offer() -> [u8; 50] {
    offer_of(1, knx::Y, knx::SESSION_KEY)
}

// A site with the keys of the published session, and with the serial of its server.
pub fn published_site() -> Settings {
    let mut settings = site(0, 0, 0);
    settings.serial = *b"\x00\xfa\xaa\xaa\xaa\xaa";
    settings.device = *knx::DEVICE_CODE;
    settings.users[0].hash = *knx::PASSWORD_HASH;
    settings
}
