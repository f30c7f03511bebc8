use frames::telegrams::{Telegram, authenticate, classify};
use published::knx;
use std::test::Fail;

#[test]
fn kinds(rt: HostRuntime) {
    assert!(rt; classify(knx::AUTHENTICATE) == Telegram::Authenticate);
    assert!(rt; classify(b"\x06\x10\x09\x53") == Telegram::Authenticate);
    assert!(rt; classify(b"\x06\x10\x09") == Telegram::Other);
    assert!(rt; classify(b"\x06\x10\x09\x54\x00\x08\x05\x00") == Telegram::Status(5));
    assert!(rt; classify(b"\x06\x10\x09\x54\x00\x08\x05\xff") == Telegram::Status(5));
    assert!(rt; classify(b"\x06\x10\x09\x54\x00\x09\x05\x00") == Telegram::Other);
    assert!(rt; classify(b"\x06\x10\x09\x54\x00\x09\x05\x00\x00") == Telegram::Other);
    assert!(rt; classify(b"\x06\x10\x05\x30\x00\x06") == Telegram::Good(5));
    assert!(rt; classify(b"\x06\x10\x03\x30\x00\x07\x00") == Telegram::Good(3));
    assert!(rt; classify(b"\x06\x10\x05\x30\x00\x07") == Telegram::Other);
    assert!(rt; classify(b"\x06\x11\x05\x30\x00\x06") == Telegram::Other);
    assert!(rt; classify(b"\x06\x10\x09\x30\x00\x06") == Telegram::Other);
}

#[test]
fn every_length(rt: HostRuntime) -> Result<(), Fail> {
    for length in 0u16..477 {
        let [high, low] = length.to_be_bytes();
        let mut octets = vec![in rt.alloc(); 0x06, 0x10, 0x05, 0x30, high, low]?;
        octets.resize(length as usize, 0)?;
        let good = classify(octets.as_slice()) == Telegram::Good(5);
        assert!(rt; good == (length >= 6 && length <= 474));
    }
    Ok(())
}

#[test]
fn sign_in(rt: HostRuntime) -> Result<(), Fail> {
    let sign = authenticate(knx::AUTHENTICATE).ok_or("no sign-in")?;
    assert!(rt; sign.user == 1 && *sign.mac == *knx::AUTHENTICATE_MAC);
    // by place, as the place of the damage is what is tried
    for at in 0..7 {
        let mut octets = *knx::AUTHENTICATE;
        octets[at] ^= 0x80;
        assert!(rt; authenticate(&octets).is_none());
    }
    assert!(rt; authenticate(&knx::AUTHENTICATE[..23]).is_none());
    Ok(())
}
