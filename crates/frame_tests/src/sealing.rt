use cipher::aes::Aes128;
use frames::sealing::{mac_of_authenticate, seal_notice, seal_response, seal_wrapper};
use frames::stamps::Stamp;
use frames::writing::{refuse_session, status_telegram};
use published::knx;
use sealer::sealers::Knx;

#[test]
fn published_exchange(rt: HostRuntime) {
    let mut out = [0xee; 57];
    let sealed = seal_response::<Knx<Aes128>>(knx::DEVICE_CODE, 1, knx::X, knx::Y, &mut out);
    assert!(rt; sealed == Some(56) && out.starts_with(knx::RESPONSE) && out[56] == 0xee);
    let mac = mac_of_authenticate::<Knx<Aes128>>(knx::PASSWORD_HASH, 1, knx::X, knx::Y);
    assert!(rt; mac == *knx::AUTHENTICATE_MAC);
}

#[test]
fn published_wrapper(rt: HostRuntime) {
    let mut out = [0xee; 64];
    let sealed = seal_wrapper::<Knx<Aes128>>(
        knx::SESSION_KEY,
        1,
        Stamp {
            number: 0,
            serial: 0x00fa_1234_5678,
            tag: 0xaffe,
        },
        knx::AUTHENTICATE,
        &mut out,
    );
    assert!(rt;
        sealed == Some(62) && out.starts_with(knx::WRAPPER) && out[62] == 0xee && out[63] == 0xee
    );
}

// The status that answers the sign-in, from the server's serial.
#[test]
fn published_status(rt: HostRuntime) {
    let mut out = [0; 46];
    let sealed = seal_wrapper::<Knx<Aes128>>(
        knx::SESSION_KEY,
        1,
        Stamp {
            number: 0,
            serial: 0x00fa_aaaa_aaaa,
            tag: 0xaffe,
        },
        &status_telegram(0),
        &mut out,
    );
    assert!(rt; sealed == Some(46) && out == *knx::STATUS);
}

#[test]
fn no_room(rt: HostRuntime) {
    let key = knx::SESSION_KEY;
    let stamp = Stamp {
        number: 0,
        serial: 0,
        tag: 0,
    };
    let mut out = [0xee; 61];
    let sealed = seal_wrapper::<Knx<Aes128>>(key, 1, stamp, knx::AUTHENTICATE, &mut out);
    assert!(rt; sealed == None && out == [0xee; 61]);
    let mut large = [0xee; 600];
    let sealed = seal_wrapper::<Knx<Aes128>>(key, 1, stamp, &[0; 475], &mut large);
    assert!(rt; sealed == None && large[0] == 0xee);
    assert!(rt; seal_notice::<Knx<Aes128>>(key, stamp, &mut [0xee; 35]) == None);
    assert!(rt; refuse_session(&mut [0xee; 7]) == None);
    assert!(rt;
        refuse_session(&mut out) == Some(8) && out.starts_with(b"\x06\x10\x09\x52\x00\x08\x00\x00")
    );
    assert!(rt; status_telegram(5) == *b"\x06\x10\x09\x54\x00\x08\x05\x00");
}
