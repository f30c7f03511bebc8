use frames::reading::{Frame, read};
use frames::stamps::Stamp;
use octets::runs::put;
use published::knx;
use std::alloc::{AllocError, Global};
use std::test::Fail;

// The number of the refusal, or none where the octets are read.
fn refusal(octets: &[u8]) -> Option<u8> {
    read(octets).err().map(|why| why.refusal())
}

// Octets that state their length: 06 10 09, the kind, the length, then 08 01 and zeros.
fn stating(heap: Global, kind: u8, length: u16) -> Result<Vec<u8>, AllocError> {
    let [high, low] = length.to_be_bytes();
    let mut frame = vec![in heap; 0x06, 0x10, 0x09, kind, high, low, 0x08, 0x01]?;
    frame.resize(length as usize, 0)?;
    Ok(frame)
}

fn expected(kind: u8, length: u16) -> Option<u8> {
    if length < 6 || length > 512 {
        return Some(2);
    }
    match kind {
        0x50 if length >= 44 => None,
        0x51 if length == 46 => None,
        0x55 if length == 36 => None,
        0x50 | 0x51 | 0x55 => Some(4),
        _ => Some(3),
    }
}

#[test]
fn every_length(rt: HostRuntime) -> Result<(), Fail> {
    for kind in 0x4f..0x57 {
        for length in 0..514 {
            let octets = stating(rt.alloc(), kind, length)?;
            assert!(rt; refusal(octets.as_slice()) == expected(kind, length));
        }
    }
    Ok(())
}

// The session request of the published session.
fn request() -> [u8; 46] {
    let mut frame = [0; 46];
    put(&mut frame, 0, b"\x06\x10\x09\x51\x00\x2e\x08\x01");
    put(&mut frame, 14, knx::X);
    frame
}

#[test]
fn one_octet_of_a_request(rt: HostRuntime) {
    let table = [
        // the header: its six octets, in which a changed kind is another kind
        (0, 0x05, Some(2)),
        (1, 0x11, Some(2)),
        (2, 0x08, Some(3)),
        (3, 0x52, Some(3)),
        (3, 0x50, None),
        (4, 0x01, Some(2)),
        (5, 0x2d, Some(2)),
        (5, 0x2f, Some(2)),
        // the two octets after it
        (6, 0x07, Some(4)),
        (6, 0x01, Some(4)),
        (7, 0x00, Some(4)),
        (7, 0x02, None),
        (7, 0x03, Some(4)),
        // the six that are not read
        (8, 0xff, None),
        (13, 0xff, None),
    ];
    for (at, to, expected) in table {
        let mut octets = request();
        if let Some(octet) = octets.get_mut(at) {
            *octet = to;
        }
        assert!(rt; refusal(&octets) == expected);
    }
}

#[test]
fn published_request(rt: HostRuntime) -> Result<(), Fail> {
    let request = request();
    let Ok(Frame::Request { x }) = read(&request) else {
        return Err(Fail::new("no session request"));
    };
    assert!(rt; *x == *knx::X);
    Ok(())
}

#[test]
fn published_wrapper(rt: HostRuntime) -> Result<(), Fail> {
    let Ok(Frame::Wrapper(wrapper)) = read(knx::WRAPPER) else {
        return Err(Fail::new("no secure wrapper"));
    };
    let stamp = Stamp {
        number: 0,
        serial: 0x00fa_1234_5678,
        tag: 0xaffe,
    };
    assert!(rt; wrapper.session == 1 && wrapper.stamp == stamp);
    assert!(rt;
        *wrapper.associated == *knx::WRAPPER_START && *wrapper.nonce == *knx::WRAPPER_NONCE
    );
    assert!(rt;
        wrapper.ciphertext == knx::WRAPPER_CIPHERTEXT.as_slice()
            && *wrapper.mac == *knx::WRAPPER_MAC
    );
    Ok(())
}

#[test]
fn parts_of_a_notice(rt: HostRuntime) -> Result<(), Fail> {
    let frame =
        b"\x06\x10\x09\x55\x00\x24\x01\x02\x03\x04\x05\x06\x11\x12\x13\x14\x15\x16\x21\x22ABCDEFGHIJKLMNOP";
    let Ok(Frame::Notice(notice)) = read(frame) else {
        return Err(Fail::new("no timer notify"));
    };
    let stamp = Stamp {
        number: 0x0102_0304_0506,
        serial: 0x1112_1314_1516,
        tag: 0x2122,
    };
    assert!(rt; notice.stamp == stamp);
    assert!(rt;
        notice.associated.as_slice() == &frame[..6]
            && notice.nonce.as_slice() == &frame[6..20]
            && *notice.mac == *b"ABCDEFGHIJKLMNOP"
    );
    Ok(())
}
