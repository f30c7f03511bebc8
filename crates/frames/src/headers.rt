// The octets that frames and telegrams begin with.
ghost use Rattle.std.specs.Prelude.{◌≡◌};
ghost use Rattle.frames.specs.Headers.{stated_kind};

use octets::numbers::Number;

// The kind, where the octets begin 06 10 and state their own length.
pub fn stated_kind(octets: &[u8]) -> Option<u16>
    ensures { result ≡ stated_kind octets.now }
{
    match octets {
        [0x06, 0x10, kind_high, kind_low, length_high, length_low, ..]
            if u16::of(&[*length_high, *length_low]) as usize == octets.len() => {
            Some(u16::of(&[*kind_high, *kind_low]))
        }
        _ => None,
    }
}
