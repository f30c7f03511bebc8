// What a gateway is made from.
ghost use Rattle.std.specs.Prelude.{◌≡◌, ◌^◌, ◌<◌, ◌≤◌, true, length};
ghost use Rattle.octets.specs.Laws.{Octets};
ghost use Rattle.octets.specs.Numbers.{value};
ghost use Rattle.rules.specs.Law.{ProperSettings};
ghost use Rattle.rules.specs.Limits.{largest_latency};
ghost use Rattle.rules.specs.Making.{acceptable, hash_of, latency, own_serial, sync};

use crate::limits::NUMBERS;
use crate::tolerances::Tolerances;
use cipher::Block;
use octets::numbers::Number;

const DEFAULT_LATENCY: u32 = 1_000;

const LARGEST_LATENCY: u32 = 10_000;

// A user who may sign in, by the hash of the password; a user who is not present has no hash.
// A flag and not an Option: the form of settings is given, and all eight users lie in them.
#[derive(Clone, Copy, Default)]
pub struct User {
    pub present: bool,
    pub hash: Block,
}

#[derive(Clone, Copy, Default)]
pub struct Settings {
    pub serial: [u8; 6],
    // the device authentication code
    pub device: Block,
    // the key of the group
    pub group: Block,
    // users 1 to 8
    pub users: [User; 8],
    // the group timer's first value
    pub start: u64,
    // latency tolerance and sync tolerance in milliseconds; 0 stands for a default
    pub latency: u32,
    pub sync: u32,
}

fn serial_of(octets: &[u8; 6]) -> u64
    ensures octets { Octets octets.now }
    ensures long { length octets.now ≡ 6 }
    ensures value { result ≡ value octets.now }
    ensures below { result < 2 ^ 48 }
{
    u64::of(octets)
}

// There is nothing to compute: the type has the length.
fn is_block(octets: &Block)
    ensures { length octets.now ≡ 16 }
{}

impl Settings {
    // What the types of the fields ensure.
    pub fn are_proper(&self)
        ensures { ProperSettings self.now }
    {
        serial_of(&self.serial);
        is_block(&self.device);
        is_block(&self.group);
    }

    // The latency tolerance, with its default filled in.
    pub fn latency(&self) -> u32
        ensures { result ≡ latency self.now }
    {
        match self.latency {
            0 => DEFAULT_LATENCY,
            latency => latency,
        }
    }

    // The sync tolerance, with its default filled in.
    pub fn sync(&self) -> u32
        ensures { result ≡ sync self.now }
    {
        match self.sync {
            0 => (self.latency() / 10).max(1),
            sync => sync,
        }
    }

    // Both, as the clock takes them.
    pub fn tolerances(&self) -> Tolerances
        requires { acceptable self.now ≡ true }
        ensures latency { result.latency ≡ latency self.now }
        ensures sync { result.sync ≡ sync self.now }
    {
        Tolerances {
            latency: self.latency(),
            sync: self.sync(),
        }
    }

    pub fn own_serial(&self) -> u64
        ensures value { result ≡ own_serial self.now }
        ensures below { result < 2 ^ 48 }
    {
        serial_of(&self.serial)
    }

    // Whether a gateway can be made.
    pub fn acceptable(&self) -> bool
        ensures { result ≡ acceptable self.now }
    {
        self.sync() <= self.latency() && self.latency() <= LARGEST_LATENCY && self.start < NUMBERS
    }

    // The hash of a user's password, if the user, 1 to 8, has one.
    pub fn hash_of(&self, user: u8) -> Option<Block>
        ensures { result ≡ hash_of self.now user }
    {
        let user = self.users.get((user as usize).checked_sub(1)?)?;
        user.present.then_some(user.hash)
    }
}
