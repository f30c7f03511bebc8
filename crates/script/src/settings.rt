// The settings that a script gives, up to the next making.
use crate::faults::Fault;
use cipher::Block;
use rules::settings::{Settings, User};
use std::str::FromStr;

#[derive(Clone, Copy, Default)]
pub enum Cipher {
    #[default]
    Aes,
    Bench,
}

impl FromStr for Cipher {
    type Err = Fault;

    fn from_str(word: &str) -> Result<Cipher, Fault> {
        match word {
            "aes" => Ok(Cipher::Aes),
            "bench" => Ok(Cipher::Bench),
            _ => Err(Fault::NoSuchCipher),
        }
    }
}

#[derive(Clone, Copy, Default)]
pub enum Sealing {
    #[default]
    Knx,
    Reading,
}

impl FromStr for Sealing {
    type Err = Fault;

    fn from_str(word: &str) -> Result<Sealing, Fault> {
        match word {
            "knx" => Ok(Sealing::Knx),
            "reading" => Ok(Sealing::Reading),
            _ => Err(Fault::NoSuchSealer),
        }
    }
}

#[derive(Clone, Copy)]
pub enum Setting {
    Cipher(Cipher),
    Sealing(Sealing),
    Serial([u8; 6]),
    Device(Block),
    Group(Block),
    // a user's place, that of user 1 being 0, and the hash of the password
    User(usize, Block),
    Start(u64),
    Latency(u32),
    Sync(u32),
}

// The default stands where a script gives nothing.
#[derive(Clone, Copy, Default)]
pub struct Given {
    pub cipher: Cipher,
    pub sealing: Sealing,
    pub settings: Settings,
}

impl Given {
    // Of two settings of a kind the later one counts.
    pub fn take(&mut self, setting: Setting) {
        let settings = &mut self.settings;
        match setting {
            Setting::Cipher(cipher) => self.cipher = cipher,
            Setting::Sealing(sealing) => self.sealing = sealing,
            Setting::Serial(serial) => settings.serial = serial,
            Setting::Device(device) => settings.device = device,
            Setting::Group(group) => settings.group = group,
            // a line with another user is not read, so there is a place
            Setting::User(place, hash) => {
                if let Some(user) = settings.users.get_mut(place) {
                    *user = User {
                        present: true,
                        hash,
                    };
                }
            }
            Setting::Start(start) => settings.start = start,
            Setting::Latency(latency) => settings.latency = latency,
            Setting::Sync(sync) => settings.sync = sync,
        }
    }
}
