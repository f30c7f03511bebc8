// What a line says: a setting, a call, or one of the words beside them.
use crate::faults::Fault;
use crate::settings::Setting;
use crate::words::Words;
use gateway::Call;
use std::alloc::Global;

// The longest that a buffer can be made.
const LONGEST_BUFFER: u32 = 65_536;

#[derive(Clone, Copy)]
pub enum Item<'a> {
    Setting(Setting),
    Make,
    Call(Call<'a>),
    Timer,
    Buffers { output: usize, work: usize },
    Book,
}

// The octets that a call lends; a call has two runs of them at most.
#[derive(Drop)]
pub struct Octets {
    first: Vec<u8>,
    second: Vec<u8>,
}

impl Octets {
    pub fn none(heap: Global) -> Octets {
        Octets {
            first: Vec::new(heap),
            second: Vec::new(heap),
        }
    }
}

// What a line says, or nothing where it has no word.
pub fn read<'a>(line: &str, octets: &'a mut Octets) -> Result<Option<Item<'a>>, Fault> {
    let mut words = Words::of(line);
    let Some(name) = words.first() else {
        return Ok(None);
    };
    let item = read_item(name, &mut words, octets)?;
    words.end()?;
    Ok(Some(item))
}

fn read_item<'a>(name: &str, words: &mut Words, octets: &'a mut Octets) -> Result<Item<'a>, Fault> {
    let Octets { first, second } = octets;
    let item = match name {
        "make" => Item::Make,
        "timer" => Item::Timer,
        "book" => Item::Book,
        "buffers" => read_buffers(words)?,
        "arrive" => Item::Call(Call::Arrive {
            frame: words.octets("frame", first)?,
            offer: words.octets("offer", second)?,
            lot: words.number("lot", u32::MAX)?,
        }),
        "pass" => Item::Call(Call::Pass {
            milliseconds: words.number("number of milliseconds", u32::MAX)?,
        }),
        "due" => Item::Call(Call::Due {
            lot: words.number("lot", u32::MAX)?,
        }),
        "send" => Item::Call(Call::Send {
            session: words.session()?,
            telegram: words.octets("telegram", first)?,
        }),
        "announce" => Item::Call(Call::Announce {
            telegram: words.octets("telegram", first)?,
            lot: words.number("lot", u32::MAX)?,
        }),
        "hangup" => Item::Call(Call::HangUp {
            session: words.session()?,
        }),
        _ => Item::Setting(read_setting(name, words, first)?),
    };
    Ok(item)
}

fn read_buffers<'a>(words: &mut Words) -> Result<Item<'a>, Fault> {
    let output = words.number("output", LONGEST_BUFFER)? as usize;
    let work = words.number("work area", LONGEST_BUFFER)? as usize;
    Ok(Item::Buffers { output, work })
}

fn read_setting(name: &str, words: &mut Words, octets: &mut Vec<u8>) -> Result<Setting, Fault> {
    let setting = match name {
        "cipher" => Setting::Cipher(words.word("cipher")?.parse()?),
        "sealer" => Setting::Sealing(words.word("sealer")?.parse()?),
        "serial" => Setting::Serial(words.array("serial", octets)?),
        "device-code" => Setting::Device(words.array("device code", octets)?),
        "group-key" => Setting::Group(words.array("group key", octets)?),
        "user" => read_user(words, octets)?,
        "start" => Setting::Start(words.number("start", u64::MAX)?),
        "tolerance" => Setting::Latency(words.number("latency tolerance", u32::MAX)?),
        "sync" => Setting::Sync(words.number("sync tolerance", u32::MAX)?),
        _ => return Err(Fault::UnknownWord),
    };
    Ok(setting)
}

fn read_user(words: &mut Words, octets: &mut Vec<u8>) -> Result<Setting, Fault> {
    let user = words.number("user", u64::MAX)?;
    if user < 1 || user > 8 {
        return Err(Fault::NoSuchUser);
    }
    let hash = words.array("password hash", octets)?;
    Ok(Setting::User(user as usize - 1, hash))
}
