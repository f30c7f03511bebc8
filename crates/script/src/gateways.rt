// The gateway that a script works on, over the cipher and the sealer that its settings name.
use crate::settings::{Cipher, Given, Sealing};
use cipher::aes::Aes128;
use cipher::bench::Bench;
use gateway::{Call, Gateway};
use rules::answers::{Answer, Refusal};
use sealer::sealers::{Knx, Reading};

#[derive(Drop)]
pub enum AnyGateway {
    Knx(Gateway<Knx<Aes128>>),
    Reading(Gateway<Reading<Aes128>>),
    BenchKnx(Gateway<Knx<Bench>>),
    BenchReading(Gateway<Reading<Bench>>),
}

impl AnyGateway {
    pub fn make(given: &Given) -> Result<AnyGateway, Refusal> {
        let settings = given.settings;
        let made = match (given.cipher, given.sealing) {
            (Cipher::Aes, Sealing::Knx) => AnyGateway::Knx(Gateway::make(settings)?),
            (Cipher::Aes, Sealing::Reading) => AnyGateway::Reading(Gateway::make(settings)?),
            (Cipher::Bench, Sealing::Knx) => AnyGateway::BenchKnx(Gateway::make(settings)?),
            (Cipher::Bench, Sealing::Reading) => AnyGateway::BenchReading(Gateway::make(settings)?),
        };
        Ok(made)
    }

    // Four arms alike, here and in `timer`, each at a type of its own: no function may make a `dyn` value and hand it out, and one that lent
    // it to a closure would need a trait and an impl beside these arms.
    pub fn carry_out(
        &mut self,
        call: Call,
        out: &mut [u8],
        work: &mut [u8],
    ) -> Result<Answer, Refusal> {
        match self {
            AnyGateway::Knx(gateway) => gateway.carry_out(call, out, work),
            AnyGateway::Reading(gateway) => gateway.carry_out(call, out, work),
            AnyGateway::BenchKnx(gateway) => gateway.carry_out(call, out, work),
            AnyGateway::BenchReading(gateway) => gateway.carry_out(call, out, work),
        }
    }

    pub fn timer(&self) -> u64 {
        match self {
            AnyGateway::Knx(gateway) => gateway.timer(),
            AnyGateway::Reading(gateway) => gateway.timer(),
            AnyGateway::BenchKnx(gateway) => gateway.timer(),
            AnyGateway::BenchReading(gateway) => gateway.timer(),
        }
    }
}
