// Values from the outside, as their publishers print them; nothing here was made by our code.
#![tactic(auto)]

pub mod fips;
pub mod knx;
