// The gateway's fields, and the steps of the rules carried out on them.
#![tactic(auto)]

mod acts;
mod arrivals;
mod calls;
mod groups;
mod requests;
mod sealed;
mod sessions;
pub mod state;
mod statuses;
mod times;
mod wipe;
mod wrappers;
