// The gateway: making, the six calls and the group timer, over any sealer, in fixed tables and lent buffers; and whole runs, which
// need a heap for their events.
#![tactic(auto)]

mod calls;
mod gateway;
mod runs;

pub use gateway::Gateway;
pub use runs::{Call, Event, Stopped, run};
