// How late a frame of the group may be.
ghost use Rattle.rules.specs.Limits.{largest_latency};
ghost use Rattle.std.specs.Prelude.{◌≤◌};

// In milliseconds, with defaults filled in.
#[derive(Clone, Copy)]
pub struct Tolerances {
    // a frame that is later than this is not in time
    pub latency: u32,
    // a frame that is no later than this is in step with the timer
    pub sync: u32,
    // and so the times that are reckoned from it fit their type
    pub ghost small: { sync ≤ largest_latency },
}
