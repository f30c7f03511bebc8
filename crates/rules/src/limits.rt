// Limits that several crates share; specs/Limits.antt has the same.

// Numbers of wrappers and group times lie below this.
pub const NUMBERS: u64 = 1 << 48;

// The timer's largest value.
pub const LAST_TIME: u64 = NUMBERS - 1;

// Wrappers of this session are of the group, and deliveries from it are to this user. Numbers and no enum: frames and the book have them
// among the numbers of all sessions and users.
pub const GROUP: u16 = 0;

pub const GROUP_USER: u8 = 0;
