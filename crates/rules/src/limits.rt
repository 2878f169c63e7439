//! The numbers of the rules.

pub const ROUND_LOT: u32 = 100;

/// In microseconds.
pub const PROTECTION_PERIOD: u64 = 2_000;

/// In microseconds since midnight.
pub const LAST_MOMENT: u64 = 86_399_999_999;

pub const MOST_RESTING: usize = 64;

pub const MOST_ENTRIES: u32 = 1_000_000;

pub const FEWEST_LEFT: u32 = 1;
