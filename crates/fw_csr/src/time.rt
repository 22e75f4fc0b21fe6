/// How many cycles a second has (IEEE 1394-1995, cycle time).
pub const CYCLES_PER_SECOND: u64 = 8000;

/// How many cycles SPLIT_TIMEOUT gives a response: a tenth of a second, as at power on (IEEE 1394-1995, split timeout).
pub const SPLIT_TIMEOUT: u64 = 800;
