// The numbers of the log, once. specs/Numbers.antt has the same numbers for the contracts.

// A stride is 1 to 8.
pub const STRIDE_LIMIT: u32 = 8;

// The tail has at most 64 versions.
pub const TAIL_LIMIT: usize = 64;
