// The number of the poll layer. specs/Numbers.antt has the same number for the contracts.

// A period is 1 to 8 ticks.
pub const PERIOD_LIMIT: u32 = 8;
