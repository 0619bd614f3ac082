// Every number of the rules, once. specs/Numbers.antt has the same numbers for the contracts.

// Keys are 0 to 31.
pub const KEYS: u32 = 32;

// A table or a row has one place for each key.
pub const PLACES: usize = KEYS as usize;

// Terminals are 0 to 7.
pub const TERMINALS: u32 = 8;

// A stamp is its counter times this factor, plus its terminal.
pub const FACTOR: u32 = TERMINALS;

// Sites are 0 to 3.
pub const SITES: u32 = 4;

// Counters are 1 to 1,000,000.
pub const COUNTER_LIMIT: u32 = 1_000_000;

// Amounts are 0 to 99,999,999 cents.
pub const AMOUNT_LIMIT: u32 = 99_999_999;

// A bar's depth is 0 to 255.
pub const DEPTH_LIMIT: u8 = 255;

// Replacing cards are 0 to 999,999.
pub const CARD_LIMIT: u32 = 999_999;
