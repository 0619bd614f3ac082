// Every number of replicas, once. specs/Numbers.antt has the same numbers for the contracts.

// A line time is 0 to 16 ticks.
pub const LINE_LIMIT: u32 = 16;

// There are six pairs of sites.
pub const PAIRS: usize = 6;

// At most 96 deliveries are pending.
pub const DELIVERY_LIMIT: usize = 96;

// A put is barred when fewer places than these are free.
pub const PLACES_WANTED: usize = 3;
