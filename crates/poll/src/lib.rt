// The poll layer: over any store, a store that shows a snapshot of the one below, copied once in each period.
#![tactic(auto)]

pub mod copying;
pub mod limits;
pub mod period;
pub mod poll;
pub mod snapshot;
pub mod theorems;
