// The smallest store: one register for each key, the same for every site, without delay.
#![tactic(auto)]

pub mod serve;
pub mod smallest;
