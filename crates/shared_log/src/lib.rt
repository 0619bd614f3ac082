// The log: a base register for each key, a tail of versions, and for each site how far it has read the tail.
#![tactic(auto)]

mod coming;
pub mod limits;
pub mod log;
mod readers;
pub mod serve;
pub mod strides;
