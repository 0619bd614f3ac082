// Replicas: a store kept as a register for each site and key, and deliveries on their way between sites.
#![tactic(auto)]

mod deliveries;
mod delivery;
pub mod limits;
pub mod line_times;
mod network;
pub mod replicas;
pub mod serve;
