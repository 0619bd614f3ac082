// What holds of the stores that stand one over another.
#![tactic(auto)]

pub mod theorems;
