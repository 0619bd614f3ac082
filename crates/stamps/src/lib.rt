// Stamps, values, refusals and sets of keys: what every other crate counts and compares with.
#![tactic(auto)]

pub mod below;
pub mod keyset;
pub mod limits;
pub mod refusal;
pub mod site;
pub mod stamp;
pub mod value;
