// Rows and versions, their reach, covering, and joining.
#![tactic(auto)]

pub mod join;
pub mod row;
pub mod valid;
pub mod version;
