// What any store is: its meaning, the laws of its make, the trait; and registers, of which stores are built.
#![tactic(auto)]

pub mod exact;
pub mod put_refusal;
pub mod queue;
pub mod range;
pub mod registers;
pub mod site_registers;
pub mod spot;
pub mod spots;
pub mod store;
