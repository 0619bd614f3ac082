// The causal cut of a card terminal: what it holds, which newer answers may enter it, and what a post adds.
#![tactic(auto)]

pub mod answers;
pub mod choose;
pub mod cut;
pub mod draft;
pub mod post;
pub mod table;
pub mod theorems;
