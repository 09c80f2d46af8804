// The rows of the index and the kept entries of the links.
#![tactic(auto)]

pub mod layout;
mod row;
mod slots;
pub mod theorems;
mod visit;
pub mod write;
