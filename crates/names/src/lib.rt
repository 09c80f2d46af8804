// The names of a book's types, over a byte pool and a name table that the host makes.
#![tactic(auto)]

pub mod entering;
pub mod facts;
pub mod finding;
pub mod names;
pub mod refusal;
pub mod span;
pub mod tables;
pub mod taking_back;
