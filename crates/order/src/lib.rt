// The order of the types below a number, and the loop where there is one.
#![tactic(auto)]

pub mod looping;
pub mod ranking;
pub mod theorems;
