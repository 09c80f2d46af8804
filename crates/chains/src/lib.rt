// Decomposers: what lays ranked types out in chains.
#![tactic(auto)]

pub mod chain_order;
pub mod decomposer;
pub mod falling;
pub mod joining;
pub mod ranked;
pub mod theorems;
