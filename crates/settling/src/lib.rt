// Settling: order, chains, rows and kept entries of types and links, over tables of the host.
#![tactic(auto)]

pub mod graph;
mod lay;
pub mod outcome;
pub mod settle;
pub mod tables;
mod write;
