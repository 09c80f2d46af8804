// The numbered book: types and links by number, over tables that the host makes.
#![tactic(auto)]

pub mod book;
pub mod calls;
pub mod chain_index;
pub mod claims;
pub mod entered;
pub mod entering;
pub mod indexing;
pub mod refusal;
pub mod settled;
pub mod tables;
