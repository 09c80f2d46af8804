// The plain walk: an answerer that searches a list of links.
#![tactic(auto)]

pub mod marks;
pub mod pile;
pub mod search;
pub mod walk;
