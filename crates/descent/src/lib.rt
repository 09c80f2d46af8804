// The mathematics of links between types, and the interface through which anybody asks about descent.
#![tactic(auto)]

pub mod answerer;
pub mod facts;
pub mod gate;
pub mod link;
pub mod links;
pub mod nearest;
pub mod opposite;
pub mod refusal;
pub mod trim;
