// Texts: their lines, what is refused of a pair of them and where, and the line of a fault.
#![tactic(auto)]

pub mod claims;
pub mod refusal;
pub mod splitting;
pub mod text;
