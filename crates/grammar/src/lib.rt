// Lines of a declaration text: their grammar, what they declare, and where they go wrong.
#![tactic(auto)]

mod bases;
mod bytes;
pub mod claims;
mod cursor;
pub mod declaration;
pub mod fault;
pub mod line;
mod name;
