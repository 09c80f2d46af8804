// Scripts of calls on a book: reading them, and what is printed when they are replayed.
#![tactic(auto)]

pub mod calls;
pub mod line;
pub mod method;
pub mod numbers;
pub mod reading;
pub mod replay;
pub mod shown;
pub mod step;
pub mod tickets;
pub mod words;
