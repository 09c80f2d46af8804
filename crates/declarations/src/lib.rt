// The book: declared types by name over the host's tables, with trials and tickets, and the law over every history of calls.
#![tactic(auto)]

pub mod book;
pub mod call;
pub mod calls;
pub mod claims;
pub mod reading;
pub mod run;
pub mod ticket;
