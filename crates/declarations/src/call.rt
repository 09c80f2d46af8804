// Calls on a book and their answers, as values.
use crate::ticket::Unopened;
use register::refusal::{NotAsked, Refusal};
pub use register::tables::TableSizes;
use settling::outcome::{Settled, Unsettled};

/// The two numbers of a ticket: the book's and the trial's.
#[derive(Clone, Copy, Debug, PartialEq, Eq)]
pub struct Stub {
    pub book: u32,
    pub trial: u32,
}

/// A call on a book. A ticket is named by its two numbers, so that it may also be one of another book or a spent one; a settle
/// has a decomposer, and so many entries in its loop and scratch tables.
#[derive(Debug, Drop, PartialEq, Eq)]
pub enum Call<'t, D> {
    Load {
        shipped: &'t [u8],
        own: &'t [u8],
    },
    Open,
    Keep(Stub),
    Withdraw(Stub),
    Settle {
        decomposer: D,
        table: usize,
        scratch: usize,
    },
    Ask {
        first: &'t [u8],
        second: &'t [u8],
    },
}

/// What a call answered. A ticket that was handed out or came back is told by its two numbers.
#[derive(Clone, Copy, Debug, PartialEq, Eq)]
pub enum Answer {
    Load(Result<(), Refusal>),
    Open(Result<Stub, Unopened>),
    Keep(Result<(), Stub>),
    Withdraw(Result<(), Stub>),
    Settle(Result<Settled, Unsettled>),
    Ask(Result<bool, NotAsked>),
}
