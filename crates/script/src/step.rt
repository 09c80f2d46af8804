// The steps of a script that print a line.
use crate::method::Method;
use declarations::call::Stub;

/// A step that makes no call.
#[derive(Clone, Copy)]
pub enum Remark<'t> {
    /// No line of a script begins with this word, or it goes on otherwise.
    Unknown(&'t [u8]),
    /// The tables cannot be given here, or not so.
    Tables,
    /// No ticket is held that could be kept.
    Keep,
    /// No ticket is held that could be withdrawn.
    Withdraw,
}

/// A step that prints a line.
#[derive(Drop)]
pub enum Step<'t> {
    Load { shipped: Vec<u8>, own: Vec<u8> },
    Open,
    Keep(Stub),
    Withdraw(Stub),
    Settle { method: Method, types: u32 },
    Ask { first: &'t [u8], second: &'t [u8] },
    Remark(Remark<'t>),
}
