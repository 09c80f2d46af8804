// Why a call on a numbered book is refused, with the data that the refusal returns.
ghost use Rattle.std.specs.Prelude.{◌≡◌};
ghost use Rattle.hierarchy.specs.Numbers.{number_of};

use std::fmt;

/// Why a call was refused.
#[derive(Clone, Copy, Debug, PartialEq, Eq)]
pub enum Refusal {
    /// There is no place for one more type.
    NoTypePlace,
    /// There is no place for one more link.
    NoLinkPlace,
    /// A number is not below the number of types.
    NotBelow { number: u16, types: u16 },
    /// Fewer types or links were entered than that.
    NotEntered,
}

/// The book is not settled.
#[derive(Clone, Copy, Debug, PartialEq, Eq)]
pub struct NotSettled;

impl Refusal {
    /// The number of the refusal.
    pub fn number(&self) -> u8
        ensures { result ≡ number_of self.now }
    {
        match *self {
            Refusal::NoTypePlace => 6,
            Refusal::NoLinkPlace => 8,
            Refusal::NotBelow { .. } | Refusal::NotEntered => 16,
        }
    }
}

impl NotSettled {
    /// The number of the refusal.
    pub fn number(&self) -> u8
        ensures { result ≡ 12 }
    {
        12
    }
}

impl fmt::Display for Refusal {
    fn fmt<W: fmt::Write>(&self, f: &mut fmt::Formatter<W>) -> fmt::Result {
        match *self {
            Refusal::NoTypePlace => f.write_str("refusal 6: there is no place for one more type"),
            Refusal::NoLinkPlace => f.write_str("refusal 8: there is no place for one more link"),
            Refusal::NotBelow { number, types } => write!(
                f,
                "refusal 16: {number} is not below the number of types, {types}"
            ),
            Refusal::NotEntered => f.write_str("refusal 16: fewer types or links were entered"),
        }
    }
}

impl fmt::Display for NotSettled {
    fn fmt<W: fmt::Write>(&self, f: &mut fmt::Formatter<W>) -> fmt::Result {
        f.write_str("refusal 12: the book is not settled")
    }
}
