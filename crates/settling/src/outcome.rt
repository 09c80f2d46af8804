// What settling answers.
ghost use Rattle.std.specs.Prelude.{◌≡◌};
ghost use Rattle.settling.specs.Numbers.{report_of};

use std::fmt;

/// The numbers of types, links, chains and kept links.
#[derive(Clone, Copy, Debug, PartialEq, Eq)]
pub struct Settled {
    pub types: u16,
    pub links: usize,
    pub chains: u16,
    pub kept: usize,
}

/// Why settling was refused.
#[derive(Clone, Copy, Debug, PartialEq, Eq)]
pub enum Unsettled {
    /// A table has too few entries.
    ShortTable,
    /// There is a loop, of that many types.
    Loop { length: usize },
    /// The index has too few entries: that many are needed.
    ShortIndex { needed: usize },
}

/// A refusal by its number, and the value that it returns, if any.
#[derive(Clone, Copy, Debug, PartialEq, Eq)]
pub struct Report {
    pub number: u8,
    pub value: Option<usize>,
}

impl Unsettled {
    /// The number of the refusal, and the value that it returns, if any.
    pub fn report(&self) -> Report
        ensures { result ≡ report_of self.now }
    {
        match *self {
            Unsettled::ShortTable => Report {
                number: 9,
                value: None,
            },
            Unsettled::Loop { length } => Report {
                number: 10,
                value: Some(length),
            },
            Unsettled::ShortIndex { needed } => Report {
                number: 11,
                value: Some(needed),
            },
        }
    }
}

impl fmt::Display for Unsettled {
    fn fmt<W: fmt::Write>(&self, f: &mut fmt::Formatter<W>) -> fmt::Result {
        match *self {
            Unsettled::ShortTable => f.write_str("refusal 9: a table has too few entries"),
            Unsettled::Loop { length } => write!(
                f,
                "refusal 10: there is a loop of {length} types"
            ),
            Unsettled::ShortIndex { needed } => write!(
                f,
                "refusal 11: the index needs {needed} entries"
            ),
        }
    }
}
