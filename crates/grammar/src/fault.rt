// What is said of a line that is not lawful.
ghost use Rattle.std.specs.Prelude.{◌≡◌};
ghost use Rattle.grammar.specs.Rules.{rule_number};

use std::fmt;

/// The rule that a line breaks.
#[derive(Clone, Copy, Debug, PartialEq, Eq)]
pub enum Rule {
    /// A byte is from 32 to 126.
    Printable,
    /// At most eight brackets are open at once, and each is opened and closed.
    Brackets,
    /// An outermost name has at most 64 bytes.
    Length,
    /// Whatever else the grammar says.
    Grammar,
}

/// Where a line goes wrong: the rule that it breaks, and the column, counted from 1, of the first byte that breaks it.
#[derive(Clone, Copy, Debug, PartialEq, Eq)]
pub struct Fault {
    pub rule: Rule,
    pub column: usize,
}

impl Rule {
    /// The number of the refusal of a line that breaks the rule.
    // A method and no `From`: its name says that the number is that of a refusal.
    pub fn number(self) -> u8
        ensures { result ≡ rule_number self }
    {
        match self {
            Rule::Printable => 2,
            Rule::Brackets => 3,
            Rule::Length => 4,
            Rule::Grammar => 5,
        }
    }
}

impl fmt::Display for Rule {
    fn fmt<W: fmt::Write>(&self, f: &mut fmt::Formatter<W>) -> fmt::Result {
        f.write_str(match self {
            Rule::Printable => "a byte is not from 32 to 126",
            Rule::Brackets => "a bracket is not closed, not open, or a ninth one open",
            Rule::Length => "a name has more than 64 bytes",
            Rule::Grammar => "the grammar has no place for this",
        })
    }
}
