// What entering a name and taking names back may answer.
ghost use Rattle.std.specs.Prelude.{◌≡◌, Some};
ghost use Rattle.names.specs.Refusals.{number_of, text_of, not_entered_text};

use std::fmt;

/// What became of a name: the type of that number was known, or is new.
#[derive(Clone, Copy, Debug, PartialEq, Eq)]
pub enum Entry {
    Known(u16),
    New(u16),
}

/// Why a name is not entered.
#[derive(Clone, Copy, Debug, PartialEq, Eq)]
pub enum Refusal {
    /// There is no place for one more type.
    NoTypePlace,
    /// There is no place for the bytes of the name.
    NoBytePlace,
}

/// Why no name is taken back: more types were to be left than there are.
#[derive(Clone, Copy, Debug, PartialEq, Eq)]
pub struct NotEntered {
    pub left: u16,
    pub types: u16,
}

impl Refusal {
    /// The number of this refusal.
    pub fn number(&self) -> u8
        ensures { result ≡ number_of self.now }
    {
        match *self {
            Refusal::NoTypePlace => 6,
            Refusal::NoBytePlace => 7,
        }
    }
}

impl fmt::Display for Refusal {
    ghost output = { λ x. Some (text_of x) };

    fn fmt<W: fmt::Write>(&self, f: &mut fmt::Formatter<W>) -> fmt::Result {
        let number = self.number();
        match *self {
            Refusal::NoTypePlace => write!(
                f,
                "refusal {number}: there is no place for one more type"
            ),
            Refusal::NoBytePlace => write!(
                f,
                "refusal {number}: there is no place for the bytes of the name"
            ),
        }
    }
}

impl fmt::Display for NotEntered {
    ghost output = { λ x. Some (not_entered_text x) };

    fn fmt<W: fmt::Write>(&self, f: &mut fmt::Formatter<W>) -> fmt::Result {
        write!(f, "{} types cannot be left of {}", self.left, self.types)
    }
}
