// Why nothing is printed.
ghost use Rattle.std.specs.Prelude.{◌≡◌};
ghost use Rattle.printout.specs.Numbers.{number_of};

use printing::refusal::ShortOutput;

/// Why nothing is printed.
#[derive(Clone, Copy, Debug, PartialEq, Eq)]
pub enum Unprinted {
    /// The book is not settled.
    NotSettled,
    /// The output is too short.
    ShortOutput(ShortOutput),
}

impl Unprinted {
    /// The number of the refusal.
    pub fn number(&self) -> u8
        ensures { result ≡ number_of self.now }
    {
        match *self {
            Unprinted::NotSettled => 12,
            Unprinted::ShortOutput(short) => short.number(),
        }
    }
}
