// Why a book is not printed.
ghost use Rattle.std.specs.Prelude.{◌≡◌, Some};
ghost use Rattle.printing.specs.Refusals.{text_of};

use std::fmt;

/// The number of the refusal of an output that is too short.
pub const SHORT_OUTPUT: u8 = 18;

/// The output has fewer places than the text has bytes.
#[derive(Clone, Copy, Debug, PartialEq, Eq)]
pub struct ShortOutput {
    pub places: usize,
    pub needed: usize,
}

impl ShortOutput {
    /// The number of this refusal.
    pub fn number(&self) -> u8
        ensures { result ≡ 18 }
    {
        SHORT_OUTPUT
    }
}

impl fmt::Display for ShortOutput {
    ghost output = { λ x. Some (text_of x) };

    fn fmt<W: fmt::Write>(&self, f: &mut fmt::Formatter<W>) -> fmt::Result {
        write!(
            f,
            "refusal {SHORT_OUTPUT}: {} places are too few for {} bytes",
            self.places, self.needed
        )
    }
}
