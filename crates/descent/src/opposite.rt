// The opposite of an answerer.
ghost use Rattle.std.specs.Prelude.{◌≡◌};
ghost use Rattle.descent.specs.Laws.{opposite_laws};
ghost use Rattle.descent.specs.Layers.{Swapped};

use crate::answerer::{Answerer, check_question};
use crate::refusal::Refusal;

/// Swaps the two numbers of each question to the answerer below.
#[derive(Drop)]
pub struct Opposite<A> {
    below: A,
}

impl<A> Opposite<A> {
    /// The opposite of an answerer.
    pub fn new(below: A) -> Opposite<A>
        ensures { result.below ≡ below }
    {
        Opposite { below }
    }

    /// Takes the layer off, and hands back the answerer below.
    pub fn into_below(self) -> A
        ensures { result ≡ self.below }
    {
        let Opposite { below } = self;
        below
    }
}

impl<A: Answerer> Answerer for Opposite<A> {
    ghost count = { λ s. A.Answerer.count s.below };

    ghost relates = { λ s. Swapped (A.Answerer.relates s.below) };

    ghost laws = { opposite_laws (λ s. s.below) A.Answerer.laws };

    fn types(&self) -> u16 {
        self.below.types()
    }

    fn related(&mut self, a: u16, b: u16) -> Result<bool, Refusal> {
        check_question(self.below.types(), a, b)?;
        self.below.related(b, a)
    }
}
