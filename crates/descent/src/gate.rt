// The gate over an answerer: levels that may only rise.
ghost use Rattle.std.specs.Prelude.{◌≡◌, min, length, IfOk, MatchResult};
ghost use Rattle.descent.specs.Laws.{gate_laws};
ghost use Rattle.descent.specs.Layers.{Gated};
ghost use Rattle.descent.specs.Refusals.{RefusesToMake, gate_refusal};

use crate::answerer::{Answerer, check_question};
use crate::refusal::{MOST_LEVELS, Refusal, Unmade};

/// Lets a relation of the answerer below through where the first type's level is at most the second's.
#[derive(Drop)]
pub struct Gate<'l, A> {
    below: A,
    levels: &'l [u16],
}

impl<'l, A> Gate<'l, A> {
    /// Takes the layer off, and hands back the answerer below.
    pub fn into_below(self) -> A
        ensures { result ≡ self.entry.below }
    {
        let Gate { below, levels: _ } = self;
        below
    }
}

impl<'l, A: Answerer> Gate<'l, A> {
    /// A gate over an answerer with a level for each of its types. Refused, with the answerer handed back, where
    /// there are more than 1,024 types, or fewer levels than types.
    pub fn new(below: A, levels: &'l [u16]) -> Result<Gate<'l, A>, Unmade<A>>
        ensures refusal { RefusesToMake (gate_refusal (A.Answerer.count below) (length levels.now)) result }
        ensures parts { MatchResult result (λ gate. (gate.below ≡ below) × (gate.levels.now ≡ levels.now)) (λ back. back.given ≡ below) }
        ensures count { IfOk result (λ gate. min (A.Answerer.count gate.below) (length gate.levels.now) ≡ A.Answerer.count below) }
    {
        let types = below.types();
        if types > MOST_LEVELS {
            return Err(Unmade {
                refusal: Refusal::ManyTypes { types },
                given: below,
            });
        }
        if levels.len() < types as usize {
            return Err(Unmade {
                refusal: Refusal::ShortLevels {
                    levels: levels.len(),
                    types,
                },
                given: below,
            });
        }
        Ok(Gate { below, levels })
    }
}

impl<'l, A: Answerer> Answerer for Gate<'l, A> {
    ghost count = { λ s. min (A.Answerer.count s.below) (length s.levels.now) };

    ghost relates = { λ s. Gated s.levels.now (A.Answerer.relates s.below) };

    ghost laws = { gate_laws (λ s. s.below) (λ s. s.levels.now) A.Answerer.laws };

    fn types(&self) -> u16 {
        self.levels.len().min(self.below.types() as usize) as u16
    }

    fn related(&mut self, a: u16, b: u16) -> Result<bool, Refusal> {
        check_question(self.types(), a, b)?;
        if self.levels[a as usize] > self.levels[b as usize] {
            return Ok(false);
        }
        self.below.related(a, b)
    }
}
