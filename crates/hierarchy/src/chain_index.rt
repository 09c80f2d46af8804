// The chain index: an answerer over the tables of a settled book.
ghost use Rattle.std.specs.Prelude.{◌≡◌, ℕ, ◌*◌, ◌<◌, ◌≤◌, length, slice_index};
ghost use Rattle.descent.specs.Answers.{Same, Answers, Laws};
ghost use Rattle.descent.specs.Laws.{descent_laws};
ghost use Rattle.descent.specs.Links.{Descends};
ghost use Rattle.hierarchy.specs.Answering.{EntriesTell};

use descent::answerer::{Answerer, check_question};
use descent::link::Link;
use descent::refusal::Refusal;

/// Answers from the tables: yes when the row entry of the first at the second's chain is at most the second's position.
/// The tables have the host's lengths, so how many types and chains there are stands beside them.
#[derive(Drop)]
pub struct ChainIndex<'l, 'c, 'p, 'i> {
    pub(crate) types: u16,
    pub(crate) chains: u16,
    pub(crate) links: &'l [Link],
    pub(crate) chain: &'c [u16],
    pub(crate) position: &'p [u16],
    pub(crate) index: &'i [u16],
    ghost room: { types * chains ≤ length index.now },
    ghost chain_room: { types ≤ length chain.now },
    ghost position_room: { types ≤ length position.now },
    ghost below: { ((b : ℕ) → b < types → slice_index chain.now b < chains) },
    ghost answers: { ∥ EntriesTell chains types links.now chain.now position.now index.now ∥₁ },
}

impl<'l, 'c, 'p, 'i> Answerer for ChainIndex<'l, 'c, 'p, 'i> {
    ghost count = { λ s. s.types };

    ghost relates = { λ s. Descends s.links.now };

    ghost laws = { descent_laws (λ s. s.types) (λ s. s.links.now) };

    fn types(&self) -> u16 {
        self.types
    }

    fn related(&mut self, a: u16, b: u16) -> Result<bool, Refusal> {
        check_question(self.types, a, b)?;
        let row = a as usize * self.chains as usize;
        let entry = self.index[row + self.chain[b as usize] as usize];
        Ok(entry <= self.position[b as usize])
    }
}
