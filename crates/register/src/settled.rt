// Settling a register, and asking it by names.
ghost use Rattle.std.specs.Prelude.{◌≡◌};
ghost use Rattle.register.specs.Asking.{numbers_of, ask_answer};
ghost use Rattle.register.specs.Contents.{contents_of};
ghost use Rattle.register.specs.Settling.{Settles};

use crate::refusal::{NotAsked, Which};
use crate::register::Register;
use chains::decomposer::Decomposer;
use descent::answerer::ask;
use settling::outcome::{Settled, Unsettled};

impl Register {
    /// Settles what was entered, with a loop table, working memory and a decomposer.
    pub fn settle<D: Decomposer>(
        &mut self,
        decomposer: &D,
        table: &mut [u16],
        scratch: &mut [u16],
    ) -> Result<Settled, Unsettled>
        ensures { Settles (D.Decomposer.gives decomposer.now) (contents_of self.old) table.old scratch.old result (contents_of self.new) table.new scratch.new }
    {
        self.numbered.settle(decomposer, table, scratch)
    }

    /// The numbers of two types of a settled register, by their names.
    pub fn numbers(&self, first: &[u8], second: &[u8]) -> Result<(u16, u16), NotAsked>
        ensures { result ≡ numbers_of (contents_of self.now) first.now second.now }
    {
        self.numbered.settled_chains()?;
        let Some(a) = self.names.find(first) else {
            return Err(NotAsked::Unknown {
                which: Which::First,
            });
        };
        let Some(b) = self.names.find(second) else {
            return Err(NotAsked::Unknown {
                which: Which::Second,
            });
        };
        Ok((a, b))
    }

    /// Whether the first type descends from the second, by their names.
    pub fn ask(&self, first: &[u8], second: &[u8]) -> Result<bool, NotAsked>
        ensures { result ≡ ask_answer (contents_of self.now) first.now second.now }
    {
        let mut index = self.numbered.settled_index()?;
        let (a, b) = self.numbers(first, second)?;
        Ok(ask(&mut index, a, b))
    }
}
