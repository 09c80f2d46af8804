// Settling a numbered book.
ghost use Rattle.std.specs.Prelude.{◌≡◌};
ghost use Rattle.settling.specs.Settling.{SettlesAs};
ghost use Rattle.hierarchy.specs.Books.{book_of};
ghost use Rattle.hierarchy.specs.Entering.{held_of, links_in};
ghost use Rattle.hierarchy.specs.SettledBooks.{tables, settled_by, sizes_of, BookSettles};

use crate::book::Hierarchy;
use crate::entered::Entered;
use chains::decomposer::Decomposer;
use settling::graph::Graph;
use settling::outcome::{Settled, Unsettled};
use settling::settle::settle_tables;
use settling::tables::Tables;

// Settles what was entered over the tables. They come one by one: of the `Vec`s it is not known what they hold once their
// slices were lent in a struct.
fn settle_entered<D: Decomposer>(
    decomposer: &D,
    entered: &Entered,
    order: &mut [u16],
    chain: &mut [u16],
    position: &mut [u16],
    kept: &mut [u16],
    index: &mut [u16],
    loop_table: &mut [u16],
    scratch: &mut [u16],
) -> Result<Settled, Unsettled>
    ensures { SettlesAs (D.Decomposer.gives decomposer.now) entered.now.types (links_in (held_of entered.now)) (tables order.old chain.old position.old kept.old index.old loop_table.old scratch.old) result (tables order.new chain.new position.new kept.new index.new loop_table.new scratch.new) }
{
    let graph = Graph {
        types: entered.types,
        links: entered.links(),
    };
    let mut tables = Tables {
        order,
        chain,
        position,
        kept,
        index,
        loop_table,
        scratch,
    };
    settle_tables(decomposer, &graph, &mut tables)
}

// The number of chains of a book that is settled after the answer.
fn settled_by(answer: Result<Settled, Unsettled>, before: Option<u16>) -> Option<u16>
    ensures { result ≡ settled_by answer before }
{
    match answer {
        Ok(settled) => Some(settled.chains),
        Err(Unsettled::ShortTable) => before,
        Err(Unsettled::Loop { .. } | Unsettled::ShortIndex { .. }) => None,
    }
}

impl Hierarchy {
    /// Settles the book with a loop table, working memory and a decomposer: writes the order, the chains and positions that one
    /// call of the decomposer gave, the kept entries and the rows, or says why not.
    pub fn settle<D: Decomposer>(
        &mut self,
        decomposer: &D,
        table: &mut [u16],
        scratch: &mut [u16],
    ) -> Result<Settled, Unsettled>
        ensures settles { BookSettles (D.Decomposer.gives decomposer.now) (book_of self.old) table.old scratch.old result (book_of self.new) table.new scratch.new }
        ensures sizes { sizes_of (book_of self.new).written ≡ sizes_of (book_of self.old).written }
    {
        let answer = settle_entered(
            decomposer,
            &self.entered,
            &mut self.order,
            &mut self.chain,
            &mut self.position,
            &mut self.kept,
            &mut self.index,
            table,
            scratch,
        );
        self.chains = settled_by(answer, self.chains);
        answer
    }
}
