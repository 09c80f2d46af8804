// Making a chain index of a book.
ghost use Rattle.std.specs.Prelude.{◌≡◌, is_ok, is_some, IfOk};
ghost use Rattle.hierarchy.specs.Books.{book_of};
ghost use Rattle.hierarchy.specs.Entering.{links_in};
ghost use Rattle.hierarchy.specs.Indexes.{settled_answer, indexed_types};

use crate::book::Hierarchy;
use crate::chain_index::ChainIndex;
use crate::refusal::NotSettled;

impl Hierarchy {
    /// The number of chains of a settled book; refused where the book is not settled.
    pub fn settled_chains(&self) -> Result<u16, NotSettled>
        ensures { result ≡ settled_answer (book_of self.now).settled }
    {
        self.chains.ok_or(NotSettled)
    }

    /// The chain index of a settled book, over all its types; refused where the book is not settled.
    pub fn settled_index(&self) -> Result<ChainIndex<'_, '_, '_, '_>, NotSettled>
        ensures settled { is_ok result ≡ is_some (book_of self.now).settled }
        ensures types { IfOk result (λ index. index.types ≡ (book_of self.now).held.types) }
        ensures links { IfOk result (λ index. index.links.now ≡ links_in (book_of self.now).held) }
    {
        let chains = self.settled_chains()?;
        Ok(ChainIndex {
            types: self.entered.types,
            chains,
            links: self.links(),
            chain: &self.chain,
            position: &self.position,
            index: &self.index,
        })
    }

    /// The chain index of the book: over its types where it is settled, and over none where it is not.
    // For a caller that knows already whether the book is settled; `settled_index` is for the others.
    pub fn chain_index(&self) -> ChainIndex<'_, '_, '_, '_>
        ensures types { result.types ≡ indexed_types (book_of self.now) }
        ensures links { result.links.now ≡ links_in (book_of self.now).held }
    {
        let none = ChainIndex {
            types: 0,
            chains: 0,
            links: self.links(),
            chain: &self.chain,
            position: &self.position,
            index: &self.index,
        };
        self.settled_index().unwrap_or(none)
    }
}
