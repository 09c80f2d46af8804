// Calls on a numbered book that enter types and links, and take them back.
ghost use Rattle.std.specs.Prelude.{◌≡◌, vec_len};
ghost use Rattle.hierarchy.specs.Entering.{type_answer, link_answer, back_answer};
ghost use Rattle.hierarchy.specs.Books.{book_of, new_book, changed, with_chains, Answers, after_type, after_link, after_back};

use crate::book::Hierarchy;
use crate::entered::Entered;
use crate::entering::Entry;
use crate::refusal::Refusal;
use crate::tables::Tables;
use descent::link::Link;
use settling::tables::UNWRITTEN;

impl Hierarchy {
    /// A book with nothing entered, over these tables, with so many places for types: sets the link table to 0 and the others to
    /// 65,535 throughout.
    pub fn new(number: u32, room: usize, tables: Tables) -> Hierarchy
        ensures { book_of result ≡ new_book number room (vec_len tables.links) (vec_len tables.order) (vec_len tables.chain) (vec_len tables.position) (vec_len tables.kept) (vec_len tables.index) }
    {
        let Tables {
            mut links,
            mut order,
            mut chain,
            mut position,
            mut kept,
            mut index,
        } = tables;
        links.fill(Link { from: 0, to: 0 });
        order.fill(UNWRITTEN);
        chain.fill(UNWRITTEN);
        position.fill(UNWRITTEN);
        kept.fill(UNWRITTEN);
        index.fill(UNWRITTEN);
        let entered = Entered {
            room,
            types: 0,
            count: 0,
            links,
        };
        Hierarchy {
            number,
            entered,
            order,
            chain,
            position,
            kept,
            index,
            chains: None,
        }
    }

    /// Enters one more type, and answers its number. The book is then not settled.
    pub fn enter_type(&mut self) -> Result<u16, Refusal>
        ensures answer { result ≡ type_answer (book_of self.old).held }
        ensures after { book_of self.new ≡ after_type (book_of self.old) result }
    {
        let number = self.entered.enter_type()?;
        self.chains = None;
        Ok(number)
    }

    /// Enters a link between two types, unless it is known. The book is not settled after a new one.
    pub fn enter_link(&mut self, from: u16, to: u16) -> Result<Entry, Refusal>
        ensures answer { result ≡ link_answer (book_of self.old).held from to }
        ensures after { book_of self.new ≡ after_link (book_of self.old) from to result }
    {
        let entry = self.entered.enter_link(from, to)?;
        if entry == Entry::New {
            self.chains = None;
        }
        Ok(entry)
    }

    /// Takes back all but the first types and links, and sets the places that they give up to 0. The book is then not settled.
    pub fn take_back(&mut self, types: u16, links: usize) -> Result<(), Refusal>
        ensures answer { result ≡ back_answer (book_of self.old).held types links }
        ensures after { book_of self.new ≡ after_back (book_of self.old) types links result }
    {
        self.entered.take_back(types, links)?;
        self.chains = None;
        Ok(())
    }

    /// The book is not settled any more.
    pub fn unsettle(&mut self)
        ensures { book_of self.new ≡ changed (book_of self.old) (book_of self.old).held }
    {
        self.chains = None;
    }

    /// The book is settled again, with that many chains: an inner call for whoever took back what was entered since it was
    /// settled, so that the tables still answer for what is left.
    pub fn resettle(&mut self, chains: Option<u16>)
        requires answering { ∥ Answers chains (book_of self.old) ∥₁ }
        ensures { book_of self.new ≡ with_chains (book_of self.old) chains }
    {
        self.chains = chains;
    }
}
