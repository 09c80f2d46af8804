// Read access to what a numbered book holds, and its tables given back.
ghost use Rattle.std.specs.Prelude.{◌≡◌};
ghost use Rattle.hierarchy.specs.Books.{book_of};
ghost use Rattle.hierarchy.specs.Entering.{links_in};

use crate::book::Hierarchy;
use crate::entered::Entered;
use descent::link::Link;

/// The tables of a book, as a host gives them and gets them back.
#[derive(Drop)]
pub struct Tables {
    pub links: Vec<Link>,
    pub order: Vec<u16>,
    pub chain: Vec<u16>,
    pub position: Vec<u16>,
    pub kept: Vec<u16>,
    pub index: Vec<u16>,
}

impl Hierarchy {
    /// The book's number.
    pub fn number(&self) -> u32
        ensures { result ≡ (book_of self.now).number }
    {
        self.number
    }

    /// How many types were entered.
    pub fn types(&self) -> u16
        ensures { result ≡ (book_of self.now).held.types }
    {
        self.entered.types
    }

    /// How many links were entered.
    pub fn link_count(&self) -> usize
        ensures { result ≡ (book_of self.now).held.count }
    {
        self.entered.count
    }

    /// The links that were entered.
    pub fn links(&self) -> &[Link]
        ensures { result.now ≡ links_in (book_of self.now).held }
    {
        self.entered.links()
    }

    /// The link table, whole: the links at its front, and then 0.
    pub fn link_table(&self) -> &[Link]
        ensures { result.now ≡ (book_of self.now).held.table }
    {
        &self.entered.links
    }

    /// The order table, whole.
    pub fn order(&self) -> &[u16]
        ensures { result.now ≡ (book_of self.now).written.order }
    {
        &self.order
    }

    /// The chain table, whole.
    pub fn chain(&self) -> &[u16]
        ensures { result.now ≡ (book_of self.now).written.chain }
    {
        &self.chain
    }

    /// The position table, whole.
    pub fn position(&self) -> &[u16]
        ensures { result.now ≡ (book_of self.now).written.position }
    {
        &self.position
    }

    /// The kept table, whole.
    pub fn kept(&self) -> &[u16]
        ensures { result.now ≡ (book_of self.now).written.kept }
    {
        &self.kept
    }

    /// The index table, whole.
    pub fn index(&self) -> &[u16]
        ensures { result.now ≡ (book_of self.now).written.index }
    {
        &self.index
    }

    /// Takes the book apart, and gives its tables back.
    pub fn into_tables(self) -> Tables
        ensures links { result.links.items ≡ (book_of self).held.table }
        ensures order { result.order.items ≡ (book_of self).written.order }
        ensures chain { result.chain.items ≡ (book_of self).written.chain }
        ensures position { result.position.items ≡ (book_of self).written.position }
        ensures kept { result.kept.items ≡ (book_of self).written.kept }
        ensures index { result.index.items ≡ (book_of self).written.index }
    {
        let Hierarchy {
            number: _,
            entered,
            order,
            chain,
            position,
            kept,
            index,
            chains: _,
        } = self;
        let Entered {
            room: _,
            types: _,
            count: _,
            links,
        } = entered;
        Tables {
            links,
            order,
            chain,
            position,
            kept,
            index,
        }
    }
}
