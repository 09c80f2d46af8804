// Making a register over the host's tables, reading them, and giving them back.
ghost use Rattle.std.specs.Prelude.{◌≡◌, IfOk};
ghost use Rattle.hierarchy.specs.Books.{book_of};
ghost use Rattle.names.specs.Held.{names_in, pool_size, table_size};
ghost use Rattle.names.specs.Tables.{pool_of, spans_of};
ghost use Rattle.register.specs.Contents.{contents_of, new_contents};
ghost use Rattle.register.specs.Tables.{lengths_of, of_counts};

use crate::register::Register;
use descent::link::Link;
use hierarchy::book::Hierarchy;
use hierarchy::tables::Tables as NumberTables;
use names::names::Names;
use names::span::Span;
use std::alloc::{AllocError, Global};

/// The tables of a register: bytes and spans of the names, and the tables of the numbered book.
#[derive(Drop)]
pub struct Tables {
    pub pool: Vec<u8>,
    pub names: Vec<Span>,
    pub numbered: NumberTables,
}

/// How many entries the tables of a register have.
#[derive(Clone, Copy, Debug, PartialEq, Eq)]
pub struct TableSizes {
    pub pool: usize,
    pub names: usize,
    pub links: usize,
    pub order: usize,
    pub chain: usize,
    pub position: usize,
    pub kept: usize,
    pub index: usize,
}

impl TableSizes {
    /// The sizes for so many types and links: order, chain and position have an entry for each type, kept one for each link.
    pub fn of_counts(types: usize, links: usize, pool: usize, index: usize) -> TableSizes
        ensures { result ≡ of_counts types links pool index }
    {
        TableSizes {
            pool,
            names: types,
            links,
            order: types,
            chain: types,
            position: types,
            kept: links,
            index,
        }
    }
}

impl Tables {
    /// Tables of these sizes.
    pub fn with_sizes(heap: Global, sizes: TableSizes) -> Result<Tables, AllocError>
        ensures { IfOk result (λ tables. lengths_of tables ≡ sizes) }
    {
        Ok(Tables {
            pool: vec![in heap; 0u8; sizes.pool]?,
            names: vec![in heap; Span {
                start: 0,
                length: 0
            }; sizes.names]?,
            numbered: NumberTables {
                links: vec![in heap; Link { from: 0, to: 0 }; sizes.links]?,
                order: vec![in heap; 0u16; sizes.order]?,
                chain: vec![in heap; 0u16; sizes.chain]?,
                position: vec![in heap; 0u16; sizes.position]?,
                kept: vec![in heap; 0u16; sizes.kept]?,
                index: vec![in heap; 0u16; sizes.index]?,
            },
        })
    }
}

impl Register {
    /// A register with nothing entered over these tables: sets pool, names and links to 0 and the others to 65,535 throughout.
    pub fn new(number: u32, tables: Tables) -> Register
        ensures { contents_of result ≡ new_contents number (lengths_of tables) }
    {
        let Tables {
            pool,
            names,
            numbered,
        } = tables;
        let room = names.len();
        let names = Names::new(pool, names);
        let numbered = Hierarchy::new(number, room, numbered);
        Register { names, numbered }
    }

    /// The names of the types, with the pool and the name table.
    pub fn names(&self) -> &Names
        ensures { result.now ≡ self.now.names }
    {
        &self.names
    }

    /// The book of the types and links by number, with the other tables.
    pub fn numbered(&self) -> &Hierarchy
        ensures { result.now ≡ self.now.numbered }
    {
        &self.numbered
    }

    /// Takes the register apart, and gives its tables back.
    pub fn into_tables(self) -> Tables
        ensures pool { result.pool.items ≡ pool_of (contents_of self).entries.names (contents_of self).room.pool }
        ensures names { result.names.items ≡ spans_of (contents_of self).entries.names (contents_of self).room.names }
        ensures links { result.numbered.links.items ≡ (book_of self.numbered).held.table }
        ensures order { result.numbered.order.items ≡ (contents_of self).written.order }
        ensures chain { result.numbered.chain.items ≡ (contents_of self).written.chain }
        ensures position { result.numbered.position.items ≡ (contents_of self).written.position }
        ensures kept { result.numbered.kept.items ≡ (contents_of self).written.kept }
        ensures index { result.numbered.index.items ≡ (contents_of self).written.index }
    {
        let Register { names, numbered } = self;
        let (pool, names) = names.into_tables();
        let numbered = numbered.into_tables();
        Tables {
            pool,
            names,
            numbered,
        }
    }
}

#[cfg(test)]
mod tests {
    use super::*;

    #[test]
    fn tables_are_made(rt: HostRuntime) {
        let sizes = TableSizes {
            pool: 64,
            names: 8,
            links: 16,
            order: 8,
            chain: 8,
            position: 8,
            kept: 16,
            index: 32,
        };
        assert!(rt; Tables::with_sizes(rt.alloc(), sizes).is_ok());
    }
}
