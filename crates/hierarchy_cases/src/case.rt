// A book, and the tables that a settle gets besides.
use crate::numbers::{link_table, table};
use case_numbers::Numbers;
use hierarchy::book::Hierarchy;
use hierarchy::tables::Tables;
use std::alloc::Global;

#[derive(Drop)]
pub struct Case {
    pub book: Hierarchy,
    pub table: Vec<u16>,
    pub scratch: Vec<u16>,
    // the length of the last loop that was written
    pub looped: Option<usize>,
}

impl Case {
    // A book of a number, with places for types, over tables of the lengths that follow.
    pub fn new(heap: Global, numbers: &mut Numbers<u32>) -> anyhow::Result<Case> {
        let number = numbers.next()?;
        let room = numbers.next()? as usize;
        let tables = Tables {
            links: link_table(heap, numbers)?,
            order: table(heap, numbers)?,
            chain: table(heap, numbers)?,
            position: table(heap, numbers)?,
            kept: table(heap, numbers)?,
            index: table(heap, numbers)?,
        };
        Ok(Case {
            book: Hierarchy::new(number, room, tables),
            table: table(heap, numbers)?,
            scratch: table(heap, numbers)?,
            looped: None,
        })
    }

    // Gives the next settles other tables, of the lengths that follow.
    pub fn lend(&mut self, heap: Global, numbers: &mut Numbers<u32>) -> anyhow::Result<()> {
        self.table = table(heap, numbers)?;
        self.scratch = table(heap, numbers)?;
        self.looped = None;
        Ok(())
    }

    // A book over the tables of another, which is taken apart.
    pub fn again(self, numbers: &mut Numbers<u32>) -> anyhow::Result<Case> {
        let number = numbers.next()?;
        let room = numbers.next()? as usize;
        let Case {
            book,
            table,
            scratch,
            looped,
        } = self;
        Ok(Case {
            book: Hierarchy::new(number, room, book.into_tables()),
            table,
            scratch,
            looped,
        })
    }
}
