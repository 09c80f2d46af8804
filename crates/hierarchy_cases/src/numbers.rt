// What a step's numbers stand for: types, and tables of the lengths that they say.
use case_numbers::Numbers;
use descent::link::Link;
use std::alloc::Global;

// What an entry holds before a book is made over its table.
const OLD: u16 = 7;

// The number of a type.
pub fn next_type(numbers: &mut Numbers<u32>) -> anyhow::Result<u16> {
    Ok(u16::try_from(numbers.next()?)?)
}

// A table of so many entries.
pub fn table(heap: Global, numbers: &mut Numbers<u32>) -> anyhow::Result<Vec<u16>> {
    Ok(vec![in heap; OLD; numbers.next()? as usize]?)
}

// A link table of so many places.
pub fn link_table(heap: Global, numbers: &mut Numbers<u32>) -> anyhow::Result<Vec<Link>> {
    Ok(vec![in heap; Link { from: OLD, to: OLD }; numbers.next()? as usize]?)
}
