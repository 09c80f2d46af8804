// Lists that stand in a line: a count, and so many items.
use case_numbers::Numbers;
use descent::link::Link;
use std::alloc::Global;

// A count, and so many numbers.
pub fn list(heap: Global, numbers: &mut Numbers<u16>) -> anyhow::Result<Vec<u16>> {
    let mut list = Vec::new(heap);
    for _ in 0..numbers.next()? {
        list.push(numbers.next()?)?;
    }
    Ok(list)
}

// A count, and so many pairs of ends.
pub fn links(heap: Global, numbers: &mut Numbers<u16>) -> anyhow::Result<Vec<Link>> {
    let mut links = Vec::new(heap);
    for _ in 0..numbers.next()? {
        links.push(Link {
            from: numbers.next()?,
            to: numbers.next()?,
        })?;
    }
    Ok(links)
}
