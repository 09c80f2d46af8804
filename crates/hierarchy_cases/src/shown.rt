// What a book and its tables hold, and what its chain index answers.
ghost use Rattle.std.specs.Iterator.{IsFinite};

use crate::case::Case;
use crate::numbers::next_type;
use case_numbers::Numbers;
use descent::answerer::Answerer;
use descent::link::Link;
use hierarchy::book::Hierarchy;

// A longer table is shown by a sum.
const MOST_SHOWN: usize = 16;

const PRIME: u64 = 1_000_000_007;

// Prints what the chain index answers to the pairs that follow, and first whether the book is settled.
pub fn run_asks(
    rt: &HostRuntime,
    book: &Hierarchy,
    numbers: &mut Numbers<u32>,
) -> anyhow::Result<()> {
    match book.settled_chains() {
        Ok(chains) => print!(rt; "of {chains} chains:")?,
        Err(_) => print!(rt; "refused 12:")?,
    }
    let mut index = book.chain_index();
    for _ in 0..numbers.count() / 2 {
        let a = next_type(numbers)?;
        let b = next_type(numbers)?;
        match index.related(a, b) {
            Ok(true) => print!(rt; " yes")?,
            Ok(false) => print!(rt; " no")?,
            Err(refusal) => print!(rt; " ({refusal})")?,
        }
    }
    println!(rt; "")?;
    Ok(())
}

// Prints the counts and the tables, each whole; the loop table only while no loop was written.
pub fn run_tables(rt: &HostRuntime, case: &Case) -> anyhow::Result<()> {
    let book = &case.book;
    print!(rt;
        "book {}: {} types, {} links",
        book.number(),
        book.types(),
        book.link_count()
    )?;
    show_links(rt, book.link_table())?;
    show(rt, "order", book.order())?;
    show(rt, "chain", book.chain())?;
    show(rt, "position", book.position())?;
    show(rt, "kept", book.kept())?;
    show(rt, "index", book.index())?;
    show(rt, "scratch", &case.scratch)?;
    if case.looped.is_none() {
        show(rt, "loop", &case.table)?;
    }
    println!(rt; "")?;
    Ok(())
}

// The name of a table, its length and its entries, or their sum.
fn show(rt: &HostRuntime, name: &str, entries: &[u16]) -> anyhow::Result<()> {
    let length = entries.len();
    print!(rt; "; {name} {length}")?;
    if length > MOST_SHOWN {
        print!(rt; " sum {}", sum_of(entries.iter().copied()))?;
        return Ok(());
    }
    for entry in entries {
        match *entry {
            u16::MAX => print!(rt; " -")?,
            number => print!(rt; " {number}")?,
        }
    }
    Ok(())
}

fn show_links(rt: &HostRuntime, links: &[Link]) -> anyhow::Result<()> {
    let length = links.len();
    print!(rt; "; links {length}")?;
    if length > MOST_SHOWN {
        let ends = links.iter().flat_map(|link| [link.from, link.to]);
        print!(rt; " sum {}", sum_of(ends))?;
        return Ok(());
    }
    for link in links {
        print!(rt; " {}-{}", link.from, link.to)?;
    }
    Ok(())
}

// The sum of each number times its place, the first place being 1.
fn sum_of<I: Iterator<Item = u16>>(numbers: I) -> u64
    requires can { I.can_next numbers }
    requires ends { IsFinite (I.remaining numbers) }
{
    let sum = (1u64..).zip(numbers).fold(0u64, |sum, (place, number)| {
        sum.wrapping_add(place.wrapping_mul(u64::from(number)))
    });
    sum % PRIME
}
