// Settling a book, and whether what is written as a loop is one.
use crate::case::Case;
use chains::decomposer::Decomposer;
use descent::link::Link;
use settling::outcome::{Settled, Unsettled};

// Settles the book, and prints the answer. The loop table has to keep what no loop is written over.
pub fn run_settle<D: Decomposer>(
    rt: &HostRuntime,
    case: &mut Case,
    decomposer: &D,
) -> anyhow::Result<()> {
    let before = case.table.clone()?;
    match case
        .book
        .settle(decomposer, &mut case.table, &mut case.scratch)
    {
        Ok(settled) => {
            let Settled {
                types,
                links,
                chains,
                kept,
            } = settled;
            println!(rt; "settled: {types} types, {links} links, {chains} chains, {kept} kept")?;
        }
        Err(Unsettled::ShortTable) => println!(rt; "refused 9")?,
        Err(Unsettled::ShortIndex { needed }) => println!(rt; "refused 11: {needed} entries")?,
        Err(Unsettled::Loop { length }) => {
            case.looped = Some(length);
            say_loop(rt, case, &before, length)?;
            return Ok(());
        }
    }
    if case.table.as_slice() != before.as_slice() {
        println!(rt; "the loop table has changed")?;
    }
    Ok(())
}

fn say_loop(rt: &HostRuntime, case: &Case, before: &[u16], length: usize) -> anyhow::Result<()> {
    let ok = is_written(case.book.links(), before, &case.table, length);
    println!(rt; "refused 10: loop {}", if ok { "ok" } else { "wrong" })?;
    Ok(())
}

// Whether the front of the table, of that length, is a loop of the links, and the rest is as before.
fn is_written(links: &[Link], before: &[u16], after: &[u16], length: usize) -> bool {
    match (
        before.split_at_checked(length),
        after.split_at_checked(length),
    ) {
        (Some((_, kept)), Some((types, rest))) => is_loop(links, types) && kept == rest,
        _ => false,
    }
}

// Whether the types are different, each is linked to the next, and the last to the first.
fn is_loop(links: &[Link], types: &[u16]) -> bool {
    let next = types.iter().cycle().skip(1);
    !types.is_empty()
        && types.iter().zip(next).all(|(from, to)| {
            let link = Link {
                from: *from,
                to: *to,
            };
            links.contains(&link) && types.iter().filter(|t| *t == to).count() == 1
        })
}
