// Settling books of the largest size, and a question of the chain index.
use crate::shapes::{enter_deepest, enter_dense, enter_types, enter_widest};
use anyhow::anyhow;
use chains::chain_order::ChainOrder;
use chains::decomposer::Decomposer;
use chains::joining::Joining;
use descent::answerer::Answerer;
use descent::link::Link;
use hierarchy::book::Hierarchy;
use hierarchy::entered::{MOST_LINKS, MOST_TYPES};
use hierarchy::tables::Tables;
use settling::outcome::Settled;
use settling::settle::SCRATCH_PER_TYPE;
use std::alloc::{AllocError, Global};
use timing::timed;

const TYPES: usize = MOST_TYPES as usize;

const INDEX: usize = TYPES * TYPES;

const SCRATCH: usize = SCRATCH_PER_TYPE * TYPES;

// A book with all types entered, over tables that suffice for every hierarchy.
fn full_book(heap: Global) -> Result<Hierarchy, AllocError> {
    let tables = Tables {
        links: vec![in heap; Link { from: 0, to: 0 }; MOST_LINKS]?,
        order: vec![in heap; 0u16; TYPES]?,
        chain: vec![in heap; 0u16; TYPES]?,
        position: vec![in heap; 0u16; TYPES]?,
        kept: vec![in heap; 0u16; MOST_LINKS]?,
        index: vec![in heap; 0u16; INDEX]?,
    };
    let mut book = Hierarchy::new(1, TYPES, tables);
    enter_types(&mut book);
    Ok(book)
}

// Settles a book, and asks every question of its chain index.
fn measure_settle<D: Decomposer>(
    rt: &HostRuntime,
    name: &str,
    book: &mut Hierarchy,
    decomposer: &D,
) -> anyhow::Result<()> {
    let mut table = vec![in rt.alloc(); 0u16; TYPES]?;
    let mut scratch = vec![in rt.alloc(); 0u16; SCRATCH]?;
    let (answer, taken) = timed(rt, || book.settle(decomposer, &mut table, &mut scratch))?;
    eprintln!(rt; "{name}, settled: {} us", taken.as_micros())?;
    let Ok(
        Settled {
            types,
            links,
            chains,
            kept,
        },
    ) = answer
    else {
        return Err(anyhow!("the book is not settled"));
    };
    println!(rt; "{name}: {types} types, {links} links, {chains} chains, {kept} kept")?;
    let (related, taken) = timed(rt, || count_related(book))?;
    eprintln!(rt;
        "{name}, each of {types} x {types} questions asked: {} us",
        taken.as_micros()
    )?;
    println!(rt; "{name}: {related} pairs related")?;
    Ok(())
}

// How many types descend from the type.
fn count_subtypes(book: &Hierarchy, base: u16) -> usize {
    let mut index = book.chain_index();
    (0..MOST_TYPES)
        .filter(|t| matches!(index.related(*t, base), Ok(true)))
        .count()
}

fn count_related(book: &Hierarchy) -> usize {
    (0..MOST_TYPES).fold(0usize, |related, base| {
        related.saturating_add(count_subtypes(book, base))
    })
}

// Measures a book that is entered by a function, settled by both decomposers.
fn measure_shape<F: FnOnce(&mut Hierarchy)>(
    rt: &HostRuntime,
    shape: &str,
    enter: F,
) -> anyhow::Result<()>
    requires { F.IsAlwaysCallable enter }
{
    let mut book = full_book(rt.alloc())?;
    enter(&mut book);
    let name = format!(in rt.alloc(); "{shape} by chain order")?;
    measure_settle(rt, &name, &mut book, &ChainOrder)?;
    let name = format!(in rt.alloc(); "{shape} by joining")?;
    measure_settle(rt, &name, &mut book, &Joining { inner: ChainOrder })
}

pub fn measure_settles(rt: &HostRuntime) -> anyhow::Result<()> {
    measure_shape(rt, "the widest", enter_widest)?;
    measure_shape(rt, "the deepest", enter_deepest)?;
    measure_shape(rt, "a dense one", enter_dense)
}
