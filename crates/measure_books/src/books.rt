// A book of the largest size by names: loading a text of the largest size, settling it, and asking.
use anyhow::anyhow;
use chains::chain_order::ChainOrder;
use chains::joining::Joining;
use declarations::book::Book;
use hierarchy::entered::{MOST_LINKS, MOST_TYPES};
use names::names::MOST_BYTES;
use register::tables::{TableSizes, Tables};
use settling::outcome::Settled;
use settling::settle::SCRATCH_PER_TYPE;
use std::alloc::{AllocError, Global};
use texts::text::MAX_TEXT;
use timing::timed;

const TYPES: usize = MOST_TYPES as usize;

// How many bases each type has, as long as there are types after it.
const BASES: usize = 8;

// The bytes of a line: a name of five bytes, and eight bases with what parts them.
const LINE: usize = 5 + 3 + 5 + (BASES - 1) * 7 + 1;

// The names of all types: a letter and four digits each.
fn all_names(heap: Global) -> Result<Vec<String>, AllocError> {
    (0..TYPES)
        .map(|number| format!(in heap; "T{number:04}"))
        .try_collect(heap)
}

// The line of a type: the first of the names, with the others as its bases.
fn push_line(heap: Global, text: &mut Vec<u8>, names: &[String]) -> Result<(), AllocError> {
    if let [name, bases @ ..] = names {
        let bases = bases.join(heap, ", ")?;
        text.extend_from_slice(format!(in heap; "{name} < {bases}\n")?.as_bytes())?;
    }
    Ok(())
}

// A lawful text of the largest size: the lines of the types over and over, each with the next eight types as bases.
fn full_text(heap: Global, names: &[String]) -> Result<Vec<u8>, AllocError> {
    let mut text = Vec::with_capacity(heap, MAX_TEXT)?;
    for line in names.windows(BASES + 1).cycle().take(MAX_TEXT / LINE) {
        push_line(heap, &mut text, line)?;
    }
    text.resize(MAX_TEXT, b'\n')?;
    Ok(text)
}

// How many types descend from the last one, asked by name.
fn count_below(book: &mut Book, names: &[String]) -> usize {
    let Some(last) = names.last() else {
        return 0;
    };
    names
        .iter()
        .filter(|name| matches!(book.ask(name.as_bytes(), last.as_bytes()), Ok(true)))
        .count()
}

pub fn measure_books(rt: &HostRuntime) -> anyhow::Result<()> {
    let heap = rt.alloc();
    let names = all_names(heap)?;
    let text = full_text(heap, &names)?;
    let sizes = TableSizes::of_counts(TYPES, MOST_LINKS, MOST_BYTES, TYPES * TYPES);
    let mut book = Book::new(1, Tables::with_sizes(heap, sizes)?);
    let mut table = vec![in heap; 0u16; TYPES]?;
    let mut scratch = vec![in heap; 0u16; SCRATCH_PER_TYPE * TYPES]?;
    let (loaded, load_time) = timed(rt, || book.load(heap, &[], &text).is_ok())?;
    let (settled, settle_time) = timed(rt, || {
        book.settle(&Joining { inner: ChainOrder }, &mut table, &mut scratch)
    })?;
    let (below, ask_time) = timed(rt, || count_below(&mut book, &names))?;
    eprintln!(rt;
        "a text of {MAX_TEXT} bytes loaded: {} us",
        load_time.as_micros()
    )?;
    eprintln!(rt; "settled: {} us", settle_time.as_micros())?;
    eprintln!(rt; "{TYPES} asks by name: {} us", ask_time.as_micros())?;
    let Ok(
        Settled {
            types,
            links,
            chains,
            kept,
        },
    ) = settled
    else {
        return Err(anyhow!("not settled"));
    };
    println!(rt;
        "loaded: {loaded}, settled: {types} {links} {chains} {kept}, below the last: {below}"
    )?;
    Ok(())
}
