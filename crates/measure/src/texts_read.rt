// Reading and checking a text of the largest size.
use grammar::declaration::read_line;
use std::alloc::{AllocError, Global};
use texts::text::{Lines, MAX_TEXT, check_texts};
use timing::timed;

// A lawful text of the largest size.
fn largest_text(heap: Global) -> Result<Vec<u8>, AllocError> {
    let line = b"Number[Of,Things[X]] < Base, Other[Thing], Third_1\n";
    let mut text = line.repeat(heap, MAX_TEXT / line.len())?;
    text.resize(MAX_TEXT, b'\n')?;
    Ok(text)
}

// How many names stand in the declarations of a text.
fn count_names(heap: Global, text: &[u8]) -> usize {
    Lines::of(text)
        .filter_map(|line| read_line(heap, line).ok().flatten())
        .fold(0usize, |names, declaration| {
            names
                .saturating_add(1)
                .saturating_add(declaration.bases.len())
        })
}

pub fn measure_texts(rt: &HostRuntime) -> anyhow::Result<()> {
    let text = largest_text(rt.alloc())?;
    let (lawful, checked) = timed(rt, || check_texts(&text, &text).is_ok())?;
    let (names, read) = timed(rt, || count_names(rt.alloc(), &text))?;
    eprintln!(rt;
        "two texts of {MAX_TEXT} bytes checked: {} us",
        checked.as_micros()
    )?;
    eprintln!(rt;
        "and one of them read out: {} us in all",
        checked.saturating_add(read).as_micros()
    )?;
    println!(rt; "lawful: {lawful}, names: {names}")?;
    Ok(())
}
