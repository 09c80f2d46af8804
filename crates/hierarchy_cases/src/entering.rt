// Steps that enter types and links, and take them back.
use crate::numbers::next_type;
use case_numbers::Numbers;
use hierarchy::book::Hierarchy;
use hierarchy::entering::Entry;
use hierarchy::refusal::Refusal;

// Enters so many types, and prints the number of each.
pub fn run_types(rt: &HostRuntime, book: &mut Hierarchy, count: u32) -> anyhow::Result<()> {
    print!(rt; "types:")?;
    for _ in 0..count {
        match book.enter_type() {
            Ok(number) => print!(rt; " {number}")?,
            Err(refusal) => say_refusal(rt, refusal)?,
        }
    }
    println!(rt; "")?;
    Ok(())
}

// Enters the links whose ends follow, and prints what became of each.
pub fn run_links(
    rt: &HostRuntime,
    book: &mut Hierarchy,
    numbers: &mut Numbers<u32>,
) -> anyhow::Result<()> {
    print!(rt; "links:")?;
    for _ in 0..numbers.count() / 2 {
        let from = next_type(numbers)?;
        let to = next_type(numbers)?;
        match book.enter_link(from, to) {
            Ok(Entry::New) => print!(rt; " new")?,
            Ok(Entry::Known) => print!(rt; " known")?,
            Err(refusal) => say_refusal(rt, refusal)?,
        }
    }
    println!(rt; "")?;
    Ok(())
}

pub fn run_back(
    rt: &HostRuntime,
    book: &mut Hierarchy,
    numbers: &mut Numbers<u32>,
) -> anyhow::Result<()> {
    let types = next_type(numbers)?;
    let links = numbers.next()? as usize;
    print!(rt; "back:")?;
    match book.take_back(types, links) {
        Ok(()) => print!(rt; " done")?,
        Err(refusal) => say_refusal(rt, refusal)?,
    }
    println!(rt; "")?;
    Ok(())
}

fn say_refusal(rt: &HostRuntime, refusal: Refusal) -> anyhow::Result<()> {
    match refusal {
        Refusal::NoTypePlace => print!(rt; " no-type-place")?,
        Refusal::NoLinkPlace => print!(rt; " no-link-place")?,
        Refusal::NotBelow { number, types } => print!(rt; " {number}-not-below-{types}")?,
        Refusal::NotEntered => print!(rt; " not-entered")?,
    }
    Ok(())
}
