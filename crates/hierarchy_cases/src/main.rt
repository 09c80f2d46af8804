// Runs a script of steps on numbered books, and prints a line for each step.
// A step is a word and its numbers; `book` begins a new book, over new tables.
#![tactic(auto)]

mod case;
mod entering;
mod numbers;
mod settles;
mod shown;

use anyhow::anyhow;
use case::Case;
use case_numbers::Numbers;
use chains::chain_order::ChainOrder;
use chains::joining::Joining;
use entering::{run_back, run_links, run_types};
use settles::run_settle;
use shown::{run_asks, run_tables};
use std::io::{BufRead, BufReader};

// A step on a book that stands. A step of the script is told by its word.
fn run_step(
    rt: &HostRuntime,
    case: &mut Case,
    word: &str,
    numbers: &mut Numbers<u32>,
) -> anyhow::Result<()> {
    match word {
        "types" => run_types(rt, &mut case.book, numbers.next()?),
        "links" => run_links(rt, &mut case.book, numbers),
        "back" => run_back(rt, &mut case.book, numbers),
        "unsettle" => {
            case.book.unsettle();
            println!(rt; "unsettled")?;
            Ok(())
        }
        "lend" => {
            case.lend(rt.alloc(), numbers)?;
            println!(rt; "lent")?;
            Ok(())
        }
        "settle" => run_settle(rt, case, &Joining { inner: ChainOrder }),
        "chains" => run_settle(rt, case, &ChainOrder),
        "length" => {
            println!(rt; "loop of {}", case.looped.unwrap_or(0))?;
            Ok(())
        }
        "ask" => run_asks(rt, &case.book, numbers),
        "tables" => run_tables(rt, case),
        _ => Err(anyhow!("no such step")),
    }
}

// A step, and the book after it.
fn step(rt: &HostRuntime, case: Case, line: &str) -> anyhow::Result<Case> {
    let mut words = line.split_whitespace();
    let word = words.next().unwrap_or("");
    let mut numbers = Numbers::read(rt.alloc(), words)?;
    let after = match word {
        "book" => Case::new(rt.alloc(), &mut numbers)?,
        "again" => case.again(&mut numbers)?,
        _ => {
            let mut same = case;
            run_step(rt, &mut same, word, &mut numbers)?;
            return Ok(same);
        }
    };
    run_tables(rt, &after)?;
    Ok(after)
}

fn main(rt: HostRuntime) -> anyhow::Result<()> {
    let mut case = Case::new(
        rt.alloc(),
        &mut Numbers::read(rt.alloc(), "0 0 0 0 0 0 0 0 0 0".split_whitespace())?,
    )?;
    for line in BufReader::new(rt.alloc(), rt.stdin())?.lines(rt.alloc()) {
        case = step(&rt, case, line?.as_str())?;
    }
    Ok(())
}
