// Runs a script of cases over walks and piles of layers, and prints a line for each question, trim and nearest.
// A line of the script is a walk, a pile over it, and what is asked of the pile; all in numbers.
#![tactic(auto)]

mod asked;
mod cases;
mod numbers;
mod shape;

use case_numbers::Numbers;
use cases::run_case;
use std::io::{BufRead, BufReader};

fn main(rt: HostRuntime) -> anyhow::Result<()> {
    for line in BufReader::new(rt.alloc(), rt.stdin())?.lines(rt.alloc()) {
        let mut numbers = Numbers::read(rt.alloc(), line?.split_whitespace())?;
        run_case(&rt, &mut numbers)?;
    }
    Ok(())
}
