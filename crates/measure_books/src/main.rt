// Measures the book by names, and prints the times on standard error.
#![tactic(auto)]

mod books;

use books::measure_books;

fn main(rt: HostRuntime) -> anyhow::Result<()> {
    measure_books(&rt)
}
