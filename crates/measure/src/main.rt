// Measures the larger tasks, and prints the times on standard error.
#![tactic(auto)]

mod settles;
mod shapes;
mod texts_read;

use settles::measure_settles;
use texts_read::measure_texts;

fn main(rt: HostRuntime) -> anyhow::Result<()> {
    measure_texts(&rt)?;
    measure_settles(&rt)
}
