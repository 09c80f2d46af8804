// Runs the program's call on each case of standard input, and prints what it answers.
#![tactic(auto)]

use case_files::run_input;
use program::answer;

fn main(rt: HostRuntime) -> anyhow::Result<()> {
    run_input(&rt, |text| answer(rt.alloc(), text))
}
