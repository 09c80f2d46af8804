// Replays the script of each case of standard input, and prints what is printed for it.
#![tactic(auto)]

use case_files::run_input;
use script::replay::replayed;

fn main(rt: HostRuntime) -> anyhow::Result<()> {
    run_input(&rt, |script| replayed(rt.alloc(), script))
}
