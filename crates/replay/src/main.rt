// Replays the script on standard input on one book.
#![tactic(auto)]

use script::replay::replayed;
use std::io;
use std::io::{Read, Write};

fn main(rt: HostRuntime) -> io::Result<()> {
    let mut input = Vec::new(rt.alloc());
    // Read whole: a script has no limit.
    rt.stdin().read_to_end(&mut input)?;
    let printed = replayed(rt.alloc(), &input)?;
    rt.stdout().write_all(&printed)
}
