// Vets the declaration text on standard input.
#![tactic(auto)]

use std::io;
use std::io::{Read, Write};
use vetting::{MAX_INPUT, vet};

fn main(rt: HostRuntime) -> io::Result<()> {
    let mut input = Vec::new(rt.alloc());
    rt.stdin()
        .take(MAX_INPUT as u64 + 1)
        .read_to_end(&mut input)?;
    let answer = vet(rt.alloc(), &input)?;
    rt.stdout().write_all(&answer)
}
