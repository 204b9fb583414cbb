// Compares two netlists, which stand one after the other on standard input, by trying every pattern. The lines
// of `main` stand in the comparers too, since no contract can say what a shared function reads and prints.
#![tactic(auto)]

mod answer;

use answer::answer;
use std::io::{Read, Write};

fn main(rt: HostRuntime) -> anyhow::Result<()> {
    let mut input = Vec::new(rt.alloc());
    rt.stdin().read_to_end(&mut input)?;
    let output = answer(rt.alloc(), &input)?;
    rt.stdout().write_all(&output)?;
    Ok(())
}
