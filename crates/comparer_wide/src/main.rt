// The same comparison as `comparer`, for netlists of up to 99,999 lines and a table of 1,048,576 places. The lines of `main`
// stand in both programs, since no contract can say what a shared function reads and prints.
#![tactic(auto)]

use report::Workspace;
use std::io::{Read, Write};

fn main(rt: HostRuntime) -> anyhow::Result<()> {
    let mut input = Vec::new(rt.alloc());
    rt.stdin().read_to_end(&mut input)?;
    let mut workspace = Workspace::wide(rt.alloc())?;
    let printed = workspace.answer(rt.alloc(), &input)?;
    rt.stdout().write_all(&printed)?;
    Ok(())
}
