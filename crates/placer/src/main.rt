// The program: standard input served line by line to standard output.
#![tactic(auto)]

use service::run::{MOST_SERVED, serve_input};
use std::io::{Read, Write};

fn run(rt: &HostRuntime) -> anyhow::Result<()> {
    let mut input = Vec::new(rt.alloc());
    // one byte more than is served tells that the input is too long
    rt.stdin()
        .take(MOST_SERVED as u64 + 1)
        .read_to_end(&mut input)?;
    let output = serve_input(rt.alloc(), input.as_slice())?;
    rt.stdout().write_all(output.as_slice())?;
    Ok(())
}

fn main(rt: HostRuntime) -> anyhow::Result<()> {
    run(&rt)
}
