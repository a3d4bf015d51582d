// Fits a handful of small networks, searches best chains in two measures, and prints what it found.
#![tactic(auto)]

mod networks;
mod show;

use std::io;

fn main(rt: HostRuntime) -> io::Result<()> {
    networks::one_pillar(&rt)?;
    networks::two_pillars(&rt)?;
    networks::told_from_the_lower(&rt)?;
    networks::square(&rt)?;
    networks::no_network(&rt)?;
    networks::full_size(&rt)?;
    show::chains(&rt)
}
