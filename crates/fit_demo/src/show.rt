// What is printed.
use chains::measure::{Steps, Tied};
use chains::one::best_chain_to;
use network::answer::Unfit;
use network::fitting::fit;
use network::shape::Network;
use std::io;

// Prints the pillars, and ends the line.
fn pillars(rt: &HostRuntime, list: &[u8]) -> io::Result<()> {
    for pillar in list {
        print!(rt; " {pillar}")?;
    }
    println!(rt; "")
}

// Prints what a fit of the network found.
pub fn fitted(
    rt: &HostRuntime,
    name: &str,
    points: &[(i32, i32)],
    feeders: &[[Steps; 12]],
    links: &[[Steps; 12]],
) -> io::Result<()> {
    println!(rt; "{name}:")?;
    let network = Network {
        points,
        feeders,
        links,
    };
    match fit(&network) {
        Ok(positions) => {
            for (j, (s, t)) in positions.readings.iter().take(links.len()).enumerate() {
                println!(rt; "  pillar {j} at sum {s}, difference {t}")?;
            }
            Ok(())
        }
        Err(Unfit::TooShort(short)) => {
            let (from, to) = (short.chain.from, short.chain.to);
            let (gap, total) = (short.gap, short.chain.total);
            print!(rt; "  too short: points {from} and {to}, gap {gap}, total {total}, pillars")?;
            pillars(rt, &short.chain.pillars)
        }
        Err(Unfit::NoNetwork) => println!(rt; "  no network"),
    }
}

// The best chain in steps to pillar 3, and by being tied to pillars 2 and 0.
pub fn chains(rt: &HostRuntime) -> io::Result<()> {
    let far = None;
    let mut runs = [[far; 12]; 4];
    runs[0][1] = Some(2);
    runs[1][2] = Some(3);
    runs[0][2] = Some(10);
    runs[2][3] = Some(1);
    in_steps(rt, &[Some(5), far, far, Some(20)], &runs)?;
    let no = Tied { yes: false };
    let yes = Tied { yes: true };
    let mut ties = [[no; 12]; 3];
    ties[1][2] = yes;
    tied(rt, &[no, yes, no], &ties, 2)?;
    tied(rt, &[no, yes, no], &ties, 0)
}

fn in_steps(rt: &HostRuntime, first: &[Steps], runs: &[[Steps; 12]]) -> io::Result<()> {
    if let Ok(found) = best_chain_to(first, runs, 3) {
        if let Some(steps) = found.value {
            print!(rt; "{steps} steps to pillar 3, pillars")?;
            pillars(rt, &found.pillars)?;
        }
    }
    Ok(())
}

fn tied(rt: &HostRuntime, first: &[Tied], ties: &[[Tied; 12]], v: u8) -> io::Result<()> {
    if let Ok(found) = best_chain_to(first, ties, v) {
        let yes = found.value.yes;
        print!(rt; "pillar {v} tied: {yes}, pillars")?;
        pillars(rt, &found.pillars)?;
    }
    Ok(())
}
