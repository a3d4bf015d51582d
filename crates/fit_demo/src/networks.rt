// The networks.
use super::show::fitted;
use chains::measure::Steps;
use std::{array, io};

const FAR: Steps = None;

// A row of these reaches, and none limited behind them.
fn row(reaches: &[Steps]) -> [Steps; 12] {
    array::from_fn(|j| reaches.get(j).copied().unwrap_or(FAR))
}

// One pillar between two points ten apart, whose reaches just meet.
pub fn one_pillar(rt: &HostRuntime) -> io::Result<()> {
    let points = [(0, 0), (10, 10)];
    let feeders = [row(&[Some(4)]), row(&[Some(6)])];
    let links = [row(&[FAR])];
    fitted(rt, "one pillar, reaches 4 and 6", &points, &feeders, &links)
}

// Two pillars in a row between two points twelve apart, whose reaches miss one step.
pub fn two_pillars(rt: &HostRuntime) -> io::Result<()> {
    let points = [(0, 0), (12, 12)];
    let feeders = [row(&[Some(5), FAR]), row(&[FAR, Some(4)])];
    let links = [row(&[FAR, Some(2)]), row(&[Some(2), FAR])];
    fitted(
        rt,
        "two pillars, reaches 5, 2 and 4",
        &points,
        &feeders,
        &links,
    )
}

// A short chain that goes up from point 1 to point 0, by pillar 2 and pillar 0. It is told from point 0.
pub fn told_from_the_lower(rt: &HostRuntime) -> io::Result<()> {
    let points = [(9, 30), (9, -10), (0, 0)];
    let feeders = [
        row(&[Some(7), FAR, FAR]),
        row(&[FAR, FAR, Some(21)]),
        row(&[FAR, FAR, FAR]),
    ];
    let links = [
        row(&[FAR, FAR, Some(11)]),
        row(&[FAR, FAR, FAR]),
        row(&[Some(11), FAR, FAR]),
    ];
    fitted(
        rt,
        "three pillars, one of them free",
        &points,
        &feeders,
        &links,
    )
}

// Four points on the corners of a square. A pillar that no reach holds goes to the upper end of the field.
pub fn square(rt: &HostRuntime) -> io::Result<()> {
    let points = [(0, 0), (10, 10), (10, -10), (20, 0)];
    let free = row(&[FAR, FAR]);
    let feeders = [row(&[FAR, Some(0)]), free, free, free];
    let links = [free, free];
    fitted(
        rt,
        "a free pillar, and one at a point",
        &points,
        &feeders,
        &links,
    )
}

// A link that is not the same from either end.
pub fn no_network(rt: &HostRuntime) -> io::Result<()> {
    let points = [(0, 0)];
    let feeders = [row(&[FAR, FAR])];
    let links = [row(&[FAR, Some(2)]), row(&[FAR, FAR])];
    fitted(rt, "an uneven link", &points, &feeders, &links)
}

// The next of a row of numbers that look mixed.
fn mixed(x: u32) -> u32 {
    x.wrapping_mul(1_664_525).wrapping_add(1_013_904_223)
}

// Forty points and twelve pillars.
pub fn full_size(rt: &HostRuntime) -> io::Result<()> {
    let mut points = [(0, 0); 40];
    let mut feeders = [[FAR; 12]; 40];
    let links = [[Some(1_000); 12]; 12];
    let mut x = 7;
    for (point, row) in points.iter_mut().zip(&mut feeders) {
        x = mixed(x);
        let s = (x >> 16) as i32;
        x = mixed(x);
        let t = (x >> 16) as i32;
        *point = (s, t);
        for reach in row {
            x = mixed(x);
            *reach = Some(40_000 + (x >> 16) as u64);
        }
    }
    fitted(
        rt,
        "forty points and twelve pillars",
        &points,
        &feeders,
        &links,
    )
}
