// A network: fixed points with their readings, pillars, and a reach for each run.
use chains::measure::Steps;

// `points` has the reading of each fixed point, `feeders` a row for each point with its reach to each pillar, and `links` a row for each pillar
// with its reach to each pillar. Such tables are a network where there are 1 to 52 points, each number of a reading at most 100,000 from 0,
// 1 to 12 pillars, a row of feeders for each point, and links that are the same from either end. What a row holds behind the last pillar says nothing.
#[derive(Clone, Copy)]
pub struct Network<'a> {
    pub points: &'a [(i32, i32)],
    pub feeders: &'a [[Steps; 12]],
    pub links: &'a [[Steps; 12]],
}
