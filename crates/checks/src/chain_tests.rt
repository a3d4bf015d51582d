// The search for best chains, called over a measure that is left open.

use arrayvec::ArrayVec;
use chains::measure::{Measure, Steps};
use chains::read::chain_to;
use chains::search::best_chains;

// The best chain to the pillar v, for any measure; none where v is no pillar. A caller owes nothing for the measure.
fn best_to<M: Measure>(first: &[M], runs: &[[M; 12]], v: u8) -> Option<ArrayVec<u8, 12>> {
    let best = best_chains(first, runs).ok()?;
    chain_to(&best.before, v)
}

#[test]
fn no_chain_is_told_behind_the_last_pillar(rt: HostRuntime) {
    let far: Steps = None;
    let runs = [[far; 12]; 1];
    let there = best_to(&[Some(5)], &runs, 0);
    assert!(rt; matches!(there, Some(chain) if chain.as_slice() == [0].as_slice()));
    assert!(rt; best_to(&[Some(5)], &runs, 3).is_none());
}
