// The best chain to one pillar.
ghost use Rattle.std.specs.Prelude.{length, MatchResult};
ghost use Rattle.chains.specs.Chains.{value_at, run_at};
ghost use Rattle.chains.specs.Along.{BestTo, AsksFit};
ghost use Rattle.chains.specs.Pillars.{listed};

use super::measure::Measure;
use super::pillars::Pillars;
use super::read::chain_to;
use super::search::{Misfit, search};

// A best chain: its value, and its pillars from the first on.
#[derive(Clone, Copy, PartialEq, Eq, Debug)]
pub struct BestChain<M> {
    pub value: M,
    pub pillars: Pillars,
}

// A best chain to v. An error where the tables do not fit together, or v is no pillar.
pub fn best_chain_to<M: Measure>(
    first: &[M],
    runs: &[[M; 12]],
    v: u8,
) -> Result<BestChain<M>, Misfit>
    ensures { MatchResult result (λ b. AsksFit first.now runs.now v × BestTo M.op M.leq (value_at M.empty first.now) (run_at M.empty runs.now) (length first.now) v b.value (listed b.pillars)) (λ _. AsksFit first.now runs.now v → ⊥) }
{
    if v as usize >= first.len() {
        return Err(Misfit);
    }
    let mut values = [M::none(); 12];
    let mut before = [0; 12];
    search(first, runs, &mut values, &mut before)?;
    let Some(pillars) = chain_to(&before, v) else {
        unreachable()
    };
    Ok(BestChain {
        value: values[v as usize],
        pillars: Pillars::from(pillars),
    })
}
