// The search for the best chains from outside to each pillar: one text for every measure.
ghost use Rattle.std.specs.Prelude.{◌≡◌, ℕ, ◌<◌, ◌≤◌, length, if◌then◌else◌, IfOk, MatchResult};
ghost use Rattle.chains.specs.Chains.{PlanFits, BestFound, StaysBehind, NoneBehind, value_at, run_at, pillar_at};

use super::marks::Marks;
use super::measure::Measure;

// The tables of a call do not fit together.
#[derive(Clone, Copy, PartialEq, Eq, Debug)]
pub struct Misfit;

// Every pillar's best chain so far is the one that is entered at it. Behind the last pillar nothing changes.
fn enter<M: Measure>(first: &[M], best: &mut [M; 12], before: &mut [u8; 12])
    requires { length first.now ≤ 12 }
    ensures best { (v : ℕ) → v < length first.now → value_at M.empty best.new v ≡ value_at M.empty first.now v }
    ensures before { (v : ℕ) → v < length first.now → pillar_at before.new v ≡ v }
    ensures behind { StaysBehind M.empty (length first.now) best.old before.old best.new before.new }
{
    for (v, value) in first.iter().enumerate() {
        best[v] = *value;
        before[v] = v as u8;
    }
}

// Offers each of the n pillars the chain that goes on from the pillar u, where it has the value `from`, by the run in `row`.
// A pillar takes it where that is better than the best chain to it so far. By numbers and not a zip (tried): what an `iter_mut` inside an adapter writes is not known to the proof.
fn offer<M: Measure>(
    n: usize,
    u: u8,
    from: M,
    row: &[M; 12],
    best: &mut [M; 12],
    before: &mut [u8; 12],
)
    requires { n ≤ 12 }
    ensures best { (v : ℕ) → v < n → value_at M.empty best.new v ≡ (if M.leq (value_at M.empty best.old v) (M.op from (value_at M.empty row.now v)) then value_at M.empty best.old v else M.op from (value_at M.empty row.now v)) }
    ensures before { (v : ℕ) → v < n → pillar_at before.new v ≡ (if M.leq (value_at M.empty best.old v) (M.op from (value_at M.empty row.now v)) then pillar_at before.old v else u) }
    ensures behind { StaysBehind M.empty n best.old before.old best.new before.new }
{
    for (v, run) in row[..n].iter().enumerate() {
        let through = from.join(*run);
        if !best[v].at_least_as_good(through) {
            best[v] = through;
            before[v] = u;
        }
    }
}

// The search itself, for the two that are public. (Their two tables are looked at here alone: a struct of both would be no plainer.)
pub(crate) fn search<M: Measure>(
    first: &[M],
    runs: &[[M; 12]],
    best: &mut [M; 12],
    before: &mut [u8; 12],
) -> Result<(), Misfit>
    ensures { MatchResult result (λ _. PlanFits first.now runs.now × BestFound M.op M.leq (value_at M.empty first.now) (run_at M.empty runs.now) (length first.now) (value_at M.empty best.new) (pillar_at before.new) × StaysBehind M.empty (length first.now) best.old before.old best.new before.new) (λ _. PlanFits first.now runs.now → ⊥) }
{
    let n = first.len();
    if n > 12 || runs.len() != n {
        return Err(Misfit);
    }
    enter(first, best, before);
    let mut marks = Marks::new(n);
    while let Some(u) = marks.nearest(n, best) {
        marks.finish(u);
        offer(n, u as u8, best[u], &runs[u], best, before);
    }
    Ok(())
}

// Stands where there is no pillar before.
const NO_PILLAR: u8 = 255;

// The best chains to the pillars of a plan: the value of each, and the pillar before its last one, or the last one itself where the chain begins there.
// Behind the last pillar stand the value of the empty chain and NO_PILLAR, so that `chain_to` reads no chain there.
// Two arrays, here and in the search, and not one of pairs (tried): `best_chain_to` would have to require that twelve pairs of its M fit in memory, as twelve of M do by the type of `runs`.
// T is the table of values, `[M; 12]`: over M itself the struct would have each caller with an open measure show that the two arrays fit in memory.
#[derive(Clone, Copy, PartialEq, Eq, Debug)]
pub struct BestChains<T> {
    pub values: T,
    pub before: [u8; 12],
}

// The best chain to each pillar of a plan, where `first` has the value of entering at each pillar and `runs` that of the run between each two.
// An error where there are more than twelve pillars, or `runs` has not a row for each.
pub fn best_chains<M: Measure>(first: &[M], runs: &[[M; 12]]) -> Result<BestChains<[M; 12]>, Misfit>
    ensures found { MatchResult result (λ best. PlanFits first.now runs.now × BestFound M.op M.leq (value_at M.empty first.now) (run_at M.empty runs.now) (length first.now) (value_at M.empty best.values) (pillar_at best.before)) (λ _. PlanFits first.now runs.now → ⊥) }
    ensures behind { IfOk result (λ best. NoneBehind M.empty (length first.now) best.values best.before) }
{
    let mut values = [M::none(); 12];
    let mut before = [NO_PILLAR; 12];
    search(first, runs, &mut values, &mut before)?;
    Ok(BestChains { values, before })
}
