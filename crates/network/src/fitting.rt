// The greatest positions of a network's pillars, or a chain that is too short.
ghost use Rattle.std.specs.Prelude.{◌≡◌, ℕ, ◌<◌, pos, Err, slice_index_or};
ghost use Rattle.chains.specs.Pillars.{listed};
ghost use Rattle.network.specs.Layout.{apart};
ghost use Rattle.network.specs.Chain.{Short};
ghost use Rattle.network.specs.Networks.{network_layout, SolvedBoth, Fitted};

use super::answer::{Chain, Positions, ShortChain, Unfit};
use super::axis::Axis;
use super::shape::Network;
use super::sound::Checked;
use std::array;

// How far apart two readings are.
fn length_between(p: (i32, i32), q: (i32, i32)) -> u64
    ensures { result ≡ apart p q }
{
    p.0.abs_diff(q.0).max(p.1.abs_diff(q.1)) as u64
}

// The readings with these sums and these differences.
fn paired(s: [i32; 12], t: [i32; 12]) -> [(i32, i32); 12]
    ensures { (j : ℕ) → slice_index_or result j (pos 0, pos 0) ≡ (slice_index_or s j (pos 0), slice_index_or t j (pos 0)) }
{
    array::from_fn(|j| (s[j], t[j]))
}

impl Checked<'_> {
    // Both line problems: the greatest positions, or a chain that is too short on one axis.
    fn solve(&self) -> Result<Positions, Chain>
        ensures { SolvedBoth (network_layout self.now.network) result }
    {
        let s = self.on_axis(Axis::First)?;
        let t = self.on_axis(Axis::Second)?;
        Ok(Positions {
            readings: paired(s, t),
        })
    }

    // The chain as it is told: from the point with the lower number, and with the gap between its points.
    fn told(&self, chain: Chain) -> ShortChain
        requires { SolvedBoth (network_layout self.now.network) (Err chain) }
        ensures chain { Short (network_layout self.now.network) result.chain.from result.chain.to (listed result.chain.pillars) result.gap result.chain.total }
        ensures order { result.chain.from < result.chain.to }
    {
        let chain = if chain.from < chain.to {
            chain
        } else {
            chain.turned()
        };
        let points = self.network.points;
        let gap = length_between(points[chain.from as usize], points[chain.to as usize]);
        ShortChain { chain, gap }
    }

    // The greatest positions, or the chain as it is told.
    fn fitted(&self) -> Result<Positions, Unfit>
        ensures { Fitted self.now.network result }
    {
        // not by `map_err`, whose closure would have to require what `told` requires
        match self.solve() {
            Ok(positions) => Ok(positions),
            Err(chain) => Err(Unfit::TooShort(self.told(chain))),
        }
    }
}

// The greatest positions in the field that meet the network. Where none meet it, a chain between two points that is too short, told from the point
// with the lower number; and then no positions meet it, in the field or not. Where the tables make no network, it says so.
pub fn fit(network: &Network) -> Result<Positions, Unfit>
    ensures { Fitted network.now result }
{
    // not by `?` (tried): the check loses the ghost field of `Checked` on the way, since its error is copied
    match Checked::try_from(*network) {
        Ok(checked) => checked.fitted(),
        Err(unfit) => Err(unfit),
    }
}
