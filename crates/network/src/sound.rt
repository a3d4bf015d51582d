// Tables that make a network.
ghost use Rattle.std.specs.Prelude.{◌≡◌, ℕ, ◌<◌, ◌≤◌, length, MatchBool, slice_index_or};
ghost use Rattle.chains.specs.Measures.{no_steps};
ghost use Rattle.std.proofs.Props.{props};
ghost use Rattle.network.specs.Tables.{Near, point_in, reach_in, Sound};

use super::answer::Unfit;
use super::shape::Network;
use chains::measure::Steps;

// Whether both numbers of a reading are at most 100,000 from 0.
fn is_near(p: (i32, i32)) -> bool
    ensures { MatchBool result (Near p) (Near p → ⊥) }
{
    p.0.unsigned_abs() <= 100_000 && p.1.unsigned_abs() <= 100_000
}

// Whether all readings are.
fn all_near(points: &[(i32, i32)]) -> bool
    ensures { MatchBool result ((i : ℕ) → i < length points.now → Near (point_in points.now i)) ((i : ℕ) × (i < length points.now) × (Near (point_in points.now i) → ⊥)) }
{
    points.iter().all(|p| is_near(*p))
}

// The reach in a row to the pillar j.
fn reach(row: &[Steps; 12], j: usize) -> Steps
    requires { j < 12 }
    ensures { result ≡ slice_index_or row.now j no_steps }
{
    row[j]
}

// Whether the row of j is the column of j.
fn row_even(links: &[[Steps; 12]], j: usize) -> bool
    requires few { length links.now ≤ 12 }
    requires row { j < length links.now }
    ensures { MatchBool result ((k : ℕ) → k < length links.now → reach_in links.now j k ≡ reach_in links.now k j) ((k : ℕ) × (k < length links.now) × (reach_in links.now j k ≡ reach_in links.now k j → ⊥)) }
{
    links
        .iter()
        .enumerate()
        .all(|(k, row)| reach(&links[j], k) == reach(row, j))
}

// Whether the reach between each two pillars is the same from either end.
fn all_even(links: &[[Steps; 12]]) -> bool
    requires { length links.now ≤ 12 }
    ensures { MatchBool result ((j k : ℕ) → j < length links.now → k < length links.now → reach_in links.now j k ≡ reach_in links.now k j) ((j k : ℕ) × (j < length links.now) × (k < length links.now) × (reach_in links.now j k ≡ reach_in links.now k j → ⊥)) }
{
    links.iter().enumerate().all(|(j, _)| row_even(links, j))
}

// A network whose tables were checked.
#[derive(Clone, Copy)]
pub(crate) struct Checked<'a> {
    pub network: Network<'a>,
    ghost sound: { Sound network.points.now network.feeders.now network.links.now } by { Prim.hlevel props },
}

impl<'a> TryFrom<Network<'a>> for Checked<'a> {
    ghost use Rattle.std.specs.Prelude.{MatchResult};
    ghost use Rattle.network.specs.Networks.{SoundNetwork};
    ghost use Rattle.network.specs.declared.answer.Unfit.TheVariants.{NoNetwork};

    type Error = Unfit;

    ghost try_from_gives = { λ N r. MatchResult r (λ c. c.network ≡ N) (λ e. (e ≡ NoNetwork) × (SoundNetwork N → ⊥)) };

    fn try_from(network: Network<'a>) -> Result<Checked<'a>, Unfit> {
        let Network {
            points,
            feeders,
            links,
        } = network;
        if !(1..=52).contains(&points.len())
            || feeders.len() != points.len()
            || !(1..=12).contains(&links.len())
            || !all_near(points)
            || !all_even(links)
        {
            return Err(Unfit::NoNetwork);
        }
        Ok(Checked { network })
    }
}
