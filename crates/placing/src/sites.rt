// The sites of a fit, and their halves in the caller's list.

ghost use Rattle.std.specs.Prelude.{◌≡◌, ℕ, ◌*◌, ◌<◌, ◌≤◌, ◌++◌, length, drop};
ghost use Rattle.network.specs.Networks.{position_in};
ghost use Rattle.network.specs.Tables.{Near};
ghost use Rattle.yard.specs.Grid.{IsReading};
ghost use Rattle.runs.specs.Levels.{site_at};
ghost use Rattle.runs.specs.Dearest.{spots_of};
ghost use Rattle.placing.specs.Steps.{halves_of};

use network::answer::Positions;
use std::array;
use yard::site::Site;

// The site with a reading, or the origin where the reading is too far.
fn site_of(reading: (i32, i32), origin: Site) -> Site
    ensures { Near reading → IsReading result.hx result.hy reading }
{
    let (sum, difference) = reading;
    Site::with_reading(sum, difference).unwrap_or(origin)
}

// The sites with the readings of the first n pillars.
pub(crate) fn sites_of(positions: &Positions, n: usize) -> [Site; 12]
    ensures { (j : ℕ) → j < n → j < 12 → Near (position_in positions.now j) → IsReading (site_at (spots_of result) j).hx (site_at (spots_of result) j).hy (position_in positions.now j) }
{
    let Some(origin) = Site::at(0, 0) else {
        unreachable()
    };
    array::from_fn(|p| {
        if p < n {
            site_of(positions.readings[p], origin)
        } else {
            origin
        }
    })
}

// The halves of each site at the head of the list, written by their places: what is written through `chunks_exact_mut` is not known to the proof.
pub(crate) fn write_halves(sites: &[Site], list: &mut [i32])
    requires { 2 * length sites.now ≤ length list.old }
    ensures { list.new ≡ halves_of (spots_of sites.now) ++ drop (2 * length sites.now) list.old }
{
    for (p, site) in sites.iter().enumerate() {
        let (hx, hy) = site.halves();
        list[2 * p] = hx;
        list[2 * p + 1] = hy;
    }
}
