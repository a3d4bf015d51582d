ghost use Rattle.std.specs.Prelude.{◌≡◌, max, ℤ, ◌-ℤ◌, MatchOption, unsigned_abs};
ghost use Rattle.yard.specs.Grid.{IsSite, IsReading, FarReading, distance};

use crate::site::Site;

impl Site {
    // The site of these halves, if they are those of one.
    pub fn at(hx: i32, hy: i32) -> Option<Site>
        ensures { MatchOption result (IsSite hx hy → ⊥) (λ s. (s.hx ≡ hx) × (s.hy ≡ hy)) }
    {
        if hx.unsigned_abs() > 200_000 || hy.unsigned_abs() > 200_000 {
            return None;
        }
        if hx.unsigned_abs() % 2 != hy.unsigned_abs() % 2 {
            return None;
        }
        Some(Site { hx, hy })
    }

    // The site with this reading, if it is near enough.
    pub fn with_reading(sum: i32, difference: i32) -> Option<Site>
        ensures { MatchOption result (FarReading sum difference) (λ s. IsReading s.hx s.hy (sum, difference)) }
    {
        let hx = sum.checked_add(difference)?;
        let hy = sum.checked_sub(difference)?;
        Site::at(hx, hy)
    }

    // Twice its x and twice its y.
    pub fn halves(&self) -> (i32, i32)
        ensures { result ≡ (self.now.hx, self.now.hy) }
    {
        (self.hx, self.hy)
    }

    // Its sum and its difference, which are whole.
    pub fn reading(&self) -> (i32, i32)
        ensures { IsReading self.now.hx self.now.hy result }
    {
        ((self.hx + self.hy) / 2, (self.hx - self.hy) / 2)
    }

    // The length of trench to another site, which is the larger of the two gaps between their readings.
    pub fn length(&self, other: &Site) -> u32
        ensures steps { result ≡ distance self.now.hx self.now.hy other.now.hx other.now.hy }
        ensures gaps { (p q : ℤ × ℤ) → IsReading self.now.hx self.now.hy p → IsReading other.now.hx other.now.hy q → result ≡ max (unsigned_abs (p.0 -ℤ q.0)) (unsigned_abs (p.1 -ℤ q.1)) }
    {
        let (sum, difference) = self.reading();
        let (other_sum, other_difference) = other.reading();
        sum.abs_diff(other_sum)
            .max(difference.abs_diff(other_difference))
    }
}
