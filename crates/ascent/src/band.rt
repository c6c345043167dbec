// Padded arrays as rows, and rows as padded arrays.
ghost use Rattle.std.specs.Prelude.{◌*◌, ◌/◌, ◌%◌, ◌+◌, ◌<◌, ◌≤◌, ◌≡◌, replicate, pos};
ghost use Rattle.integer.specs.Places.{at, Bounded, Stretch};
ghost use Rattle.commands.specs.Ranges.{most_multiplier};
ghost use Rattle.primal.specs.Ranges.{most_residual};
ghost use Rattle.banded.specs.Floats.{float};
ghost use Rattle.banded.specs.Rows.{Holds};
ghost use Rattle.ascent.specs.Held.{banded_next};

use crate::multiplier::next_multiplier;

// The padded place of row a.
fn place_of(a: usize, n: usize) -> usize
    requires { (1 ≤ n) × (n ≤ 6) × (a < 12 * n) }
    ensures { (result ≡ 6 * (a / n) + a % n) × (result < 72) }
{
    6 * (a / n) + a % n
}

// The residuals as right sides, by rows.
pub fn right_sides(e: &[i64; 72], n: usize, count: usize) -> [f64; 72]
    requires { (1 ≤ n) × (n ≤ 6) × (count ≤ 12 * n) × Bounded most_residual e.now }
    ensures { Holds count (λ a. float (at e.now (6 * (a / n) + a % n))) result }
{
    let mut sides = [0.0f64; 72];
    for a in 0..count {
        sides[a] = e[place_of(a, n)] as f64;
    }
    sides
}

// The next multiplier at a padded place.
fn multiplier_at(y: &[i64; 72], d: &[f64; 72], n: usize, p: usize) -> i64
    requires { (n ≤ 6) × (p < 72) × Bounded most_multiplier y.now }
    ensures { result ≡ banded_next n y.now d.now p }
{
    let i = p % 6;
    if i < n {
        return next_multiplier(y[p], d[p / 6 * n + i]);
    }
    0
}

// Step 4, from d by rows.
pub fn multipliers_by_rows(y: &[i64; 72], d: &[f64; 72], n: usize, horizon: usize) -> [i64; 72]
    requires { (n ≤ 6) × (horizon ≤ 12) × Bounded most_multiplier y.now }
    ensures { Stretch 0 (6 * horizon) (banded_next n y.now d.now) (replicate 72 (pos 0)) result }
{
    let mut next = [0i64; 72];
    for p in 0..6 * horizon {
        next[p] = multiplier_at(y, d, n, p);
    }
    next
}
