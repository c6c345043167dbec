// Lent multipliers.
ghost use Rattle.std.specs.Prelude.{◌+◌, ◌*◌, ◌<◌, ◌≤◌, ◌≡◌, false, length};
ghost use Rattle.integer.specs.Places.{Stretch};
ghost use Rattle.problem.specs.Model.{multipliers_of};
ghost use Rattle.primal.specs.Held.{HeldMultipliers};
ghost use Rattle.lent.specs.Checks.{wrong_multipliers};

use commands::range::{LEAST_MULTIPLIER, MOST_MULTIPLIER};
use integer::number::is_outside;

// Test 12: whether a multiplier is outside its range.
pub fn is_any_outside(multipliers: &[i32]) -> bool
    ensures { result ≡ wrong_multipliers multipliers.now }
{
    multipliers.iter().any(|y| is_outside(*y as i64, LEAST_MULTIPLIER, MOST_MULTIPLIER))
}

// Puts the n multipliers of step k at its places.
fn pad_step(y: &mut [i64; 72], multipliers: &[i32], n: usize, k: usize)
    requires { (k < 12) × (n ≤ 6) × (k * n + n ≤ length multipliers.now) × (length y.old ≡ 72) }
    ensures { Stretch (6 * k) n (multipliers_of n multipliers.now k) y.old y.new }
{
    for i in 0..n {
        y[6 * k + i] = multipliers[k * n + i] as i64;
    }
}

// Multipliers in range, at padded places.
pub fn padded_multipliers(multipliers: &[i32], n: usize, horizon: usize) -> [i64; 72]
    requires { (n ≤ 6) × (horizon ≤ 12) × (length multipliers.now ≡ horizon * n) × (wrong_multipliers multipliers.now ≡ false) }
    ensures { HeldMultipliers n horizon (multipliers_of n multipliers.now) result }
{
    let mut y = [0i64; 72];
    for k in 0..horizon {
        pad_step(&mut y, multipliers, n, k);
    }
    y
}
