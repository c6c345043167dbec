// The next multiplier by command 51.
ghost use Rattle.std.specs.Prelude.{◌≤◌, ◌≡◌, nat_abs};
ghost use Rattle.commands.specs.Ranges.{most_multiplier};
ghost use Rattle.steps.specs.Steps.{ascended};
ghost use Rattle.ascent.specs.Correction.{whole_nearest};

use commands::range::{LEAST_MULTIPLIER, MOST_MULTIPLIER};
use float::nearest;
use integer::number::limit;

// The multiplier that follows y, from d. Only for a finite d is d - d 0. From 2^25 on d alone decides:
// it is limited before it is made a whole number, since it can be far beyond an i64.
pub fn next_multiplier(y: i64, d: f64) -> i64
    requires { nat_abs y ≤ most_multiplier }
    ensures { result ≡ ascended y (whole_nearest d) }
{
    if d - d != 0.0 {
        return y;
    }
    if 33554432.0 <= d {
        return MOST_MULTIPLIER;
    }
    if d <= -33554432.0 {
        return LEAST_MULTIPLIER;
    }
    limit(y + nearest(d), LEAST_MULTIPLIER, MOST_MULTIPLIER)
}
