// Steps 1 and 4 of a round on one number.
ghost use Rattle.std.specs.Prelude.{◌≤◌, ◌≡◌, pos, nat_abs};
ghost use Rattle.integer.specs.Order.{◌≼◌};
ghost use Rattle.commands.specs.Ranges.{most_gain, most_rounds, most_multiplier};
ghost use Rattle.primal.specs.Ranges.{most_residual};
ghost use Rattle.steps.specs.Steps.{ahead, ascended, gain_correction};

use commands::range::{LEAST_MULTIPLIER, MOST_MULTIPLIER};
use integer::number::{limit, quotient};
use primal::lifted::lifted_quotient;

// The multiplier ahead of y in round k, from the one before y.
pub fn ahead_of(k: i64, y: i64, previous: i64) -> i64
    requires { (pos 0 ≼ k) × (k ≼ pos most_rounds) × (nat_abs y ≤ most_multiplier) × (nat_abs previous ≤ most_multiplier) }
    ensures { result ≡ ahead k y previous }
{
    limit(
        y + quotient((k - 1) * (y - previous), k + 2),
        LEAST_MULTIPLIER,
        MOST_MULTIPLIER,
    )
}

// The multiplier that follows y by command 50, from the residual e and the step size.
pub fn ascended_of(gain: i64, y: i64, e: i64) -> i64
    requires { (nat_abs gain ≤ most_gain) × (nat_abs y ≤ most_multiplier) × (nat_abs e ≤ most_residual) }
    ensures { result ≡ ascended y (gain_correction gain e) }
{
    limit(
        y + lifted_quotient(e * gain + 32768, 65536),
        LEAST_MULTIPLIER,
        MOST_MULTIPLIER,
    )
}
