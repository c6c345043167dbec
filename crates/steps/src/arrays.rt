// Step 1 of a round on whole arrays, at padded places.
ghost use Rattle.std.specs.Prelude.{◌*◌, ◌≤◌, ◌≡◌, length, pos};
ghost use Rattle.integer.specs.Order.{◌≼◌};
ghost use Rattle.integer.specs.Places.{at, Bounded, Stretch};
ghost use Rattle.commands.specs.Ranges.{most_rounds, most_multiplier};
ghost use Rattle.steps.specs.Steps.{ahead};

use crate::numbers::ahead_of;

// Step 1 of round k: y~ into `next`.
pub fn multipliers_ahead<'a>(
    next: &mut [i64; 72],
    y: &'a [i64; 72],
    previous: &'a [i64; 72],
    k: i64,
    horizon: usize,
)
    requires { (pos 0 ≼ k) × (k ≼ pos most_rounds) × (horizon ≤ 12) × Bounded most_multiplier y.now × Bounded most_multiplier previous.now × (length next.old ≡ 72) }
    ensures { Stretch 0 (6 * horizon) (λ p. ahead k (at y.now p) (at previous.now p)) next.old next.new }
{
    for p in 0..6 * horizon {
        next[p] = ahead_of(k, y[p], previous[p]);
    }
}
