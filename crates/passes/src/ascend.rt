// Step 4 by command 50: each residual goes straight into the next y, and into the bound on the floor.
ghost use Rattle.std.specs.Prelude.{◌*◌, ◌<◌, ◌≤◌, ◌≡◌, length, replicate, pos, nat_abs};
ghost use Rattle.integer.specs.Places.{Bounded, Stretch, Steps};
ghost use Rattle.integer.specs.Sum.{sum};
ghost use Rattle.commands.specs.Ranges.{most_entry, most_number, most_gain, most_multiplier};
ghost use Rattle.primal.specs.Padded.{padded};
ghost use Rattle.primal.specs.Ranges.{most_residual};
ghost use Rattle.steps.specs.Steps.{ascended, gain_correction};
ghost use Rattle.passes.specs.Sums.{most_forced, residual_by, pull};

use integer::number::size;
use primal::model::from_states;
use steps::numbers::ascended_of;

// The residual e(k,i).
fn residual_at<'a>(
    a: &'a [i64; 36],
    forced: &'a [i64; 72],
    start: &'a [i64; 6],
    v: &'a [i64; 120],
    k: usize,
    i: usize,
) -> i64
    requires { (k < 12) × (i < 6) × Bounded most_entry a.now × Bounded most_forced forced.now × Bounded most_number start.now × Bounded most_number v.now }
    ensures { result ≡ residual_by a.now forced.now start.now v.now k i }
{
    from_states(a, start, v, k, i) + forced[6 * k + i] - 4096 * v[10 * k + (4 + i)]
}

// y e - 2048 |y|.
fn pull_of(y: i64, e: i64) -> i64
    requires { (nat_abs y ≤ most_multiplier) × (nat_abs e ≤ most_residual) }
    ensures { result ≡ pull y e }
{
    y * e - 2048 * (size(y) as i64)
}

fn ascend_step<'a>(
    next: &mut [i64; 72],
    a: &'a [i64; 36],
    forced: &'a [i64; 72],
    start: &'a [i64; 6],
    v: &'a [i64; 120],
    y: &'a [i64; 72],
    gain: i64,
    k: usize,
) -> i64
    requires k_bound { (k < 12) × (length next.old ≡ 72) × (nat_abs gain ≤ most_gain) × Bounded most_multiplier y.now }
    requires bounded { Bounded most_entry a.now × Bounded most_forced forced.now × Bounded most_number start.now × Bounded most_number v.now }
    ensures stretch { Stretch (6 * k) 6
        (λ i. ascended (padded y.now k i) (gain_correction gain (residual_by a.now forced.now start.now v.now k i)))
        next.old next.new }
    ensures value { result ≡ sum 6 (λ i. pull (padded y.now k i) (residual_by a.now forced.now start.now v.now k i)) }
{
    let mut total: i64 = 0;
    for i in 0..6 {
        let e = residual_at(a, forced, start, v, k, i);
        next[6 * k + i] = ascended_of(gain, y[6 * k + i], e);
        total += pull_of(y[6 * k + i], e);
    }
    total
}

// Stores the next y; the sum of y e - 2048 |y|.
pub fn ascend<'a>(
    next: &mut [i64; 72],
    a: &'a [i64; 36],
    forced: &'a [i64; 72],
    start: &'a [i64; 6],
    v: &'a [i64; 120],
    y: &'a [i64; 72],
    gain: i64,
    horizon: usize,
) -> i64
    requires horizon_bound { (horizon ≤ 12) × (next.old ≡ replicate 72 (pos 0)) × (nat_abs gain ≤ most_gain) × Bounded most_multiplier y.now }
    requires bounded { Bounded most_entry a.now × Bounded most_forced forced.now × Bounded most_number start.now × Bounded most_number v.now }
    ensures steps { Steps 6 horizon
        (λ k i. ascended (padded y.now k i) (gain_correction gain (residual_by a.now forced.now start.now v.now k i)))
        next.new × (length next.new ≡ 72) }
    ensures value { result ≡ sum horizon (λ k. sum 6 (λ i. pull (padded y.now k i) (residual_by a.now forced.now start.now v.now k i))) }
{
    let mut total: i64 = 0;
    for k in 0..horizon {
        total += ascend_step(next, a, forced, start, v, y, gain, k);
    }
    total
}
