// The model on a padded plan.
ghost use Rattle.std.specs.Prelude.{◌*◌, ◌^◌, ◌<◌, ◌≤◌, ◌≡◌, length, pos, nat_abs, ◌-ℤ◌, ◌*ℤ◌};
ghost use Rattle.integer.specs.Places.{at, Bounded, Stretch, Steps};
ghost use Rattle.integer.specs.Sum.{sum};
ghost use Rattle.commands.specs.Ranges.{most_entry, most_number};
ghost use Rattle.problem.specs.Model.{state_at, model_sum, rounded};
ghost use Rattle.primal.specs.Padded.{state_matrix, input_matrix, padded_plan};
ghost use Rattle.primal.specs.Ranges.{most_forcing};

use crate::dot::dot;
use crate::lifted::lifted_quotient;

// What the states before step k add to S: the start's, or those of the step before.
pub fn from_states<'a>(
    a: &'a [i64; 36],
    start: &'a [i64; 6],
    v: &'a [i64; 120],
    k: usize,
    i: usize,
) -> i64
    requires { (k < 12) × (i < 6) × Bounded most_entry a.now × Bounded most_number start.now × Bounded most_number v.now }
    ensures { result ≡ sum 6 (λ j. state_matrix a.now i j *ℤ state_at (at start.now) (padded_plan v.now).x k j) }
{
    if k == 0 {
        return dot(a, 6 * i, start, 0, 1, 6);
    }
    dot(a, 6 * i, v, 10 * k - 6, 1, 6)
}

// S of x(k+1,i).
pub fn model_sum<'a>(
    a: &'a [i64; 36],
    b: &'a [i64; 24],
    drift: &'a [i64; 6],
    start: &'a [i64; 6],
    v: &'a [i64; 120],
    k: usize,
    i: usize,
) -> i64
    requires { (k < 12) × (i < 6) × Bounded most_entry a.now × Bounded most_entry b.now × Bounded most_forcing drift.now × Bounded most_number start.now × Bounded most_number v.now }
    ensures { result ≡ model_sum 6 4 (state_matrix a.now) (input_matrix b.now) (at drift.now)
        (state_at (at start.now) (padded_plan v.now).x k) ((padded_plan v.now).u k) i }
{
    let states = from_states(a, start, v, k, i);
    let inputs = dot(b, 4 * i, v, 10 * k, 1, 4);
    states + inputs + drift[i]
}

// The state that S gives. S is below 2^32 in size.
pub fn state_of(s: i64) -> i64
    requires { nat_abs s < 2 ^ 40 }
    ensures { result ≡ rounded s }
{
    lifted_quotient(s + 2048, 4096)
}

fn step_residuals<'a>(
    e: &mut [i64; 72],
    a: &'a [i64; 36],
    b: &'a [i64; 24],
    drift: &'a [i64; 6],
    start: &'a [i64; 6],
    v: &'a [i64; 120],
    k: usize,
)
    requires { (k < 12) × (length e.old ≡ 72) × Bounded most_entry a.now × Bounded most_entry b.now × Bounded most_forcing drift.now × Bounded most_number start.now × Bounded most_number v.now }
    ensures { Stretch (6 * k) 6
        (λ i. model_sum 6 4 (state_matrix a.now) (input_matrix b.now) (at drift.now)
        (state_at (at start.now) (padded_plan v.now).x k) ((padded_plan v.now).u k) i
        -ℤ pos 4096 *ℤ (padded_plan v.now).x k i) e.old e.new }
{
    for i in 0..6 {
        e[6 * k + i] = model_sum(a, b, drift, start, v, k, i) - 4096 * v[10 * k + (4 + i)];
    }
}

// The residuals e(k,i).
pub fn residuals<'a>(
    a: &'a [i64; 36],
    b: &'a [i64; 24],
    drift: &'a [i64; 6],
    start: &'a [i64; 6],
    v: &'a [i64; 120],
    horizon: usize,
) -> [i64; 72]
    requires { (horizon ≤ 12) × Bounded most_entry a.now × Bounded most_entry b.now × Bounded most_forcing drift.now × Bounded most_number start.now × Bounded most_number v.now }
    ensures { Steps 6 horizon
        (λ k i. model_sum 6 4 (state_matrix a.now) (input_matrix b.now) (at drift.now)
        (state_at (at start.now) (padded_plan v.now).x k) ((padded_plan v.now).u k) i
        -ℤ pos 4096 *ℤ (padded_plan v.now).x k i) result }
{
    let mut e = [0i64; 72];
    for k in 0..horizon {
        step_residuals(&mut e, a, b, drift, start, v, k);
    }
    e
}
