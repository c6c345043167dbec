// The floor.
ghost use Rattle.std.specs.Prelude.{◌≤◌, ◌≡◌, [], pos, nat_abs, ◌-ℤ◌, ◌*ℤ◌};
ghost use Rattle.integer.specs.Places.{at, Bounded};
ghost use Rattle.integer.specs.Sum.{sum};
ghost use Rattle.commands.specs.Ranges.{most_entry, most_drift, most_number, most_multiplier};
ghost use Rattle.problem.specs.Dual.{adjoint, constant, sizes, floor};
ghost use Rattle.primal.specs.Padded.{state_matrix, padded, padded_problem};
ghost use Rattle.primal.specs.Ranges.{Tables};

use crate::pieces::pieces;
use crate::slopes::{adjoint_at, slopes};
use integer::number::size;
use primal::dot::dot;
use primal::total::total;
use problem::Term;

// The sum of y(k,i) w(i) over all k and i.
fn drifts(drift: &[i64; 6], y: &[i64; 72], horizon: usize) -> i64
    requires { (horizon ≤ 12) × Bounded most_drift drift.now × Bounded most_multiplier y.now }
    ensures { result ≡ sum horizon (λ k. sum 6 (λ i. padded y.now k i *ℤ at drift.now i)) }
{
    total(horizon, |k| dot(y, 6 * k, drift, 0, 1, 6))
}

// The sum of y(0,i) A(i,j) x(0,j) over i and j, over i first.
fn started<'a>(a: &'a [i64; 36], start: &'a [i64; 6], y: &'a [i64; 72]) -> i64
    requires { Bounded most_entry a.now × Bounded most_number start.now × Bounded most_multiplier y.now }
    ensures { result ≡ sum 6 (λ j. adjoint 6 (state_matrix a.now) (padded y.now) 0 j *ℤ at start.now j) }
{
    let mut total: i64 = 0;
    for j in 0..6 {
        total += adjoint_at(a, y, 0, j) * start[j];
    }
    total
}

// The sum of |y|.
fn sizes_of(y: &[i64; 72], count: usize) -> i64
    requires { (count ≤ 72) × Bounded most_multiplier y.now }
    ensures { result ≡ sum count (λ p. pos (nat_abs (at y.now p))) }
{
    total(count, |p| size(y[p]) as i64)
}

// What rounding takes off the floor: 2048 times the sum of |y|.
fn allowance(y: &[i64; 72], horizon: usize) -> i64
    requires { (horizon ≤ 12) × Bounded most_multiplier y.now }
    ensures { result ≡ pos 2048 *ℤ sizes 6 horizon (padded y.now) }
{
    2048 * sizes_of(y, 6 * horizon)
}

// The constant less that allowance.
pub fn offset<'a>(
    a: &'a [i64; 36],
    drift: &'a [i64; 6],
    start: &'a [i64; 6],
    y: &'a [i64; 72],
    horizon: usize,
) -> i64
    requires { (horizon ≤ 12) × Bounded most_entry a.now × Bounded most_drift drift.now × Bounded most_number start.now × Bounded most_multiplier y.now }
    ensures { result ≡ constant (padded_problem horizon a.now [] drift.now start.now []) (padded y.now)
        -ℤ pos 2048 *ℤ sizes 6 horizon (padded y.now) }
{
    drifts(drift, y, horizon) + started(a, start, y) - allowance(y, horizon)
}

// The floor under all plans.
pub fn floor_of<'a>(
    a: &'a [i64; 36],
    b: &'a [i64; 24],
    drift: &'a [i64; 6],
    start: &'a [i64; 6],
    terms: &'a [Term; 120],
    y: &'a [i64; 72],
    horizon: usize,
) -> i64
    requires horizon_bound { (horizon ≤ 12) × Bounded most_entry a.now × Bounded most_entry b.now × Bounded most_drift drift.now × Bounded most_number start.now }
    requires tables { Tables terms.now × Bounded most_multiplier y.now }
    ensures { result ≡ floor (padded_problem horizon a.now b.now drift.now start.now
        terms.now) (padded y.now) }
{
    let s = slopes(a, b, y, horizon);
    pieces(terms, &s, horizon) + offset(a, drift, start, y, horizon)
}
