// Slopes of the plan's numbers.
ghost use Rattle.std.specs.Prelude.{◌+◌, ◌*◌, ◌<◌, ◌≤◌, ◌≡◌, length};
ghost use Rattle.integer.specs.Places.{Bounded, Stretch, Steps};
ghost use Rattle.commands.specs.Ranges.{most_entry, most_multiplier};
ghost use Rattle.problem.specs.Dual.{input_slope, adjoint, carried, state_slope};
ghost use Rattle.primal.specs.Padded.{state_matrix, input_matrix, padded};
ghost use Rattle.dual.specs.Slopes.{by_place};

use primal::dot::dot;

// The slope of u(k,j).
pub fn input_slope_at(b: &[i64; 24], y: &[i64; 72], k: usize, j: usize) -> i64
    requires { (k < 12) × (j < 4) × Bounded most_entry b.now × Bounded most_multiplier y.now }
    ensures { result ≡ input_slope 6 (input_matrix b.now) (padded y.now) k j }
{
    dot(y, 6 * k, b, j, 4, 6)
}

fn input_slopes(s: &mut [i64; 120], b: &[i64; 24], y: &[i64; 72], k: usize)
    requires { (k < 12) × (length s.old ≡ 120) × Bounded most_entry b.now × Bounded most_multiplier y.now }
    ensures { Stretch (10 * k) 4 (input_slope 6 (input_matrix b.now) (padded y.now) k) s.old s.new }
{
    for j in 0..4 {
        s[10 * k + j] = input_slope_at(b, y, k, j);
    }
}

// The sum over q of y(k,q) A(q,j).
pub fn adjoint_at(a: &[i64; 36], y: &[i64; 72], k: usize, j: usize) -> i64
    requires { (k < 12) × (j < 6) × Bounded most_entry a.now × Bounded most_multiplier y.now }
    ensures { result ≡ adjoint 6 (state_matrix a.now) (padded y.now) k j }
{
    dot(y, 6 * k, a, j, 6, 6)
}

// What A adds to the slope of x(k+1,i).
fn carried_slope(a: &[i64; 36], y: &[i64; 72], k: usize, i: usize, horizon: usize) -> i64
    requires { (i < 6) × (k < horizon) × (horizon ≤ 12) × Bounded most_entry a.now × Bounded most_multiplier y.now }
    ensures { result ≡ carried 6 horizon (state_matrix a.now) (padded y.now) k i }
{
    if k + 1 < horizon {
        return adjoint_at(a, y, k + 1, i);
    }
    0
}

// The slope of x(k+1,i).
pub fn state_slope_at(a: &[i64; 36], y: &[i64; 72], k: usize, i: usize, horizon: usize) -> i64
    requires { (i < 6) × (k < horizon) × (horizon ≤ 12) × Bounded most_entry a.now × Bounded most_multiplier y.now }
    ensures { result ≡ state_slope 6 horizon (state_matrix a.now) (padded y.now) k i }
{
    -4096 * y[6 * k + i] + carried_slope(a, y, k, i, horizon)
}

fn state_slopes(s: &mut [i64; 120], a: &[i64; 36], y: &[i64; 72], k: usize, horizon: usize)
    requires { (k < horizon) × (horizon ≤ 12) × (length s.old ≡ 120) × Bounded most_entry a.now × Bounded most_multiplier y.now }
    ensures { Stretch (10 * k + 4) 6 (state_slope 6 horizon (state_matrix a.now) (padded y.now) k) s.old s.new }
{
    for i in 0..6 {
        s[10 * k + 4 + i] = state_slope_at(a, y, k, i, horizon);
    }
}

// The slope of every plan number.
pub fn slopes<'a>(
    a: &'a [i64; 36],
    b: &'a [i64; 24],
    y: &'a [i64; 72],
    horizon: usize,
) -> [i64; 120]
    requires { (horizon ≤ 12) × Bounded most_entry a.now × Bounded most_entry b.now × Bounded most_multiplier y.now }
    ensures { Steps 10 horizon (by_place (input_slope 6 (input_matrix b.now) (padded y.now))
        (state_slope 6 horizon (state_matrix a.now) (padded y.now))) result }
{
    let mut s = [0i64; 120];
    for k in 0..horizon {
        input_slopes(&mut s, b, y, k);
        state_slopes(&mut s, a, y, k, horizon);
    }
    s
}
