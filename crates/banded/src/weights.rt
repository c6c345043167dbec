// W by rows, within its band.
ghost use Rattle.std.specs.Prelude.{◌+◌, ◌<◌, ◌≤◌, ◌≡◌, pos, nat_abs, ◌*ℤ◌};
ghost use Rattle.integer.specs.Places.{at, Bounded};
ghost use Rattle.commands.specs.Ranges.{most_entry, most_weight};
ghost use Rattle.tape.specs.Legal.{Legal};
ghost use Rattle.problem.specs.Model.{problem_of};
ghost use Rattle.primal.specs.Padded.{state_matrix, input_matrix};
ghost use Rattle.banded.specs.Floats.{sum_from};
ghost use Rattle.banded.specs.Weights.{input_coefficient, state_coefficient, share, input_share, state_share, weights};
ghost use Rattle.banded.specs.Rows.{Working};

use crate::rows::first_before;
use tape::Tape;

// The product of two coefficients divided by 2P, where P = 4096 h.
fn share_of(x: i64, y: i64, h: i64) -> f64
    requires { (nat_abs x ≤ most_entry) × (nat_abs y ≤ most_entry) × (nat_abs h ≤ most_weight) }
    ensures { result ≡ share x y (pos 4096 *ℤ h) }
{
    let product = x as f64 * y as f64;
    product / (2 * (4096 * h)) as f64
}

// The coefficient of u(s,c) in e(k,i).
fn input_coefficient(b: &[i64; 24], k: usize, i: usize, s: usize, c: usize) -> i64
    requires { (i < 6) × (c < 4) }
    ensures { result ≡ input_coefficient (input_matrix b.now) k i s c }
{
    if s == k {
        return b[4 * i + c];
    }
    0
}

// The coefficient of x(s+1,c) in e(k,i).
fn state_coefficient(a: &[i64; 36], k: usize, i: usize, s: usize, c: usize) -> i64
    requires { (i < 6) × (c < 6) × (s < 12) }
    ensures { result ≡ state_coefficient (state_matrix a.now) k i s c }
{
    if s == k {
        if c == i {
            return -4096;
        }
        return 0;
    }
    if s + 1 == k {
        return a[6 * i + c];
    }
    0
}

// The sum with what the inputs of step s give to the row of e(k,i) and the column of e(l,j).
fn with_inputs<'a>(
    sum: f64,
    b: &'a [i64; 24],
    weight: &'a [i64; 10],
    n: usize,
    m: usize,
    k: usize,
    i: usize,
    l: usize,
    j: usize,
    s: usize,
) -> f64
    requires { (n ≤ 6) × (m ≤ 4) × (i < 6) × (j < 6) × Bounded most_entry b.now × Bounded most_weight weight.now }
    ensures { result ≡ sum_from sum m (input_share (input_matrix b.now) (λ c. pos 4096 *ℤ at weight.now (n + c)) k i l j s) }
{
    let mut total = sum;
    for c in 0..m {
        let x = input_coefficient(b, k, i, s, c);
        let y = input_coefficient(b, l, j, s, c);
        total += share_of(x, y, weight[n + c]);
    }
    total
}

// The same with the states of step s.
fn with_states<'a>(
    sum: f64,
    a: &'a [i64; 36],
    weight: &'a [i64; 10],
    n: usize,
    k: usize,
    i: usize,
    l: usize,
    j: usize,
    s: usize,
) -> f64
    requires { (n ≤ 6) × (i < 6) × (j < 6) × (s < 12) × Bounded most_entry a.now × Bounded most_weight weight.now }
    ensures { result ≡ sum_from sum n (state_share (state_matrix a.now) (λ c. pos 4096 *ℤ at weight.now c) k i l j s) }
{
    let mut total = sum;
    for c in 0..n {
        let x = state_coefficient(a, k, i, s, c);
        let y = state_coefficient(a, l, j, s, c);
        total += share_of(x, y, weight[c]);
    }
    total
}

// W in a row and a column.
fn weight_of(t: &Tape, row: usize, column: usize) -> f64
    requires { Legal t.now }
    ensures { result ≡ weights (problem_of t.now) row column }
{
    let n = t.n;
    let m = t.m;
    let horizon = t.horizon;
    let k = row / n;
    let i = row % n;
    let l = column / n;
    let j = column % n;
    let mut sum = 0.0f64;
    for s in 0..horizon {
        let more = with_inputs(sum, &t.b, &t.weight, n, m, k, i, l, j, s);
        sum = with_states(more, &t.a, &t.weight, n, k, i, l, j, s);
    }
    sum
}

// Row `row` of W: slot s is the entry in column row + s − 11.
pub fn weights_row(t: &Tape, row: usize, band: usize) -> [f64; 23]
    requires { Legal t.now × (row < 72) × (band ≤ 11) }
    ensures { Working band (weights (problem_of t.now)) 0 row result }
{
    let mut x = [0.0f64; 23];
    let first = first_before(row, band);
    for c in first..row + band + 1 {
        x[c + 11 - row] = weight_of(t, row, c);
    }
    x
}
