// d of right sides e, from eliminated rows.
ghost use Rattle.std.specs.Prelude.{ℕ, ◌+◌, ◌≤◌, ◌<◌, ◌≡◌, Float};
ghost use Rattle.banded.specs.Floats.{float_at, sum_from, zero_float, ◌⊗◌};
ghost use Rattle.banded.specs.Elimination.{Matrix, sides, side};
ghost use Rattle.banded.specs.Correction.{solved};
ghost use Rattle.banded.specs.Rows.{Holds, Factors, KeptRows, Solved};

use crate::rows::{Row, first_before};

// The right side of row a, at first e, from those of the rows before it.
fn side_of(factors: &[f64; 11], s: &[f64; 72], a: usize, band: usize, e: f64) -> f64
    requires { (a < 72) × (band ≤ 11) }
    ensures { (w : Matrix) (right : ℕ → Float) → Factors band w a a factors.now → Holds a (side band w right) s.now → e ≡ right a → result ≡ sides band w right a a }
{
    let mut r = e;
    let first = first_before(a, band);
    for p in first..a {
        let q = p + 11 - a;
        r -= factors[q] * s[p];
    }
    r
}

// The right sides of all rows, each as it is when its row is taken.
fn sides_of(rows: &[Row; 72], e: &[f64; 72], count: usize, band: usize) -> [f64; 72]
    requires { (count ≤ 72) × (band ≤ 11) }
    ensures { (w : Matrix) (right : ℕ → Float) → KeptRows band w count rows.now → Holds count right e.now → Holds count (side band w right) result }
{
    let mut s = [0.0f64; 72];
    for a in 0..count {
        s[a] = side_of(&rows[a].factors, &s, a, band, e[a]);
    }
    s
}

// The sum of coupling times d over the first columns after the pivot of row p.
fn sum_after(couplings: &[f64; 11], d: &[f64; 72], p: usize, count: usize) -> f64
    requires { (p + 1 + count ≤ 72) × (count ≤ 11) }
    ensures { result ≡ sum_from zero_float count (λ j. float_at couplings.now j ⊗ float_at d.now (p + 1 + j)) }
{
    let mut sum = 0.0f64;
    for j in 0..count {
        sum += couplings[j] * d[p + 1 + j];
    }
    sum
}

// d of all rows, from the last row up; t rows are solved.
fn solved_up(rows: &[Row; 72], s: &[f64; 72], count: usize, band: usize) -> [f64; 72]
    requires { (count ≤ 72) × (band ≤ 11) }
    ensures { (w : Matrix) (right : ℕ → Float) → KeptRows band w count rows.now → Holds count (side band w right) s.now → Solved count band w right count result }
{
    let mut d = [0.0f64; 72];
    for t in 0..count {
        let p = count - (t + 1);
        let row = &rows[p];
        let sum = sum_after(&row.couplings, &d, p, band.min(t));
        d[p] = (s[p] - sum) / row.pivot;
    }
    d
}

// d of all rows, from the right sides e of W × d = e.
pub fn correction_of(rows: &[Row; 72], e: &[f64; 72], count: usize, band: usize) -> [f64; 72]
    requires { (count ≤ 72) × (band ≤ 11) }
    ensures { (w : Matrix) (right : ℕ → Float) → KeptRows band w count rows.now → Holds count right e.now → Holds count (solved count band w right count) result }
{
    let s = sides_of(rows, e, count, band);
    solved_up(rows, &s, count, band)
}
