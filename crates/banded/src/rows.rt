// Elimination by rows. Row a is reduced by the rows before it, in order, which gives every entry the
// same operations in the same order as taking the rows one by one.
ghost use Rattle.std.specs.Prelude.{ℕ, ◌-◌, ◌*◌, ◌<◌, ◌≤◌, ◌≡◌};
ghost use Rattle.banded.specs.Floats.{usable};
ghost use Rattle.banded.specs.Elimination.{Matrix};
ghost use Rattle.banded.specs.Rows.{Working, Factors, Kept, KeptRows, Reduced};

// A row that is eliminated: the couplings are its entries in the columns after the pivot; factor q is
// that of the row 11 − q rows before it.
#[derive(Clone, Copy)]
pub struct Row {
    pub pivot: f64,
    pub couplings: [f64; 11],
    pub factors: [f64; 11],
}

// Rows before any is eliminated.
pub fn no_rows() -> [Row; 72] {
    let zeros = [0.0f64; 11];
    [Row {
        pivot: 0.0,
        couplings: zeros,
        factors: zeros,
    }; 72]
}

// The number of rows.
pub fn row_count(n: usize, horizon: usize) -> usize
    requires { (n ≤ 6) × (horizon ≤ 12) }
    ensures { (result ≡ horizon * n) × (result ≤ 12 * n) }
{
    horizon * n
}

// The first row that reduces row a.
pub fn first_before(a: usize, band: usize) -> usize
    ensures { result ≡ a - band }
{
    a.saturating_sub(band)
}

// Whether a pivot is finite and above 0.
pub fn is_usable(x: f64) -> bool
    ensures { result ≡ usable x }
{
    0.0 < x && x < f64::INFINITY
}

// x less f times the couplings, in the slots after slot q.
fn reduced(x: [f64; 23], q: usize, f: f64, couplings: &[f64; 11], band: usize) -> [f64; 23]
    requires { (q < 11) × (band ≤ 11) }
    ensures { Reduced band q f couplings.now x result }
{
    let mut next = x;
    for j in 0..band {
        let s = q + 1 + j;
        next[s] = x[s] - f * couplings[j];
    }
    next
}

// The row of a working row whose reductions are done.
fn kept(x: [f64; 23], factors: [f64; 11]) -> Row
    ensures { (band : ℕ) (w : Matrix) (a : ℕ) → band ≤ 11 → Working band w a a x → Factors band w a a factors → Kept band w a result }
{
    let mut couplings = [0.0f64; 11];
    couplings.copy_from_slice(&x[12..]);
    Row {
        pivot: x[11],
        couplings: couplings,
        factors: factors,
    }
}

// Row a, from the rows before it and its entries in W: slot s of x is the entry in column a + s − 11.
pub fn eliminated_row(rows: &[Row; 72], x: [f64; 23], a: usize, band: usize) -> Row
    requires { (a < 72) × (band ≤ 11) }
    ensures { (w : Matrix) → KeptRows band w a rows.now → Working band w 0 a x → Kept band w a result }
{
    let mut y = x;
    let mut factors = [0.0f64; 11];
    let first = first_before(a, band);
    for p in first..a {
        let q = p + 11 - a;
        let row = &rows[p];
        let f = y[q] / row.pivot;
        factors[q] = f;
        y = reduced(y, q, f, &row.couplings, band);
    }
    kept(y, factors)
}
