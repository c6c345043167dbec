// The correction of given residuals by the banded step, and the pivots behind it.
#![tactic(auto)]

ghost use Rattle.std.specs.Prelude.{ℕ, ◌≤◌, ◌≡◌, length};
ghost use Rattle.integer.specs.Places.{at, Bounded};
ghost use Rattle.tape.specs.Legal.{Legal};
ghost use Rattle.tape.specs.Reading.{reading};
ghost use Rattle.primal.specs.Lent.{listed};
ghost use Rattle.banded.specs.Floats.{float};
ghost use Rattle.banded.specs.Elimination.{Matrix, pivot};
ghost use Rattle.banded.specs.Correction.{solved};
ghost use Rattle.banded.specs.Rows.{Holds, KeptRows};
ghost use Rattle.corrections.specs.Corrections.{wrong_residuals, most_given, corrected_on, corrected, pivots_left, correction_left};

use banded::factored_of;
use banded::rows::{Row, row_count};
use banded::solve::correction_of;
use integer::number::is_outside;
use tape::refusal::Refusal;
use tape::{Tape, read};

// Written: the pivots and d. Unused: the tape has command 50, or falls back on g.
#[derive(Clone, Copy)]
pub enum Corrected {
    Written,
    Unused,
}

// 2^40, and minus it.
const MOST_GIVEN: i64 = 1099511627776;

const LEAST_GIVEN: i64 = -1099511627776;

// Works out d of the residuals, by rows, on a tape that is solved by the banded step.
pub fn banded_correction(
    tape: &[u8],
    residuals: &[i64],
    pivots: &mut [f64],
    correction: &mut [f64],
) -> Result<Corrected, Refusal>
    ensures value { result ≡ corrected tape.now residuals.now (length pivots.old) (length correction.old) }
    ensures pivots_after { pivots.new ≡ pivots_left result (reading tape.now).tape pivots.old }
    ensures correction_after { correction.new ≡ correction_left result (reading tape.now).tape residuals.now correction.old }
{
    correct(read(tape)?, residuals, pivots, correction)
}

fn correct(
    t: Tape,
    residuals: &[i64],
    pivots: &mut [f64],
    correction: &mut [f64],
) -> Result<Corrected, Refusal>
    requires { Legal t }
    ensures value { result ≡ corrected_on t residuals.now (length pivots.old) (length correction.old) }
    ensures pivots_after { pivots.new ≡ pivots_left result t pivots.old }
    ensures correction_after { correction.new ≡ correction_left result t residuals.now correction.old }
{
    let count = row_count(t.n, t.horizon);
    if residuals.len() != count {
        return Err(Refusal::Length);
    }
    if pivots.len() != count {
        return Err(Refusal::Length);
    }
    if correction.len() != count {
        return Err(Refusal::Length);
    }
    if is_any_outside(residuals) {
        return Err(Refusal::ArgumentOutOfRange);
    }
    if let Some(rows) = &factored_of(&t) {
        write_pivots(rows, pivots);
        write_correction(rows, residuals, correction, 2 * t.n - 1);
        return Ok(Corrected::Written);
    }
    Ok(Corrected::Unused)
}

// Whether a residual is beyond its range.
fn is_any_outside(residuals: &[i64]) -> bool
    ensures { result ≡ wrong_residuals residuals.now }
{
    for x in residuals {
        if is_outside(*x, LEAST_GIVEN, MOST_GIVEN) {
            return true;
        }
    }
    false
}

// The pivots, in the order of the rows.
fn write_pivots(rows: &[Row; 72], pivots: &mut [f64])
    requires { length pivots.old ≤ 72 }
    ensures { (band : ℕ) (w : Matrix) → KeptRows band w (length pivots.old) rows.now → pivots.new ≡ listed (length pivots.old) (pivot band w) }
{
    for p in 0..pivots.len() {
        pivots[p] = rows[p].pivot;
    }
}

// d of the residuals, in the order of the rows.
fn write_correction(rows: &[Row; 72], residuals: &[i64], correction: &mut [f64], band: usize)
    requires { (length residuals.now ≤ 72) × (length correction.old ≡ length residuals.now) × (band ≤ 11) × Bounded most_given residuals.now }
    ensures { (w : Matrix) → KeptRows band w (length residuals.now) rows.now → correction.new ≡ listed (length residuals.now) (solved (length residuals.now) band w (λ p. float (at residuals.now p)) (length residuals.now)) }
{
    let sides = right_sides(residuals);
    let d = correction_of(rows, &sides, residuals.len(), band);
    correction.copy_from_slice(&d[..residuals.len()]);
}

// The residuals as right sides.
fn right_sides(residuals: &[i64]) -> [f64; 72]
    requires { (length residuals.now ≤ 72) × Bounded most_given residuals.now }
    ensures { Holds (length residuals.now) (λ p. float (at residuals.now p)) result }
{
    let mut sides = [0.0f64; 72];
    for p in 0..residuals.len() {
        sides[p] = residuals[p] as f64;
    }
    sides
}
