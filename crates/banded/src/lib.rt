// The banded step of document 02, request 9: W × d = e in 64-bit floats.
#![tactic(auto)]

pub mod rows;
pub mod solve;
mod weights;

ghost use Rattle.std.specs.Prelude.{ℕ, ◌≤◌, ◌≡◌};
ghost use Rattle.tape.specs.Legal.{Legal};
ghost use Rattle.problem.specs.Model.{problem_of};
ghost use Rattle.banded.specs.Elimination.{Matrix, usable_pivots};
ghost use Rattle.banded.specs.Step.{band_usable};
ghost use Rattle.banded.specs.Rows.{KeptRows, TapeRows, Factored};

use crate::rows::{Row, eliminated_row, is_usable, no_rows, row_count};
use crate::weights::weights_row;
use tape::Tape;

// A tape's eliminated rows, and whether all their pivots are finite and above 0. No Option: the rows are
// promised with any pivots.
#[derive(Clone, Copy)]
pub struct Eliminated {
    pub usable: bool,
    pub rows: [Row; 72],
}

// The elimination, which does not depend on the residuals.
pub fn eliminate(t: &Tape) -> Eliminated
    requires { Legal t.now }
    ensures { (result.usable ≡ band_usable (problem_of t.now)) × TapeRows t.now result.rows }
{
    let band = 2 * t.n - 1;
    let count = row_count(t.n, t.horizon);
    let mut rows = no_rows();
    for p in 0..count {
        let x = weights_row(t, p, band);
        rows[p] = eliminated_row(&rows, x, p, band);
    }
    Eliminated {
        usable: are_usable(&rows, count),
        rows: rows,
    }
}

// Whether all pivots of the first rows are finite and above 0.
pub fn are_usable(rows: &[Row; 72], count: usize) -> bool
    requires { count ≤ 72 }
    ensures { (band : ℕ) (w : Matrix) → KeptRows band w count rows.now → result ≡ usable_pivots band w count }
{
    let mut usable = true;
    for p in 0..count {
        usable &= is_usable(rows[p].pivot);
    }
    usable
}

// The eliminated rows where the tape is solved by them.
pub fn factored_of(t: &Tape) -> Option<[Row; 72]>
    requires { Legal t.now }
    ensures { Factored t.now result }
{
    if t.banded {
        let eliminated = eliminate(t);
        if eliminated.usable {
            return Some(eliminated.rows);
        }
    }
    None
}
