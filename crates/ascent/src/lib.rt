// Step 4 of a round by command 51: the next multipliers, from y~ and the residuals of the numbers of
// step 2. By command 50 it is `passes::ascend::ascend`.
#![tactic(auto)]

mod band;
pub mod multiplier;

ghost use Rattle.std.specs.Prelude.{◌≡◌, true};
ghost use Rattle.tape.specs.Legal.{Legal};
ghost use Rattle.banded.specs.Step.{uses_band};
ghost use Rattle.banded.specs.Rows.{TapeRows};
ghost use Rattle.ascent.specs.Held.{HeldStep, Ascended};

use crate::band::{multipliers_by_rows, right_sides};
use banded::rows::{Row, row_count};
use banded::solve::correction_of;
use tape::Tape;

// From the tape's eliminated rows.
pub fn ascend_by_band(t: &Tape, rows: &[Row; 72], ahead: &[i64; 72], e: &[i64; 72]) -> [i64; 72]
    requires { Legal t.now × (uses_band t.now ≡ true) × TapeRows t.now rows.now × HeldStep t.now ahead.now e.now }
    ensures { Ascended t.now ahead.now e.now result }
{
    let n = t.n;
    let horizon = t.horizon;
    let count = row_count(n, horizon);
    let sides = right_sides(e, n, count);
    let d = correction_of(rows, &sides, count, 2 * n - 1);
    multipliers_by_rows(ahead, &d, n, horizon)
}
