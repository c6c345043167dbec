// The correction of residuals by the banded step, as a C function.
ghost use Rattle.std.specs.Prelude.{◌≡◌, length};
ghost use Rattle.tape.specs.Reading.{reading};
ghost use Rattle.corrections.specs.Corrections.{corrected, pivots_left, correction_left};
ghost use Rattle.planner.specs.Corrections.{corrected_code, corrected_left, corrected_numbers};

use crate::answer::answer;
use corrections::{Corrected, banded_correction};

// Works out d of residuals. `out` then holds 1, or 0 where the tape is not solved by the banded step.
#[unsafe(no_mangle)]
pub extern "C" fn fibergravel_banded_correction(
    tape: &[u8],
    residuals: &[i64],
    pivots: &mut [f64],
    correction: &mut [f64],
    out: &mut [i64; 1],
) -> u64
    ensures value { result ≡ corrected_code (corrected tape.now residuals.now (length pivots.old) (length correction.old)) }
    ensures out_after { out.new ≡ corrected_left (corrected tape.now residuals.now (length pivots.old) (length correction.old)) out.old }
    ensures pivots_after { pivots.new ≡ pivots_left (corrected tape.now residuals.now (length pivots.old) (length correction.old)) (reading tape.now).tape pivots.old }
    ensures correction_after { correction.new ≡ correction_left (corrected tape.now residuals.now (length pivots.old) (length correction.old)) (reading tape.now).tape residuals.now correction.old }
{
    answer(
        banded_correction(tape, residuals, pivots, correction).map(corrected_numbers),
        out,
    )
}

fn corrected_numbers(answer: Corrected) -> [i64; 1]
    ensures { result ≡ corrected_numbers answer }
{
    match answer {
        Corrected::Written => [1],
        Corrected::Unused => [0],
    }
}
