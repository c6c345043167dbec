// The text of the firing slip.
#![tactic(auto)]

mod lines;
mod text;

ghost use Rattle.std.specs.Prelude.{◌≡◌};
ghost use Rattle.slip_text.specs.Slip.{tape_slip, text_of};

use crate::lines::{kind_and_rounds, proved, refused};
use ranges::first_ranges;
use solution::solve_tape;
use solver::Solved;
pub use text::Text;

// The slip of a tape: what the printing program writes.
pub fn tape_slip(tape: &[u8]) -> Text
    ensures { result ≡ text_of (tape_slip tape.now) }
{
    let solution = solve_tape(tape);
    let numbers = solution.tape;
    match solution.answer {
        Ok(Solved::Proved(rounds, gap, first)) => {
            let q = numbers.horizon * numbers.n;
            let ranges = first_ranges(&numbers, &solution.multipliers[..q], gap);
            proved(rounds, gap, first, ranges, numbers.m)
        }
        Ok(Solved::Impossible(rounds)) => kind_and_rounds(b"impossible\n", rounds),
        Err(why) => refused(why),
    }
}
