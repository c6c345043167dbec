// The ranges of the first duties, as a C function.
ghost use Rattle.std.specs.Prelude.{◌≡◌};
ghost use Rattle.tape.specs.Reading.{reading};
ghost use Rattle.ranges.specs.Ranges.{ranges_of};
ghost use Rattle.planner.specs.Ranges.{ranges_code, ends_of, ranges_left, BoundingBy};

use crate::answer::answer;
use ranges::{Ranges, judge_ranges};

// Judges a plan with multipliers. `out` then holds the ends of the first duties' ranges.
#[unsafe(no_mangle)]
pub extern "C" fn fibergravel_ranges(
    tape: &[u8],
    plan: &[i32],
    multipliers: &[i32],
    out: &mut [i64; 8],
) -> u64
    ensures value { result ≡ ranges_code (ranges_of tape.now plan.now multipliers.now) }
    ensures out_after { out.new ≡ ranges_left (ranges_of tape.now plan.now multipliers.now) out.old }
    ensures bounding_by { BoundingBy result out.new (reading tape.now).tape plan.now multipliers.now }
{
    answer(judge_ranges(tape, plan, multipliers).map(ends), out)
}

// The two ends of each range.
fn ends(ranges: Ranges) -> [i64; 8]
    ensures { result ≡ ends_of ranges }
{
    let u0 = ranges.u0;
    let u1 = ranges.u1;
    let u2 = ranges.u2;
    let u3 = ranges.u3;
    [
        u0.low, u0.high, u1.low, u1.high, u2.low, u2.high, u3.low, u3.high,
    ]
}
