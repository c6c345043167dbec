// The range of one plan number.
ghost use Rattle.std.specs.Prelude.{◌≤◌, ◌≡◌, pos, nat_abs};
ghost use Rattle.integer.specs.Order.{◌≼◌};
ghost use Rattle.commands.specs.Ranges.{most_wanted};
ghost use Rattle.primal.specs.Padded.{term_of};
ghost use Rattle.primal.specs.Ranges.{most_penalty, Ranged};
ghost use Rattle.dual.specs.Slopes.{most_slope};
ghost use Rattle.ranges.specs.Range.{centre, reach, range_of, HoldsNear, Tightest};

use dual::pieces::tilt_at;
use integer::number::{limit, quotient, quotient_up, root_up};

// The numbers from `low` to `high`, both included.
#[derive(Clone, Copy)]
pub struct Range {
    pub low: i64,
    pub high: i64,
}

// 2P times the number at which the piece is least.
fn centre_of(p: i64, low: i64, high: i64, r: i64, s: i64) -> i64
    requires { Ranged (term_of p low high r) × (nat_abs s ≤ most_slope) }
    ensures { result ≡ centre (term_of p low high r) s }
{
    if 0 <= tilt_at(p, low, r, s) {
        return 2 * p * low;
    }
    if tilt_at(p, high, r, s) <= 0 {
        return 2 * p * high;
    }
    2 * p * r - s
}

// How far 2P v may lie from the centre. The squares that are compared there are beyond 64 bits; 4P
// times the gap is not, nor is its root.
fn reach_of(p: i64, gap: i64) -> i64
    requires { (pos 0 ≼ p) × (nat_abs p ≤ most_penalty) × (pos 0 ≼ gap) × (gap ≼ pos most_wanted) }
    ensures { result ≡ reach p gap }
{
    root_up((4 * p * gap) as u64) as i64
}

// The range of a plan number with slope s, for the gap of an accepted plan.
pub fn range_of(p: i64, low: i64, high: i64, r: i64, s: i64, gap: i64) -> Range
    requires { Ranged (term_of p low high r) × (nat_abs s ≤ most_slope) × (pos 0 ≼ gap) × (gap ≼ pos most_wanted) }
    ensures value { result ≡ range_of (term_of p low high r) s gap }
    ensures holds_near { HoldsNear (term_of p low high r) s gap result }
    ensures tightest { pos 1 ≼ p → Tightest (term_of p low high r) s gap result }
{
    if p <= 0 {
        return Range {
            low: low,
            high: high,
        };
    }
    let c = centre_of(p, low, high, r, s);
    let b = reach_of(p, gap);
    let d = 2 * p;
    Range {
        low: limit(quotient(c - b, d), low, high),
        high: limit(quotient_up(c + b, d), low, high),
    }
}
