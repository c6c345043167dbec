// How near the first duties of every plan must be that costs no more than an accepted one.
#![tactic(auto)]

pub mod range;

ghost use Rattle.std.specs.Prelude.{◌*◌, ◌<◌, ◌≡◌, false, length, pos};
ghost use Rattle.integer.specs.Order.{◌≼◌};
ghost use Rattle.integer.specs.Places.{Bounded};
ghost use Rattle.commands.specs.Ranges.{most_multiplier, most_wanted};
ghost use Rattle.tape.specs.Legal.{Legal};
ghost use Rattle.tape.specs.Reading.{reading};
ghost use Rattle.primal.specs.Padded.{padded};
ghost use Rattle.primal.specs.Held.{BlankMultipliers};
ghost use Rattle.primal.specs.Terms.{TermsOf};
ghost use Rattle.lent.specs.Checks.{wrong_multipliers};
ghost use Rattle.ranges.specs.Ranges.{duty_range, first_ranges, ranges_of, Bounding};

use crate::range::{Range, range_of};
use dual::slopes::input_slope_at;
use judge::judge_plan;
use lent::multipliers::padded_multipliers;
use primal::terms::terms_of;
use problem::Term;
use tape::refusal::Refusal;
use tape::{Tape, read};

// The ranges of u(0). Those beyond m are 0 to 0.
#[derive(Clone, Copy)]
pub struct Ranges {
    pub u0: Range,
    pub u1: Range,
    pub u2: Range,
    pub u3: Range,
}

// Judges a plan with multipliers, and gives the ranges of the first duties where it is accepted.
pub fn judge_ranges(tape: &[u8], plan: &[i32], multipliers: &[i32]) -> Result<Ranges, Refusal>
    ensures value { result ≡ ranges_of tape.now plan.now multipliers.now }
    ensures bounding { Bounding result (reading tape.now).tape plan.now multipliers.now }
{
    let gap = judge_plan(tape, plan, multipliers)?;
    let t = read(tape)?;
    Ok(first_ranges(&t, multipliers, gap))
}

// The ranges of the first duties, from the multipliers and the gap of an accepted plan.
pub fn first_ranges(t: &Tape, multipliers: &[i32], gap: i64) -> Ranges
    requires legal { Legal t.now × (length multipliers.now ≡ t.now.horizon * t.now.n) × (wrong_multipliers multipliers.now ≡ false) }
    requires pos { (pos 0 ≼ gap) × (gap ≼ pos most_wanted) }
    ensures { result ≡ first_ranges t.now multipliers.now gap }
{
    let y = padded_multipliers(multipliers, t.n, t.horizon);
    let terms = terms_of(t);
    Ranges {
        u0: duty_range(t, &terms, &y, gap, 0),
        u1: duty_range(t, &terms, &y, gap, 1),
        u2: duty_range(t, &terms, &y, gap, 2),
        u3: duty_range(t, &terms, &y, gap, 3),
    }
}

// The range of u(0,j). Beyond m the term is blank: its weight and its limits are 0.
fn duty_range(t: &Tape, terms: &[Term; 120], y: &[i64; 72], gap: i64, j: usize) -> Range
    requires legal { Legal t.now × TermsOf t.now terms.now }
    requires bounded { Bounded most_multiplier y.now × BlankMultipliers t.now.n y.now × (pos 0 ≼ gap) × (gap ≼ pos most_wanted) × (j < 4) }
    ensures { result ≡ duty_range t.now (padded y.now) gap j }
{
    let s = input_slope_at(&t.b, y, 0, j);
    let term = terms[j];
    range_of(term.penalty, term.low, term.high, term.reference, s, gap)
}
