// Step 3: whether a round can answer, and its verdict.
ghost use Rattle.std.specs.Prelude.{◌≤◌, ◌≡◌, IfSome, option_map, nat_abs, ◌-ℤ◌};
ghost use Rattle.integer.specs.Places.{Bounded};
ghost use Rattle.commands.specs.Ranges.{most_multiplier};
ghost use Rattle.tape.specs.Legal.{Legal};
ghost use Rattle.problem.specs.Model.{problem_of};
ghost use Rattle.problem.specs.Dual.{floor};
ghost use Rattle.primal.specs.Padded.{padded};
ghost use Rattle.primal.specs.Terms.{TermsOf};
ghost use Rattle.primal.specs.Held.{BlankMultipliers};
ghost use Rattle.steps.specs.Held.{verdict_by};
ghost use Rattle.rounds.specs.Held.{may_answer};

use dual::floor::floor_of;
use problem::Term;
use steps::verdict::{Verdict, verdict_of};
use tape::Tape;

// Whether a floor that is at most `upper` can give an answer. The gap, unless the candidate is dropped,
// is the cost less `upper`, so no gap is below it.
pub fn may_answer(gap: Option<i64>, wanted: i64, highest: i64, upper: i64) -> bool
    ensures { result ≡ may_answer gap wanted highest upper }
{
    highest < upper || gap.is_some_and(|gap| gap <= wanted)
}

// The verdict on a candidate by its cost, unless it is dropped, and by the floor of y.
pub fn weigh(
    t: &Tape,
    terms: &[Term; 120],
    y: &[i64; 72],
    highest: i64,
    cost: Option<i64>,
) -> Option<Verdict>
    requires legal { Legal t.now × TermsOf t.now terms.now × BlankMultipliers t.now.n y.now × Bounded most_multiplier y.now }
    requires cost_bound { IfSome cost (λ k. nat_abs k ≤ 200540160000000000) }
    ensures { result ≡ verdict_by (option_map (λ k. k -ℤ floor (problem_of t.now) (padded y.now)) cost) t.now.wanted highest (floor (problem_of t.now) (padded y.now)) }
{
    let floor = floor_of(&t.a, &t.b, &t.drift, &t.start, terms, y, t.horizon);
    verdict_of(cost.map(|cost| cost - floor), t.wanted, highest, floor)
}
