// Cost and ceiling.
ghost use Rattle.std.specs.Prelude.{◌≤◌, ◌≡◌, [], nat_abs, ◌-ℤ◌, ◌*ℤ◌};
ghost use Rattle.integer.specs.Places.{Bounded};
ghost use Rattle.commands.specs.Ranges.{most_number};
ghost use Rattle.problem.specs.Cost.{cost, plan_cost};
ghost use Rattle.problem.specs.Dual.{most, ceiling};
ghost use Rattle.primal.specs.Padded.{padded_plan, padded_problem};
ghost use Rattle.primal.specs.Ranges.{most_penalty, Ranged, Tables};

use crate::total::total;
use problem::Term;

// P (v - r)².
pub fn cost_of(p: i64, r: i64, v: i64) -> i64
    requires { (nat_abs p ≤ most_penalty) × (nat_abs r ≤ most_number) × (nat_abs v ≤ most_number) }
    ensures { result ≡ p *ℤ ((v -ℤ r) *ℤ (v -ℤ r)) }
{
    let d = v - r;
    p * (d * d)
}

fn term_cost(term: Term, v: i64) -> i64
    requires { Ranged term × (nat_abs v ≤ most_number) }
    ensures { result ≡ cost term v }
{
    cost_of(term.penalty, term.reference, v)
}

// The cost K of the plan v.
pub fn plan_cost(terms: &[Term; 120], v: &[i64; 120], horizon: usize) -> i64
    requires { (horizon ≤ 12) × Tables terms.now × Bounded most_number v.now }
    ensures { result ≡ plan_cost (padded_problem horizon [] [] [] [] terms.now) (padded_plan v.now) }
{
    total(10 * horizon, |p| term_cost(terms[p], v[p]))
}

// The most that a number within its limits costs.
fn most_of(term: Term) -> i64
    requires { Ranged term }
    ensures { result ≡ most term }
{
    let a = (term.low - term.reference) * (term.low - term.reference);
    let b = (term.high - term.reference) * (term.high - term.reference);
    if a <= b {
        return term.penalty * b;
    }
    term.penalty * a
}

// The ceiling: no plan within its limits costs more.
pub fn ceiling_of(terms: &[Term; 120], horizon: usize) -> i64
    requires { (horizon ≤ 12) × Tables terms.now }
    ensures { result ≡ ceiling (padded_problem horizon [] [] [] [] terms.now) }
{
    total(10 * horizon, |p| most_of(terms[p]))
}
