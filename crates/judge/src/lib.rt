// Judging a plan with multipliers, and multipliers for impossibility.
#![tactic(auto)]

ghost use Rattle.std.specs.Prelude.{◌≡◌};
ghost use Rattle.integer.specs.Places.{Bounded};
ghost use Rattle.commands.specs.Ranges.{most_number, most_multiplier};
ghost use Rattle.tape.specs.Legal.{Legal};
ghost use Rattle.tape.specs.Reading.{reading};
ghost use Rattle.problem.specs.Model.{problem_of};
ghost use Rattle.problem.specs.Cost.{plan_cost};
ghost use Rattle.problem.specs.Dual.{floor, shows};
ghost use Rattle.primal.specs.Padded.{padded, padded_plan};
ghost use Rattle.primal.specs.Terms.{TermsOf};
ghost use Rattle.primal.specs.Held.{BlankPlan, BlankMultipliers};
ghost use Rattle.judge.specs.Judging.{gap_within, judged_on, judged, shown_on, shown};
ghost use Rattle.judge.specs.Demand.{Backed, Founded};
ghost use Rattle.judge.specs.Reasons.{Reasoned};

use dual::floor::floor_of;
use lent::multipliers::{is_any_outside, padded_multipliers};
use lent::walk::checked_plan;
use primal::cost::{ceiling_of, plan_cost};
use primal::terms::terms_of;
use problem::Term;
use tape::refusal::{Refusal, Span};
use tape::{Tape, read};

// Judges a plan with multipliers: the gap, or the first refusal.
pub fn judge_plan(tape: &[u8], plan: &[i32], multipliers: &[i32]) -> Result<i64, Refusal>
    ensures value { result ≡ judged tape.now plan.now multipliers.now }
    ensures backed { Backed result (reading tape.now).tape plan.now multipliers.now }
    ensures reasoned { Reasoned result tape.now plan.now multipliers.now }
{
    judge_on(&read(tape)?, plan, multipliers)
}

fn judge_on(t: &Tape, plan: &[i32], multipliers: &[i32]) -> Result<i64, Refusal>
    requires { Legal t.now }
    ensures { result ≡ judged_on t.now plan.now multipliers.now }
{
    let n = t.n;
    let m = t.m;
    let horizon = t.horizon;
    if plan.len() != horizon * (n + m) {
        return Err(Refusal::Length);
    }
    if multipliers.len() != horizon * n {
        return Err(Refusal::Length);
    }
    if is_any_outside(multipliers) {
        return Err(Refusal::Multiplier);
    }
    let y = padded_multipliers(multipliers, n, horizon);
    let terms = terms_of(t);
    let v = checked_plan(t, &terms, plan)?;
    judge_gap(t, &terms, &v, &y)
}

// The gap of a plan that follows the tape, held against T.
fn judge_gap(t: &Tape, terms: &[Term; 120], v: &[i64; 120], y: &[i64; 72]) -> Result<i64, Refusal>
    requires legal { Legal t.now × TermsOf t.now terms.now }
    requires bounded { Bounded most_number v.now × BlankPlan t.now.n t.now.m v.now × Bounded most_multiplier y.now × BlankMultipliers t.now.n y.now }
    ensures { result ≡ gap_within t.now (plan_cost (problem_of t.now) (padded_plan v.now)) (floor (problem_of t.now) (padded y.now)) }
{
    let cost = plan_cost(terms, v, t.horizon);
    let floor = tape_floor(t, terms, y);
    let gap = cost - floor;
    if t.wanted < gap {
        let span = Span {
            cost: cost,
            floor: floor,
        };
        return Err(Refusal::Wide(span));
    }
    Ok(gap)
}

// The floor under all plans of a tape.
fn tape_floor(t: &Tape, terms: &[Term; 120], y: &[i64; 72]) -> i64
    requires legal { Legal t.now × TermsOf t.now terms.now }
    requires bounded { Bounded most_multiplier y.now × BlankMultipliers t.now.n y.now }
    ensures { result ≡ floor (problem_of t.now) (padded y.now) }
{
    floor_of(&t.a, &t.b, &t.drift, &t.start, terms, y, t.horizon)
}

// Judges multipliers for impossibility.
pub fn judge_multipliers(tape: &[u8], multipliers: &[i32]) -> Result<(), Refusal>
    ensures value { result ≡ shown tape.now multipliers.now }
    ensures founded { Founded result (reading tape.now).tape }
{
    show_on(&read(tape)?, multipliers)
}

fn show_on(t: &Tape, multipliers: &[i32]) -> Result<(), Refusal>
    requires { Legal t.now }
    ensures { result ≡ shown_on t.now multipliers.now }
{
    let n = t.n;
    let horizon = t.horizon;
    if multipliers.len() != horizon * n {
        return Err(Refusal::Length);
    }
    if is_any_outside(multipliers) {
        return Err(Refusal::Multiplier);
    }
    let y = padded_multipliers(multipliers, n, horizon);
    let terms = terms_of(t);
    if is_shown(t, &terms, &y) {
        return Ok(());
    }
    Err(Refusal::NotShown)
}

// Whether the floor exceeds the ceiling.
fn is_shown(t: &Tape, terms: &[Term; 120], y: &[i64; 72]) -> bool
    requires legal { Legal t.now × TermsOf t.now terms.now }
    requires bounded { Bounded most_multiplier y.now × BlankMultipliers t.now.n y.now }
    ensures { result ≡ shows (problem_of t.now) (padded y.now) }
{
    let ceiling = ceiling_of(terms, t.horizon);
    let floor = tape_floor(t, terms, y);
    ceiling < floor
}
