// The plan from the front: each number is tested before anything is computed with it.
ghost use Rattle.std.specs.Prelude.{◌+◌, ◌*◌, ◌^◌, ◌<◌, ◌≤◌, ◌≡◌, length, nat_abs, OnOk, MatchResult};
ghost use Rattle.integer.specs.Places.{at, Bounded, Stretch};
ghost use Rattle.commands.specs.Ranges.{most_number};
ghost use Rattle.tape.specs.Legal.{Legal};
ghost use Rattle.problem.specs.Model.{problem_of, plan_of, state_at, model_sum};
ghost use Rattle.primal.specs.Padded.{state_matrix, input_matrix, padded_plan, term_at};
ghost use Rattle.primal.specs.Terms.{TermsOf};
ghost use Rattle.primal.specs.Held.{HeldPlan};
ghost use Rattle.lent.specs.Checks.{first, tested, limits, state_check, step_check, plan_check};

use primal::model::{model_sum, state_of};
use problem::Term;
use tape::Tape;
use tape::refusal::{Fault, Refusal};

// The number of step k and a column is x, where `due` was due.
fn fail(k: usize, column: usize, x: i64, due: i64) -> Result<(), Fault>
    ensures { result ≡ Err (record { step = k; column = column; found = x; due = due }) }
{
    Err(Fault {
        step: k,
        column: column,
        found: x,
        due: due,
    })
}

// Whether x, the number of step k and a column, lies in low to high. The fault tells which limit it
// passed.
fn check_number(k: usize, column: usize, low: i64, high: i64, x: i64) -> Result<(), Fault>
    ensures { result ≡ tested k column low high x }
{
    if x < low {
        return fail(k, column, x, low);
    }
    if high < x {
        return fail(k, column, x, high);
    }
    Ok(())
}

// The inputs of step k, which stand in the plan from a place on. Their columns are those from n on.
fn check_inputs(
    v: &mut [i64; 120],
    plan: &[i32],
    t: &Tape,
    terms: &[Term; 120],
    from: usize,
    k: usize,
) -> Result<(), Refusal>
    requires { (k < 12) × (t.now.n ≤ 6) × (t.now.m ≤ 4) × (from + t.now.m ≤ length plan.now) × (length v.old ≡ 120) }
    ensures value { result ≡ first t.now.m (λ j. limits k (t.now.n + j) (term_at terms.now (10 * k + j)).low (term_at terms.now (10 * k + j)).high (at plan.now (from + j))) }
    ensures filled_when_passed { OnOk result (Stretch (10 * k) t.now.m (λ j. at plan.now (from + j)) v.old v.new) }
{
    for j in 0..t.m {
        let x = plan[from + j] as i64;
        let p = 10 * k + j;
        check_number(k, t.n + j, terms[p].low, terms[p].high, x).map_err(Refusal::OverLimit)?;
        v[p] = x;
    }
    Ok(())
}

// State i of step k: x against the number that S gives, then against its limits.
fn check_state(k: usize, i: usize, s: i64, low: i64, high: i64, x: i64) -> Result<(), Refusal>
    requires { nat_abs s < 2 ^ 40 }
    ensures { result ≡ state_check k i s low high x }
{
    let expected = state_of(s);
    check_number(k, i, expected, expected, x).map_err(Refusal::OffModel)?;
    check_number(k, i, low, high, x).map_err(Refusal::OverLimit)
}

// The states of step k, which stand in the plan from a place on.
fn check_states(
    v: &mut [i64; 120],
    plan: &[i32],
    t: &Tape,
    terms: &[Term; 120],
    from: usize,
    k: usize,
) -> Result<(), Refusal>
    requires legal { Legal t.now × TermsOf t.now terms.now × (k < t.now.horizon) }
    requires plan_len { (from + t.now.n ≤ length plan.now) × (length v.old ≡ 120) × Bounded most_number v.old }
    ensures value { result ≡ first t.now.n (λ i. state_check k i
        (model_sum 6 4 (state_matrix t.now.a) (input_matrix t.now.b) (at t.now.drift)
        (state_at (at t.now.start) (padded_plan v.old).x k) ((padded_plan v.old).u k) i)
        (term_at terms.now (10 * k + (4 + i))).low (term_at terms.now (10 * k + (4 + i))).high (at plan.now (from + i))) }
    ensures filled_when_passed { OnOk result (Stretch (10 * k + 4) t.now.n (λ i. at plan.now (from + i)) v.old v.new) }
{
    for i in 0..t.n {
        let s = model_sum(&t.a, &t.b, &t.drift, &t.start, v, k, i);
        let x = plan[from + i] as i64;
        let p = 10 * k + (4 + i);
        check_state(k, i, s, terms[p].low, terms[p].high, x)?;
        v[p] = x;
    }
    Ok(())
}

// Step k of the plan.
fn check_step(
    v: &mut [i64; 120],
    plan: &[i32],
    t: &Tape,
    terms: &[Term; 120],
    k: usize,
) -> Result<(), Refusal>
    requires legal { Legal t.now × TermsOf t.now terms.now × (k < t.now.horizon) }
    requires plan_len { (length plan.now ≡ t.now.horizon * (t.now.n + t.now.m)) × HeldPlan t.now.n t.now.m k (plan_of t.now.n t.now.m plan.now) v.old }
    ensures check_value { result ≡ step_check (problem_of t.now) (plan_of t.now.n t.now.m plan.now) k }
    ensures held_when_passed { OnOk result (HeldPlan t.now.n t.now.m (k + 1) (plan_of t.now.n t.now.m plan.now) v.new) }
{
    let from = k * (t.n + t.m);
    check_inputs(v, plan, t, terms, from, k)?;
    check_states(v, plan, t, terms, from + t.m, k)
}

// The plan's numbers at padded places, where all of it passes.
pub fn checked_plan(t: &Tape, terms: &[Term; 120], plan: &[i32]) -> Result<[i64; 120], Refusal>
    requires { Legal t.now × TermsOf t.now terms.now × (length plan.now ≡ t.now.horizon * (t.now.n + t.now.m)) }
    ensures { MatchResult result
        (λ v. (plan_check (problem_of t.now) (plan_of t.now.n t.now.m plan.now) ≡ Ok tt)
        × HeldPlan t.now.n t.now.m t.now.horizon (plan_of t.now.n t.now.m plan.now) v)
        (λ why. plan_check (problem_of t.now) (plan_of t.now.n t.now.m plan.now) ≡ Err why) }
{
    let mut v = [0i64; 120];
    for k in 0..t.horizon {
        check_step(&mut v, plan, t, terms, k)?;
    }
    Ok(v)
}
