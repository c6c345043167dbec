// Solving: the rounds, and what they leave in the lent slices.
#![tactic(auto)]

mod write;

ghost use Rattle.std.specs.Prelude.{◌+◌, ◌*◌, ◌<◌, ◌≤◌, ◌≡◌, length};
ghost use Rattle.integer.specs.Places.{Bounded};
ghost use Rattle.commands.specs.Ranges.{most_number, most_multiplier};
ghost use Rattle.tape.specs.Legal.{Legal};
ghost use Rattle.tape.specs.Reading.{reading};
ghost use Rattle.primal.specs.Padded.{padded_plan};
ghost use Rattle.primal.specs.Lent.{lent_plan};
ghost use Rattle.rounds.specs.Held.{ending_of};
ghost use Rattle.solver.specs.Solving.{solving_on, solving, duty, first_duties, answer_of, plan_left, multipliers_left};
ghost use Rattle.solver.specs.Demand.{Upheld, JudgedAgain, RoundsWithin};

use crate::write::{write_multipliers, write_plan};
use primal::terms::terms_of;
use rounds::{Ended, Outcome, run_rounds};
use tape::refusal::Refusal;
use tape::{Tape, read};

// u(0), the first step's heater duties; those beyond m are 0.
#[derive(Clone, Copy)]
pub struct Duties {
    pub u0: i32,
    pub u1: i32,
    pub u2: i32,
    pub u3: i32,
}

// Proved: the rounds entered, the gap and u(0). Impossible: the rounds entered.
#[derive(Clone, Copy)]
pub enum Solved {
    Proved(usize, i64, Duties),
    Impossible(usize),
}

// Works out the plan of a tape, and hands over its first step with the gap.
pub fn solve(tape: &[u8], plan: &mut [i32], multipliers: &mut [i32]) -> Result<Solved, Refusal>
    ensures value { result ≡ answer_of (reading tape.now).tape (solving tape.now plan.old multipliers.old) }
    ensures plan_after { plan.new ≡ plan_left (solving tape.now plan.old multipliers.old) plan.old }
    ensures multipliers_after { multipliers.new ≡ multipliers_left (solving tape.now plan.old multipliers.old) multipliers.old }
    ensures rounds_within { RoundsWithin result (reading tape.now).tape.rounds }
    ensures judged_again { JudgedAgain result tape.now plan.new multipliers.new }
    ensures upheld { Upheld result (reading tape.now).tape plan.new multipliers.new }
{
    let t = read(tape)?;
    solve_on(&t, plan, multipliers)
}

fn solve_on(t: &Tape, plan: &mut [i32], multipliers: &mut [i32]) -> Result<Solved, Refusal>
    requires { Legal t.now }
    ensures value { result ≡ answer_of t.now (solving_on t.now plan.old multipliers.old) }
    ensures plan_after { plan.new ≡ plan_left (solving_on t.now plan.old multipliers.old) plan.old }
    ensures multipliers_after { multipliers.new ≡ multipliers_left (solving_on t.now plan.old multipliers.old) multipliers.old }
{
    let n = t.n;
    let m = t.m;
    let horizon = t.horizon;
    if plan.len() != horizon * (n + m) {
        return Err(Refusal::Length);
    }
    if multipliers.len() != horizon * n {
        return Err(Refusal::Length);
    }
    let outcome = run_rounds(t, &terms_of(t));
    hand_over(t, outcome, plan, multipliers)
}

// The answer to the end of the rounds; the lent slices are written here and nowhere else.
// The outcome goes by value: as a reference it would stay whole on the stack, 1,560 bytes more.
fn hand_over(
    t: &Tape,
    outcome: Outcome,
    plan: &mut [i32],
    multipliers: &mut [i32],
) -> Result<Solved, Refusal>
    requires legal { Legal t.now × (length plan.old ≡ t.now.horizon * (t.now.n + t.now.m)) × (length multipliers.old ≡ t.now.horizon * t.now.n) }
    requires bounded { Bounded most_number outcome.plan × Bounded most_multiplier outcome.multipliers }
    ensures value { result ≡ answer_of t.now (ending_of t.now outcome.ended outcome.plan outcome.multipliers) }
    ensures plan_after { plan.new ≡ plan_left (ending_of t.now outcome.ended outcome.plan outcome.multipliers) plan.old }
    ensures multipliers_after { multipliers.new ≡ multipliers_left (ending_of t.now outcome.ended outcome.plan outcome.multipliers) multipliers.old }
{
    let n = t.n;
    let m = t.m;
    let horizon = t.horizon;
    match outcome.ended {
        Ended::Proved(rounds, gap) => {
            write_plan(plan, &outcome.plan, n, m, horizon);
            write_multipliers(multipliers, &outcome.multipliers, n, horizon);
            let first = first_duties(&outcome.plan, n, m, horizon);
            Ok(Solved::Proved(rounds, gap, first))
        }
        Ended::Impossible(rounds) => {
            write_multipliers(multipliers, &outcome.multipliers, n, horizon);
            Ok(Solved::Impossible(rounds))
        }
        Ended::Open => Err(Refusal::Open(t.rounds)),
    }
}

fn duty_at(v: &[i64; 120], n: usize, m: usize, horizon: usize, j: usize) -> i32
    requires { (j < 4) × (1 ≤ horizon) × Bounded most_number v.now }
    ensures { result ≡ duty m (lent_plan n m horizon (padded_plan v.now)) j }
{
    if j < m {
        return v[j] as i32;
    }
    0
}

fn first_duties(v: &[i64; 120], n: usize, m: usize, horizon: usize) -> Duties
    requires { (1 ≤ horizon) × Bounded most_number v.now }
    ensures { result ≡ first_duties m (lent_plan n m horizon (padded_plan v.now)) }
{
    Duties {
        u0: duty_at(v, n, m, horizon, 0),
        u1: duty_at(v, n, m, horizon, 1),
        u2: duty_at(v, n, m, horizon, 2),
        u3: duty_at(v, n, m, horizon, 3),
    }
}
