// The rounds of a solve. Each takes document 01's four steps. Step 4 goes before step 3: its residuals
// bound the floor, and only where that bound leaves an answer open is the floor itself worked out.
#![tactic(auto)]

mod verdict;

ghost use Rattle.std.specs.Prelude.{◌≡◌, true, replicate, pos};
ghost use Rattle.integer.specs.Places.{Bounded};
ghost use Rattle.commands.specs.Ranges.{most_number, most_multiplier};
ghost use Rattle.tape.specs.Legal.{Legal};
ghost use Rattle.problem.specs.Model.{problem_of};
ghost use Rattle.problem.specs.Dual.{ceiling};
ghost use Rattle.primal.specs.Terms.{TermsOf};
ghost use Rattle.primal.specs.Held.{BlankMultipliers, BlankPlan};
ghost use Rattle.banded.specs.Step.{uses_band};
ghost use Rattle.banded.specs.Rows.{TapeRows, Factored};
ghost use Rattle.lookup.specs.Table.{RowsOf};
ghost use Rattle.rounds.specs.declared.Ended.TheVariants as ends;
ghost use Rattle.rounds.specs.Running.{rounds, start};
ghost use Rattle.rounds.specs.Held.{ending_of, NextHeld};

use crate::verdict::{may_answer, weigh};
use ascent::ascend_by_band;
use banded::factored_of;
use banded::rows::Row;
use lookup::minimise::minimise;
use lookup::table::table_of;
use passes::ascend::ascend;
use passes::followed::follow;
use passes::forced::force;
use primal::cost::ceiling_of;
use primal::model::residuals;
use problem::Term;
use steps::arrays::multipliers_ahead;
use steps::verdict::Verdict;
use tape::Tape;

// The multipliers y of a round, and those before them.
#[derive(Clone, Copy)]
pub struct RoundState {
    pub current: [i64; 72],
    pub previous: [i64; 72],
}

impl RoundState {
    fn start() -> RoundState
        ensures { (result.current ≡ replicate 72 (pos 0)) × (result.previous ≡ replicate 72 (pos 0)) }
    {
        let zeros = [0i64; 72];
        RoundState {
            current: zeros,
            previous: zeros,
        }
    }

    // The state with the next y: the one that was current goes before it.
    fn next(mut self, y: [i64; 72]) -> RoundState
        ensures { (result.current ≡ y) × (result.previous ≡ self.current) }
    {
        let current = self.current;
        self.previous = current;
        self.current = y;
        self
    }
}

// How the rounds ended, with the rounds entered, the answering one included.
#[derive(Clone, Copy)]
pub enum Ended {
    Proved(usize, i64),
    Impossible(usize),
    Open,
}

// The plan where the end is 'proved', and the multipliers where it is 'proved' or 'impossible'.
#[derive(Clone, Copy)]
pub struct Outcome {
    pub ended: Ended,
    pub plan: [i64; 120],
    pub multipliers: [i64; 72],
}

impl Outcome {
    fn at_end(ended: Ended, plan: [i64; 120], multipliers: [i64; 72]) -> Outcome
        ensures { (result.ended ≡ ended) × (result.plan ≡ plan) × (result.multipliers ≡ multipliers) }
    {
        Outcome {
            ended: ended,
            plan: plan,
            multipliers: multipliers,
        }
    }

    fn impossible(rounds: usize, multipliers: [i64; 72]) -> Outcome
        ensures { (result.ended ≡ ends.Impossible rounds) × (result.plan ≡ replicate 120 (pos 0)) × (result.multipliers ≡ multipliers) }
    {
        let plan = [0i64; 120];
        Outcome::at_end(Ended::Impossible(rounds), plan, multipliers)
    }

    fn open() -> Outcome
        ensures { (result.ended ≡ ends.Open) × (result.plan ≡ replicate 120 (pos 0)) × (result.multipliers ≡ replicate 72 (pos 0)) }
    {
        let plan = [0i64; 120];
        let multipliers = [0i64; 72];
        Outcome::at_end(Ended::Open, plan, multipliers)
    }
}

// Step 4 by command 51, from the numbers v of step 2.
fn next_by_band(t: &Tape, rows: &[Row; 72], ahead: &[i64; 72], v: &[i64; 120]) -> [i64; 72]
    requires legal { Legal t.now × (uses_band t.now ≡ true) × TapeRows t.now rows.now × BlankMultipliers t.now.n ahead.now × Bounded most_multiplier ahead.now }
    requires blank_plan { BlankPlan t.now.n t.now.m v.now × Bounded most_number v.now }
    ensures { NextHeld t.now ahead.now v.now result }
{
    let e = residuals(&t.a, &t.b, &t.drift, &t.start, v, t.horizon);
    ascend_by_band(t, rows, ahead, &e)
}

// The rounds, from what is made once a solve: the table of the terms, the eliminated rows, where the
// tape is solved by them, and the ceiling.
fn search(
    t: &Tape,
    terms: &[Term; 120],
    table: &[i64; 840],
    factored: &Option<[Row; 72]>,
    highest: i64,
) -> Outcome
    requires legal { Legal t.now × TermsOf t.now terms.now × (highest ≡ ceiling (problem_of t.now)) }
    requires rows_of { RowsOf terms.now table.now × Factored t.now factored.now }
    ensures t_value { rounds t.now t.now.rounds 0 (start t.now) (start t.now) ≡ ending_of t.now result.ended result.plan result.multipliers }
    ensures bounded { Bounded most_number result.plan × Bounded most_multiplier result.multipliers }
{
    let horizon = t.horizon;
    let mut state = RoundState::start();
    for k in 0..t.rounds {
        let mut y = [0i64; 72];
        multipliers_ahead(&mut y, &state.current, &state.previous, k as i64, horizon);
        let mut v = [0i64; 120];
        let costs = minimise(&mut v, table, &t.a, &t.b, &y, horizon);
        let mut forced = [0i64; 72];
        force(&mut forced, &t.b, &t.drift, &v, horizon);
        let mut next = [0i64; 72];
        let pull = ascend(&mut next, &t.a, &forced, &t.start, &v, &y, t.gain, horizon);
        if let Some(rows) = factored {
            next = next_by_band(t, rows, &y, &v);
        }
        let followed = follow(&mut v, table, &t.a, &forced, &t.start, t.n, horizon);
        let cost = followed.map(|states| costs.inputs + states);
        let upper = costs.inputs + costs.states + pull;
        let least = cost.map(|cost| cost - upper);
        if may_answer(least, t.wanted, highest, upper) {
            match weigh(t, terms, &y, highest, cost) {
                Some(Verdict::Proved(gap)) => {
                    return Outcome::at_end(Ended::Proved(k + 1, gap), v, y);
                }
                Some(Verdict::Impossible) => return Outcome::impossible(k + 1, y),
                None => {}
            }
        }
        state = state.next(next);
    }
    Outcome::open()
}

pub fn run_rounds(t: &Tape, terms: &[Term; 120]) -> Outcome
    requires { Legal t.now × TermsOf t.now terms.now }
    ensures t_value { rounds t.now t.now.rounds 0 (start t.now) (start t.now) ≡ ending_of t.now result.ended result.plan result.multipliers }
    ensures bounded { Bounded most_number result.plan × Bounded most_multiplier result.multipliers }
{
    let highest = ceiling_of(terms, t.horizon);
    search(t, terms, &table_of(terms), &factored_of(t), highest)
}
