// A tape read and solved: the answer, with the tape's numbers, the plan and the multipliers.
#![tactic(auto)]

ghost use Rattle.std.specs.Prelude.{◌≡◌, take};
ghost use Rattle.tape.specs.Reading.{reading};
ghost use Rattle.solver.specs.Demand.{Upheld};
ghost use Rattle.solution.specs.Solution.{plan_numbers, multiplier_numbers, solution_of};

use solver::{Solved, solve};
use tape::refusal::Refusal;
use tape::{Tape, read};

// A tape's numbers, with what its solve answers and leaves. The first N(n + m) numbers of the plan
// and the first N × n multipliers count; those behind them are 0.
#[derive(Clone, Copy)]
pub struct Solution {
    pub answer: Result<Solved, Refusal>,
    pub tape: Tape,
    pub plan: [i32; 120],
    pub multipliers: [i32; 72],
}

// A refused tape's numbers are 0.
fn numbers_of(tape: &[u8]) -> Tape
    ensures { result ≡ (reading tape.now).tape }
{
    match read(tape) {
        Ok(numbers) => numbers,
        Err(_) => Tape::blank(),
    }
}

// Solves a tape with slices of zeros of the lengths that it asks for, so none are lent for a refused
// one.
pub fn solve_tape(tape: &[u8]) -> Solution
    ensures value { result ≡ solution_of tape.now }
    ensures upheld { Upheld result.answer result.tape (take (plan_numbers result.tape) result.plan) (take (multiplier_numbers result.tape) result.multipliers) }
{
    let numbers = numbers_of(tape);
    let p = numbers.horizon * (numbers.n + numbers.m);
    let q = numbers.horizon * numbers.n;
    let mut plan = [0i32; 120];
    let mut multipliers = [0i32; 72];
    let answer = solve(tape, &mut plan[..p], &mut multipliers[..q]);
    Solution {
        answer: answer,
        tape: numbers,
        plan: plan,
        multipliers: multipliers,
    }
}
