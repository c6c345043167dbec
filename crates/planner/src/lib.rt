// The planner for other languages: the calls of document 01, and those that requests of document 02
// added, as C functions. Each returns 0 where it has a result, and else the refusal's number + 256
// times what it carries.
#![tactic(auto)]

mod answer;
mod band;
mod ends;
mod imports;
mod record;
mod report;

ghost use Rattle.std.specs.Prelude.{◌≤◌, [], ◌∷◌, ◌≡◌, pos};
ghost use Rattle.commands.specs.Ranges.{most_rounds};
ghost use Rattle.tape.specs.Reading.{reading};
ghost use Rattle.judge.specs.Judging.{judged, shown};
ghost use Rattle.solver.specs.Solving.{solving, answer_of, plan_left, multipliers_left};
ghost use Rattle.planner.specs.Calls.{read_code, read_left, references_left, step_left, judged_code, judged_left, shown_code, solved_code, solved_left, solved_numbers, rounds_of};
ghost use Rattle.planner.specs.Demand.{BackedBy, FoundedBy, UpheldBy, AgainBy, RoundsBy};

use crate::answer::answer;
use judge::{judge_multipliers, judge_plan};
use numbers::{code, numbers_of, reference_numbers, step_numbers};
use solver::{Duties, Solved, solve};
use tape::read;

// Reads a tape. `out` then holds its numbers.
#[unsafe(no_mangle)]
pub extern "C" fn fibergravel_read(tape: &[u8], out: &mut [i64; 118]) -> u64
    ensures value { result ≡ read_code (reading tape.now).answer }
    ensures out_after { out.new ≡ read_left (reading tape.now).answer (reading tape.now).tape out.old }
{
    // `map` would take the tape by value, and hold it on the stack once more.
    match read(tape) {
        Ok(t) => answer(Ok(numbers_of(&t)), out),
        Err(why) => answer(Err(why), out),
    }
}

// Reads the references that a tape gives by step. `out` then holds them and their marks.
#[unsafe(no_mangle)]
pub extern "C" fn fibergravel_read_references(tape: &[u8], out: &mut [i64; 240]) -> u64
    ensures value { result ≡ read_code (reading tape.now).answer }
    ensures out_after { out.new ≡ references_left (reading tape.now).answer (reading tape.now).tape out.old }
{
    answer(read(tape).map(reference_numbers), out)
}

// Reads which step a tape asks for. `out` then holds 0 for command 50, 1 for 51.
#[unsafe(no_mangle)]
pub extern "C" fn fibergravel_read_step(tape: &[u8], out: &mut [i64; 1]) -> u64
    ensures value { result ≡ read_code (reading tape.now).answer }
    ensures out_after { out.new ≡ step_left (reading tape.now).answer (reading tape.now).tape out.old }
{
    answer(read(tape).map(step_numbers), out)
}

// Judges a plan with multipliers. `out` then holds the gap.
#[unsafe(no_mangle)]
pub extern "C" fn fibergravel_judge_plan(
    tape: &[u8],
    plan: &[i32],
    multipliers: &[i32],
    out: &mut [i64; 1],
) -> u64
    ensures value { result ≡ judged_code (judged tape.now plan.now multipliers.now) }
    ensures out_after { out.new ≡ judged_left (judged tape.now plan.now multipliers.now) out.old }
    ensures backed_by { BackedBy result out.new (reading tape.now).tape plan.now multipliers.now }
{
    answer(judge_plan(tape, plan, multipliers).map(gap_numbers), out)
}

fn gap_numbers(gap: i64) -> [i64; 1]
    ensures { result ≡ gap ∷ [] }
{
    [gap]
}

// Judges multipliers for impossibility.
#[unsafe(no_mangle)]
pub extern "C" fn fibergravel_judge_multipliers(tape: &[u8], multipliers: &[i32]) -> u64
    ensures value { result ≡ shown_code (shown tape.now multipliers.now) }
    ensures founded_by { FoundedBy result (reading tape.now).tape }
{
    match judge_multipliers(tape, multipliers) {
        Ok(()) => 0,
        Err(why) => code(why),
    }
}

// Works out the plan of a tape. `out` then holds kind, rounds, gap and u(0).
#[unsafe(no_mangle)]
pub extern "C" fn fibergravel_solve(
    tape: &[u8],
    plan: &mut [i32],
    multipliers: &mut [i32],
    out: &mut [i64; 7],
) -> u64
    ensures value { result ≡ solved_code (answer_of (reading tape.now).tape (solving tape.now plan.old multipliers.old)) }
    ensures out_after { out.new ≡ solved_left (answer_of (reading tape.now).tape (solving tape.now plan.old multipliers.old)) out.old }
    ensures plan_after { plan.new ≡ plan_left (solving tape.now plan.old multipliers.old) plan.old }
    ensures multipliers_after { multipliers.new ≡ multipliers_left (solving tape.now plan.old multipliers.old) multipliers.old }
    ensures rounds_by { RoundsBy result out.new (reading tape.now).tape.rounds }
    ensures again_by { AgainBy result out.new tape.now plan.new multipliers.new }
    ensures upheld_by { UpheldBy result out.new (reading tape.now).tape plan.new multipliers.new }
{
    answer(solve(tape, plan, multipliers).map(solved_numbers), out)
}

// What an answer lacks is 0.
fn solved_numbers(answer: Solved) -> [i64; 7]
    requires { rounds_of answer ≤ most_rounds }
    ensures { result ≡ solved_numbers answer }
{
    match answer {
        Solved::Proved(rounds, gap, first) => proved_numbers(rounds, gap, first),
        Solved::Impossible(rounds) => [2, rounds as i64, 0, 0, 0, 0, 0],
    }
}

// Kind 1, rounds, gap and u(0).
fn proved_numbers(rounds: usize, gap: i64, first: Duties) -> [i64; 7]
    requires { rounds ≤ most_rounds }
    ensures { result ≡ pos 1 ∷ pos rounds ∷ gap ∷ first.u0 ∷ first.u1 ∷ first.u2 ∷ first.u3 ∷ [] }
{
    [
        1,
        rounds as i64,
        gap,
        first.u0 as i64,
        first.u1 as i64,
        first.u2 as i64,
        first.u3 as i64,
    ]
}
