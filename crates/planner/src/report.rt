// The call that reports where a plan fails.
ghost use Rattle.std.specs.Prelude.{◌<◌, ◌≤◌, [], ◌∷◌, ◌≡◌, pos};
ghost use Rattle.tape.specs.Refusals.{row};
ghost use Rattle.judge.specs.Judging.{judged};
ghost use Rattle.planner.specs.Reports.{refused_code, refused_left, reported_code, reported_left, ReportedBy, SmallCarried};

use judge::judge_plan;
use numbers::code;
use tape::refusal::{Carried, Fault, Refusal, Span, carries, number};

// Judges a plan with multipliers. `out` then holds 0 and the gap, or what is wrong with the plan.
#[unsafe(no_mangle)]
pub extern "C" fn fibergravel_judge_report(
    tape: &[u8],
    plan: &[i32],
    multipliers: &[i32],
    out: &mut [i64; 5],
) -> u64
    ensures value { result ≡ reported_code (judged tape.now plan.now multipliers.now) }
    ensures out_after { out.new ≡ reported_left (judged tape.now plan.now multipliers.now) out.old }
    ensures reported_by { ReportedBy result out.new tape.now plan.now multipliers.now }
{
    match judge_plan(tape, plan, multipliers) {
        Ok(gap) => {
            *out = [0, gap, 0, 0, 0];
            0
        }
        Err(why) => report_refusal(why, out),
    }
}

// Where a refusal says what is wrong with the plan, that is the result.
fn report_refusal(why: Refusal, out: &mut [i64; 5]) -> u64
    requires { SmallCarried (row why).carries }
    ensures value { result ≡ refused_code why (row why).carries }
    ensures out_after { out.new ≡ refused_left why (row why).carries out.old }
{
    let carried = carries(why);
    match carried {
        Carried::Fault(fault) => {
            *out = fault_numbers(number(why), fault);
            0
        }
        Carried::Span(span) => {
            *out = span_numbers(number(why), span);
            0
        }
        Carried::Place(_) => code(why),
        Carried::Nothing => code(why),
        Carried::Rounds(_) => code(why),
    }
}

// A refusal's number and a fault.
fn fault_numbers(refusal: usize, fault: Fault) -> [i64; 5]
    requires { (refusal ≤ 18) × (fault.step < 12) × (fault.column < 10) }
    ensures { result ≡ pos refusal ∷ pos fault.step ∷ pos fault.column ∷ fault.found ∷ fault.due ∷ [] }
{
    [
        refusal as i64,
        fault.step as i64,
        fault.column as i64,
        fault.found,
        fault.due,
    ]
}

// A refusal's number, cost and floor.
fn span_numbers(refusal: usize, span: Span) -> [i64; 5]
    requires { refusal ≤ 18 }
    ensures { result ≡ pos refusal ∷ span.cost ∷ span.floor ∷ pos 0 ∷ pos 0 ∷ [] }
{
    [refusal as i64, span.cost, span.floor, 0, 0]
}
