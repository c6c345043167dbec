// A tape solved, and its firing record written for both readers.
#![tactic(auto)]

ghost use Rattle.std.specs.Prelude.{◌≡◌, length};
ghost use Rattle.tape.specs.Answer.{told_of};
ghost use Rattle.tape.specs.Reading.{reading};
ghost use Rattle.tape.specs.Refusals.{row};
ghost use Rattle.recorder.specs.Recording.{sizes_of, unanswered, recording};
ghost use Rattle.records.specs.Readers.{service_length};
ghost use Rattle.recorder.specs.Calls.{wrong_lengths, recorded_at, answer_of, laboratory_left, service_left};
ghost use Rattle.recorder.specs.Demand.{UpheldIn};
ghost use Rattle.records.specs.Held.{Fitting};
ghost use Rattle.recorder.specs.Held.{KeptFits, sizes_told};

use records::Sizes;
use records::write::{write_impossible, write_open, write_proved};
use solution::solve_tape;
use solver::Solved;
use tape::read;
use tape::refusal::{Carried, Refusal, carries};

// The kind of the record that was written.
#[derive(Clone, Copy)]
pub enum Recorded {
    Proved,
    Impossible,
    Open,
}

// Solves a tape, and writes its record for the laboratory and for the service. A refusal leaves both
// slices as they were.
pub fn write_record(
    tape: &[u8],
    laboratory: &mut [u8],
    service: &mut [u8],
) -> Result<Recorded, Refusal>
    ensures value { result ≡ answer_of (recorded_at tape.now (length laboratory.old) (length service.old)) }
    ensures laboratory_after { laboratory.new ≡ laboratory_left (recorded_at tape.now (length laboratory.old) (length service.old)) laboratory.old }
    ensures service_after { service.new ≡ service_left (recorded_at tape.now (length laboratory.old) (length service.old)) service.old }
    ensures upheld_in { UpheldIn result (reading tape.now).tape laboratory.new service.new }
{
    let sizes = sizes_read(tape)?;
    if is_wrong_length(sizes, laboratory.len(), service.len()) {
        return Err(Refusal::Length);
    }
    write_solved(tape, sizes, laboratory, service)
}

// Never inlined, so that the tape's numbers are off the stack while it is solved.
#[inline(never)]
fn sizes_read(tape: &[u8]) -> Result<Sizes, Refusal>
    ensures { result ≡ sizes_told (told_of (reading tape.now)) }
{
    let t = read(tape)?;
    Ok(Sizes {
        n: t.n,
        m: t.m,
        horizon: t.horizon,
    })
}

fn is_wrong_length(sizes: Sizes, laboratory: usize, service: usize) -> bool
    requires { Fitting sizes }
    ensures { result ≡ wrong_lengths sizes laboratory service }
{
    laboratory != 16 || service != 19 + 4 * (sizes.horizon * (2 * sizes.n + sizes.m))
}

// Solves a tape that is accepted, and writes its record into slices of its lengths.
fn write_solved(
    tape: &[u8],
    sizes: Sizes,
    laboratory: &mut [u8],
    service: &mut [u8],
) -> Result<Recorded, Refusal>
    requires { (sizes ≡ sizes_of (reading tape.now).tape) × (length laboratory.old ≡ 16) × (length service.old ≡ service_length sizes) }
    ensures value { result ≡ answer_of (recording tape.now) }
    ensures laboratory_after { laboratory.new ≡ laboratory_left (recording tape.now) laboratory.old }
    ensures service_after { service.new ≡ service_left (recording tape.now) service.old }
{
    let solution = solve_tape(tape);
    let p = sizes.horizon * (sizes.n + sizes.m);
    let q = sizes.horizon * sizes.n;
    match solution.answer {
        Ok(Solved::Proved(rounds, gap, _)) => {
            write_proved(
                laboratory,
                service,
                sizes,
                rounds,
                gap,
                &solution.plan[..p],
                &solution.multipliers[..q],
            );
            Ok(Recorded::Proved)
        }
        Ok(Solved::Impossible(rounds)) => {
            write_impossible(
                laboratory,
                service,
                sizes,
                rounds,
                &solution.multipliers[..q],
            );
            Ok(Recorded::Impossible)
        }
        Err(why) => write_unanswered(why, sizes, laboratory, service),
    }
}

// 'Open' leaves a record; any other refusal leaves none.
fn write_unanswered(
    why: Refusal,
    sizes: Sizes,
    laboratory: &mut [u8],
    service: &mut [u8],
) -> Result<Recorded, Refusal>
    requires { KeptFits (unanswered sizes why (row why).carries) × (length laboratory.old ≡ 16) × (length service.old ≡ service_length sizes) }
    ensures value { result ≡ answer_of (unanswered sizes why (row why).carries) }
    ensures laboratory_after { laboratory.new ≡ laboratory_left (unanswered sizes why (row why).carries) laboratory.old }
    ensures service_after { service.new ≡ service_left (unanswered sizes why (row why).carries) service.old }
{
    if let Carried::Rounds(rounds) = carries(why) {
        write_open(laboratory, service, sizes, rounds);
        return Ok(Recorded::Open);
    }
    Err(why)
}
