// Solves the cases on standard input and writes the answers, and what the lent slices hold then.
#![tactic(auto)]

use cases::{Case, each_case, refused};
use solver::{Duties, Solved, solve};
use std::io;

fn main(rt: HostRuntime) -> io::Result<()> {
    each_case(&rt, |case| lend(&rt, case))
}

fn lend(rt: &impl Print, case: Case) -> io::Result<()> {
    let tape = case.tape;
    let counts = case.counts;
    let mut plan = case.first;
    let mut multipliers = case.second;
    match case.kind {
        Some(b'v') => lend_parts(
            rt,
            &tape,
            case.digits / 2,
            &mut plan,
            counts[0],
            &mut multipliers,
            counts[1],
        ),
        _ => Ok(()),
    }
}

// Lends the first bytes of the tape, the first p numbers of the plan and the first q multipliers.
fn lend_parts(
    rt: &impl Print,
    tape: &[u8],
    bytes: usize,
    plan: &mut [i32],
    p: usize,
    multipliers: &mut [i32],
    q: usize,
) -> io::Result<()> {
    if tape.len() < bytes {
        return Ok(());
    }
    if plan.len() < p {
        return Ok(());
    }
    if multipliers.len() < q {
        return Ok(());
    }
    show_solved(rt, &tape[..bytes], &mut plan[..p], &mut multipliers[..q])
}

fn show_solved(
    rt: &impl Print,
    tape: &[u8],
    plan: &mut [i32],
    multipliers: &mut [i32],
) -> io::Result<()> {
    match solve(tape, plan, multipliers) {
        Ok(Solved::Proved(rounds, gap, first)) => show_proved(rt, rounds, gap, first)?,
        Ok(Solved::Impossible(rounds)) => {
            print::word(rt, b"impossible")?;
            print::unsigned(rt, rounds as u64)?;
        }
        Err(why) => refused(rt, why)?,
    }
    print::end(rt)?;
    numbers(rt, b"plan", plan)?;
    numbers(rt, b"multipliers", multipliers)
}

fn show_proved(rt: &impl Print, rounds: usize, gap: i64, first: Duties) -> io::Result<()> {
    print::word(rt, b"proved")?;
    print::unsigned(rt, rounds as u64)?;
    print::number(rt, gap)?;
    number(rt, first.u0)?;
    number(rt, first.u1)?;
    number(rt, first.u2)?;
    number(rt, first.u3)
}

fn numbers(rt: &impl Print, name: &[u8], list: &[i32]) -> io::Result<()> {
    print::word(rt, name)?;
    for x in list {
        number(rt, *x)?;
    }
    print::end(rt)
}

fn number(rt: &impl Print, x: i32) -> io::Result<()> {
    print::number(rt, x as i64)
}
