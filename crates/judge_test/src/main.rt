// Judges the cases on standard input and writes the answers, or the ranges of the first duties.
#![tactic(auto)]

use cases::{Case, each_case, refused};
use judge::{judge_multipliers, judge_plan};
use ranges::judge_ranges;
use ranges::range::Range;
use std::io;

fn main(rt: HostRuntime) -> io::Result<()> {
    each_case(&rt, |case| judge(&rt, case))
}

fn judge(rt: &impl Print, case: Case) -> io::Result<()> {
    let tape = case.tape;
    let bytes = case.digits / 2;
    let first = case.first;
    let second = case.second;
    let counts = case.counts;
    match case.kind {
        Some(b'j') => show_judged(rt, &tape, bytes, &first, counts[0], &second, counts[1]),
        Some(b'h') => show_shown(rt, &tape, bytes, &first, counts[0]),
        Some(b'r') => show_ranges(rt, &tape, bytes, &first, counts[0], &second, counts[1]),
        _ => Ok(()),
    }
}

fn show_judged(
    rt: &impl Print,
    tape: &[u8],
    bytes: usize,
    plan: &[i32],
    p: usize,
    multipliers: &[i32],
    q: usize,
) -> io::Result<()> {
    let (Some(tape), Some(plan), Some(multipliers)) = (
        tape.get(..bytes),
        plan.get(..p),
        multipliers.get(..q),
    ) else {
        return Ok(());
    };
    match judge_plan(tape, plan, multipliers) {
        Ok(gap) => {
            print::word(rt, b"gap")?;
            print::number(rt, gap)?;
        }
        Err(why) => refused(rt, why)?,
    }
    print::end(rt)
}

fn show_shown(
    rt: &impl Print,
    tape: &[u8],
    bytes: usize,
    multipliers: &[i32],
    q: usize,
) -> io::Result<()> {
    let (Some(tape), Some(multipliers)) = (tape.get(..bytes), multipliers.get(..q)) else {
        return Ok(());
    };
    match judge_multipliers(tape, multipliers) {
        Ok(()) => print::word(rt, b"shown")?,
        Err(why) => refused(rt, why)?,
    }
    print::end(rt)
}

fn show_ranges(
    rt: &impl Print,
    tape: &[u8],
    bytes: usize,
    plan: &[i32],
    p: usize,
    multipliers: &[i32],
    q: usize,
) -> io::Result<()> {
    let (Some(tape), Some(plan), Some(multipliers)) = (
        tape.get(..bytes),
        plan.get(..p),
        multipliers.get(..q),
    ) else {
        return Ok(());
    };
    match judge_ranges(tape, plan, multipliers) {
        Ok(ranges) => {
            print::word(rt, b"ranges")?;
            show_range(rt, ranges.u0)?;
            show_range(rt, ranges.u1)?;
            show_range(rt, ranges.u2)?;
            show_range(rt, ranges.u3)?;
        }
        Err(why) => refused(rt, why)?,
    }
    print::end(rt)
}

fn show_range(rt: &impl Print, range: Range) -> io::Result<()> {
    print::number(rt, range.low)?;
    print::number(rt, range.high)
}
