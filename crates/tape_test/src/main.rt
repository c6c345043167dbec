// Reads the tapes on standard input and writes what reading each of them gives.
#![tactic(auto)]

use cases::{Case, each_case, refused};
use std::io;
use tape::{Curves, Tape, read};

fn main(rt: HostRuntime) -> io::Result<()> {
    each_case(&rt, |case| show(&rt, case))
}

fn show(rt: &impl Print, case: Case) -> io::Result<()> {
    match case.kind {
        Some(kind @ (b'r' | b'p' | b'b')) => show_reading(rt, kind, &case.tape, case.digits / 2),
        _ => Ok(()),
    }
}

fn show_reading(rt: &impl Print, kind: u8, tape: &[u8], bytes: usize) -> io::Result<()> {
    if tape.len() < bytes {
        return Ok(());
    }
    match read(&tape[..bytes]) {
        Ok(t) => show_numbers(rt, kind, &t)?,
        Err(why) => refused(rt, why)?,
    }
    print::end(rt)
}

fn show_numbers(rt: &impl Print, kind: u8, t: &Tape) -> io::Result<()> {
    match kind {
        b'p' => show_curves(rt, &t.curves),
        b'b' => show_step(rt, t.banded),
        _ => show_tape(rt, t),
    }
}

fn show_curves(rt: &impl Print, curves: &Curves) -> io::Result<()> {
    print::word(rt, b"steps")?;
    numbers(rt, &curves.reference)?;
    for given in curves.given {
        mark(rt, given)?;
    }
    Ok(())
}

fn mark(rt: &impl Print, given: bool) -> io::Result<()> {
    print::unsigned(rt, given as u64)
}

fn show_step(rt: &impl Print, banded: bool) -> io::Result<()> {
    print::word(rt, b"step")?;
    mark(rt, banded)
}

fn show_tape(rt: &impl Print, t: &Tape) -> io::Result<()> {
    print::word(rt, b"read")?;
    print::unsigned(rt, t.n as u64)?;
    print::unsigned(rt, t.m as u64)?;
    print::unsigned(rt, t.horizon as u64)?;
    numbers(rt, &t.a)?;
    numbers(rt, &t.b)?;
    numbers(rt, &t.drift)?;
    numbers(rt, &t.low)?;
    numbers(rt, &t.high)?;
    numbers(rt, &t.reference)?;
    numbers(rt, &t.weight)?;
    numbers(rt, &t.start)?;
    print::number(rt, t.gain)?;
    print::unsigned(rt, t.rounds as u64)?;
    print::number(rt, t.wanted)
}

fn numbers(rt: &impl Print, list: &[i64]) -> io::Result<()> {
    for x in list {
        print::number(rt, *x)?;
    }
    Ok(())
}
