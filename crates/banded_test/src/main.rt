// Runs the banded step's functions on the cases on standard input: which pivots can be used, the next
// multiplier from any d, and the correction of residuals.
#![tactic(auto)]

use ascent::multiplier::next_multiplier;
use banded::rows::is_usable;
use cases::floats::{bits, float_at};
use cases::{Case, each_case, refused};
use commands::range::{LEAST_MULTIPLIER, MOST_MULTIPLIER};
use corrections::{Corrected, banded_correction};
use integer::number::limit;
use std::io;

fn main(rt: HostRuntime) -> io::Result<()> {
    each_case(&rt, |case| show(&rt, case))
}

fn show(rt: &impl Print, case: Case) -> io::Result<()> {
    let bytes = case.tape;
    let digits = case.digits / 2;
    let numbers = case.first;
    let counts = case.counts;
    match case.kind {
        Some(b'v') => show_pivot(rt, float_at(&bytes, 0)),
        Some(b'x') => show_next(rt, float_at(&bytes, 0), numbers[0]),
        Some(b'i') => show_correction(rt, &bytes, digits, &numbers, counts[0]),
        _ => Ok(()),
    }
}

fn show_pivot(rt: &impl Print, x: f64) -> io::Result<()> {
    print::word(rt, b"usable")?;
    if is_usable(x) {
        print::word(rt, b" 1")?;
    } else {
        print::word(rt, b" 0")?;
    }
    print::end(rt)
}

fn show_next(rt: &impl Print, d: f64, y: i32) -> io::Result<()> {
    print::word(rt, b"next")?;
    print::number(
        rt,
        next_multiplier(limit(y as i64, LEAST_MULTIPLIER, MOST_MULTIPLIER), d),
    )?;
    print::end(rt)
}

// The lent floats are 7.0 throughout, as many as there are residuals.
fn show_correction(
    rt: &impl Print,
    tape: &[u8],
    bytes: usize,
    numbers: &[i32],
    count: usize,
) -> io::Result<()> {
    let residuals = widened(numbers);
    let mut pivots = [7.0f64; 160];
    let mut correction = [7.0f64; 160];
    show_parts(
        rt,
        tape,
        bytes,
        &residuals,
        &mut pivots,
        &mut correction,
        count,
    )
}

fn show_parts(
    rt: &impl Print,
    tape: &[u8],
    bytes: usize,
    residuals: &[i64],
    pivots: &mut [f64],
    correction: &mut [f64],
    count: usize,
) -> io::Result<()> {
    if tape.len() < bytes {
        return Ok(());
    }
    if residuals.len() < count {
        return Ok(());
    }
    if pivots.len() < count {
        return Ok(());
    }
    if correction.len() < count {
        return Ok(());
    }
    show_answer(
        rt,
        &tape[..bytes],
        &residuals[..count],
        &mut pivots[..count],
        &mut correction[..count],
    )
}

fn show_answer(
    rt: &impl Print,
    tape: &[u8],
    residuals: &[i64],
    pivots: &mut [f64],
    correction: &mut [f64],
) -> io::Result<()> {
    match banded_correction(tape, residuals, pivots, correction) {
        Ok(Corrected::Written) => show_slices(rt, b"correction 1 /", pivots, correction)?,
        Ok(Corrected::Unused) => show_slices(rt, b"correction 0 /", pivots, correction)?,
        Err(why) => refused(rt, why)?,
    }
    print::end(rt)
}

fn show_slices(rt: &impl Print, word: &[u8], pivots: &[f64], correction: &[f64]) -> io::Result<()> {
    print::word(rt, word)?;
    list(rt, pivots)?;
    print::word(rt, b" /")?;
    list(rt, correction)
}

fn list(rt: &impl Print, floats: &[f64]) -> io::Result<()> {
    for x in floats {
        bits(rt, *x)?;
    }
    Ok(())
}

// The numbers as residuals.
fn widened(numbers: &[i32]) -> [i64; 160] {
    let mut wide = [0i64; 160];
    for i in 0..160 {
        wide[i] = number_at(numbers, i);
    }
    wide
}

// A number; 0 past the end.
fn number_at(numbers: &[i32], at: usize) -> i64 {
    if at < numbers.len() {
        return numbers[at] as i64;
    }
    0
}
