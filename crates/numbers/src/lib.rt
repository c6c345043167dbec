// A tape and a refusal as numbers, for other languages.
#![tactic(auto)]

ghost use Rattle.std.specs.Prelude.{◌+◌, ◌≤◌, ◌≡◌, ◌++◌, map, length, take};
ghost use Rattle.commands.specs.Ranges.{most_rounds};
ghost use Rattle.tape.specs.Legal.{Legal};
ghost use Rattle.tape.specs.Refusals.{row, figure};
ghost use Rattle.numbers.specs.Numbers.{code_of, read_numbers, mark_number, reference_numbers, step_numbers};

use tape::Tape;
use tape::refusal::{Refusal, figure, number};

// Puts numbers into `out` from a place on.
fn put(out: &mut [i64], first: usize, from: &[i64])
    requires { first + length from.now ≤ length out.old }
    ensures { (take (first + length from.now) out.new ≡ take first out.old ++ from.now) × (length out.new ≡ length out.old) }
{
    out[first..first + from.len()].copy_from_slice(from);
}

pub fn numbers_of(t: &Tape) -> [i64; 118]
    requires { Legal t.now }
    ensures { result ≡ read_numbers t.now }
{
    let mut out = [0i64; 118];
    let sizes = [t.n as i64, t.m as i64, t.horizon as i64];
    let rounds = [t.gain, t.rounds as i64, t.wanted];
    put(&mut out, 0, &sizes);
    put(&mut out, 3, &t.a);
    put(&mut out, 39, &t.b);
    put(&mut out, 63, &t.drift);
    put(&mut out, 69, &t.low);
    put(&mut out, 79, &t.high);
    put(&mut out, 89, &t.reference);
    put(&mut out, 99, &t.weight);
    put(&mut out, 109, &t.start);
    put(&mut out, 115, &rounds);
    out
}

// 1 for a mark.
fn mark_number(given: bool) -> i64
    ensures { result ≡ mark_number given }
{
    i64::from(given)
}

fn mark_numbers(given: &[bool]) -> [i64; 120]
    requires { length given.now ≡ 120 }
    ensures { result ≡ map mark_number given.now }
{
    let mut marks = [0i64; 120];
    for (p, given) in given.iter().enumerate() {
        marks[p] = mark_number(*given);
    }
    marks
}

pub fn reference_numbers(t: Tape) -> [i64; 240]
    ensures { result ≡ reference_numbers t }
{
    let mut out = [0i64; 240];
    let curves = t.curves;
    let marks = mark_numbers(&curves.given);
    put(&mut out, 0, &curves.reference);
    put(&mut out, 120, &marks);
    out
}

pub fn step_numbers(t: Tape) -> [i64; 1]
    ensures { result ≡ step_numbers t }
{
    [mark_number(t.banded)]
}

// The number that a call returns for a refusal.
pub fn code(why: Refusal) -> u64
    requires { figure (row why).carries ≤ most_rounds }
    ensures { result ≡ code_of why }
{
    (number(why) + 256 * figure(why)) as u64
}
