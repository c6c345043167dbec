// The lines of the slip.
ghost use Rattle.std.specs.Prelude.{◌+◌, ◌≤◌, cond, ◌++◌, [], length};
ghost use Rattle.tape.specs.declared.refusal.Carried.{Carried};
ghost use Rattle.tape.specs.Refusals.{row};
ghost use Rattle.slip_text.specs.Slip.{rounds_line, gap_line, blank_and, first_line, range_line, range_lines, proved_lines, refused_number, refusal_lines};
ghost use Rattle.slip_text.specs.Written.{Holds, Appended};

use crate::text::Text;
use ranges::Ranges;
use ranges::range::Range;
use solver::Duties;
use tape::refusal::{Carried, Refusal, carries, number};

fn with_rounds(text: Text, rounds: usize) -> Text
    requires { text.length + 28 ≤ 360 }
    ensures { Appended text (rounds_line rounds) 28 result }
{
    let named = text.with_word(b"rounds ");
    let numbered = named.with_number(rounds as u64);
    numbered.with_word(b"\n")
}

fn with_gap(text: Text, gap: i64) -> Text
    requires { text.length + 26 ≤ 360 }
    ensures { Appended text (gap_line gap) 26 result }
{
    let named = text.with_word(b"gap ");
    let numbered = named.with_signed(gap);
    numbered.with_word(b"\n")
}

// A blank and the duty, where it is one of the m.
fn with_duty(text: Text, duty: i32, due: bool) -> Text
    requires { text.length + 22 ≤ 360 }
    ensures { Appended text (cond due (blank_and duty) []) 22 result }
{
    if due {
        let blank = text.with_word(b" ");
        return blank.with_signed(duty as i64);
    }
    text
}

fn with_first(text: Text, first: Duties, m: usize) -> Text
    requires { text.length + 94 ≤ 360 }
    ensures { Appended text (first_line m first) 94 result }
{
    let named = text.with_word(b"first");
    let one = with_duty(named, first.u0, 0 < m);
    let two = with_duty(one, first.u1, 1 < m);
    let three = with_duty(two, first.u2, 2 < m);
    let four = with_duty(three, first.u3, 3 < m);
    four.with_word(b"\n")
}

// A line with the two ends, where the duty is one of the m.
fn with_range(text: Text, range: Range, due: bool) -> Text
    requires { text.length + 50 ≤ 360 }
    ensures { Appended text (cond due (range_line range) []) 50 result }
{
    if due {
        let named = text.with_word(b"range ");
        let from = named.with_signed(range.low);
        let blank = from.with_word(b" ");
        let to = blank.with_signed(range.high);
        return to.with_word(b"\n");
    }
    text
}

fn with_ranges(text: Text, ranges: Ranges, m: usize) -> Text
    requires { text.length + 200 ≤ 360 }
    ensures { Appended text (range_lines m ranges) 200 result }
{
    let one = with_range(text, ranges.u0, 0 < m);
    let two = with_range(one, ranges.u1, 1 < m);
    let three = with_range(two, ranges.u2, 2 < m);
    with_range(three, ranges.u3, 3 < m)
}

pub fn kind_and_rounds(kind: &[u8], rounds: usize) -> Text
    requires { length kind.now ≤ 11 }
    ensures holds { Holds result (kind.now ++ rounds_line rounds) }
    ensures length_bound { result.length ≤ 39 }
{
    let empty = Text::empty();
    let named = empty.with_word(kind);
    with_rounds(named, rounds)
}

pub fn proved(rounds: usize, gap: i64, first: Duties, ranges: Ranges, m: usize) -> Text
    ensures { Holds result (proved_lines rounds gap first ranges m) }
{
    let entered = kind_and_rounds(b"proved\n", rounds);
    let bounded = with_gap(entered, gap);
    let set = with_first(bounded, first, m);
    with_ranges(set, ranges, m)
}

fn refused_number(number: usize) -> Text
    ensures holds { Holds result (refused_number number) }
    ensures length_bound { result.length ≤ 28 }
{
    let empty = Text::empty();
    let named = empty.with_word(b"refused ");
    named.with_number(number as u64)
}

fn refused_alone(number: usize) -> Text
    ensures { Holds result (refusal_lines number Carried.Nothing) }
{
    refused_number(number).with_word(b"\n")
}

fn refused_at(number: usize, at: usize) -> Text
    ensures { Holds result (refusal_lines number (Carried.Place at)) }
{
    let numbered = refused_number(number);
    let named = numbered.with_word(b" at ");
    let placed = named.with_number(at as u64);
    placed.with_word(b"\n")
}

pub fn refused(why: Refusal) -> Text
    ensures { Holds result (refusal_lines (row why).number (row why).carries) }
{
    let n = number(why);
    let carried = carries(why);
    match carried {
        Carried::Place(at) => refused_at(n, at),
        Carried::Nothing => refused_alone(n),
        Carried::Fault(_) => refused_alone(n),
        Carried::Span(_) => refused_alone(n),
        Carried::Rounds(rounds) => kind_and_rounds(b"open\n", rounds),
    }
}
