// Counts what is missing in the words and in the marks on standard input.
#![tactic(auto)]

ghost use Rattle.std.specs.Prelude.{◌+◌, ◌^◌, ◌<◌};

use cases::{Case, each_case, size_at};
use commands::mark::{COLUMN_PLACE, PLACE_COUNT};
use marks::count_missing;
use std::io;
use words::{WORD_COUNT, missing_ones};

fn main(rt: HostRuntime) -> io::Result<()> {
    each_case(&rt, |case| show(&rt, case))
}

fn show(rt: &impl Print, case: Case) -> io::Result<()> {
    match case.kind {
        Some(b'c') => show_count(rt, &case.tape),
        Some(b'i') => show_missing(rt, &case.tape, &case.first),
        _ => Ok(()),
    }
}

fn show_count(rt: &impl Print, bytes: &[u8]) -> io::Result<()> {
    let required = words_at(bytes, 0);
    let given = words_at(bytes, 8 * WORD_COUNT);
    print::word(rt, b"count")?;
    print::unsigned(rt, missing_ones(&required, &given) as u64)?;
    print::end(rt)
}

fn words_at(bytes: &[u8], at: usize) -> [u64; WORD_COUNT]
    requires { at + 24 < 2 ^ 64 }
{
    let mut words = [0u64; WORD_COUNT];
    for w in 0..WORD_COUNT {
        words[w] = word_at(bytes, at + 8 * w);
    }
    words
}

// The word of 8 bytes, the low byte first.
fn word_at(bytes: &[u8], at: usize) -> u64
    requires { at + 8 < 2 ^ 64 }
{
    let mut word: u64 = 0;
    for i in (0..8).rev() {
        word = word << 8 | byte_at(bytes, at + i);
    }
    word
}

// 0 past the end.
fn byte_at(bytes: &[u8], at: usize) -> u64 {
    bytes.get(at).map_or(0, |byte| *byte as u64)
}

// n, m and N.
fn show_missing(rt: &impl Print, bytes: &[u8], sizes: &[i32]) -> io::Result<()> {
    let n = size_at(sizes, 0);
    let m = size_at(sizes, 1);
    let horizon = size_at(sizes, 2);
    if 6 < n || 4 < m || 12 < horizon {
        return Ok(());
    }
    let given = marks_in(bytes);
    print::word(rt, b"missing")?;
    print::unsigned(rt, count_missing(n, m, horizon, &given) as u64)?;
    print::end(rt)
}

// The marks from the first column on, 8 to a byte, the lowest bit first.
fn marks_in(bytes: &[u8]) -> [bool; PLACE_COUNT] {
    let mut given = [false; PLACE_COUNT];
    for place in COLUMN_PLACE..PLACE_COUNT {
        let i = place - COLUMN_PLACE;
        given[place] = byte_at(bytes, i / 8) >> (i % 8) & 1 == 1;
    }
    given
}
