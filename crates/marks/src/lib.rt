// Test 7 by the word: the required places and the marks, from the first column on, 64 to a word.
#![tactic(auto)]

ghost use Rattle.std.specs.Prelude.{◌+◌, ◌^◌, ◌<◌, ◌≤◌, ◌||◌, ◌≡◌};
ghost use Rattle.commands.specs.Marks.{column_place, marked};
ghost use Rattle.commands.specs.Required.{among, curved, required};
ghost use Rattle.commands.specs.Room.{SmallSizes};
ghost use Rattle.words.specs.Words.{Holds, HoldAll, bit_of};
ghost use Rattle.marks.specs.Missing.{missing};

use commands::mark::{COLUMN_PLACE, PLACE_COUNT, REFERENCE_PLACE, ROUNDS_PLACE, START_PLACE};
use std::array;
use words::{WORD_COUNT, below, missing_ones, ones, pack};

// `count` places from p on.
fn span(first: usize, p: usize, count: usize) -> u64
    requires { p + count < 2 ^ 64 }
    ensures { Holds result (λ b. among p count (first + b)) }
{
    below(first, p + count) & !below(first, p)
}

// Whether one of the column's steps has a reference.
fn is_curved(column: usize, horizon: usize, given: &[bool; PLACE_COUNT]) -> bool
    requires { (column < 10) × (horizon ≤ 12) }
    ensures { result ≡ curved horizon given.now column }
{
    0 < ones(pack(given, REFERENCE_PLACE + 12 * column, horizon))
}

// The words, and `count` places from p on.
fn with_span(words: &[u64; WORD_COUNT], p: usize, count: usize) -> [u64; WORD_COUNT]
    requires { p + count < 2 ^ 64 }
    ensures { HoldAll result (λ i. bit_of words.now i || among p count (column_place + i)) }
{
    array::from_fn(|w| words[w] | span(COLUMN_PLACE + 64 * w, p, count))
}

fn required_words(
    n: usize,
    m: usize,
    horizon: usize,
    given: &[bool; PLACE_COUNT],
) -> [u64; WORD_COUNT]
    requires { SmallSizes n m horizon }
    ensures { HoldAll result (λ i. required n m horizon given.now (column_place + i)) }
{
    let none = [0u64; WORD_COUNT];
    let columns = with_span(&none, COLUMN_PLACE, n + m);
    let starts = with_span(&columns, START_PLACE, n);
    let mut words = with_span(&starts, ROUNDS_PLACE, 1);
    for column in 0..n + m {
        if is_curved(column, horizon, given) {
            words = with_span(&words, REFERENCE_PLACE + 12 * column, horizon);
        }
    }
    words
}

fn mark_words(given: &[bool; PLACE_COUNT]) -> [u64; WORD_COUNT]
    ensures { HoldAll result (λ i. marked given.now (column_place + i)) }
{
    array::from_fn(|w| pack(given, COLUMN_PLACE + 64 * w, 64))
}

// How many required places have no mark.
pub fn count_missing(n: usize, m: usize, horizon: usize, given: &[bool; PLACE_COUNT]) -> usize
    requires { SmallSizes n m horizon }
    ensures { result ≡ missing n m horizon given.now }
{
    let required = required_words(n, m, horizon, given);
    let marks = mark_words(given);
    missing_ones(&required, &marks)
}
