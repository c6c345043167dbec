// The commands of a tape: their bytes, their operands and the tests of document 01's table, with
// commands 31 and 51 of document 02, requests 1 and 9.
#![tactic(auto)]

pub mod mark;
pub mod range;

ghost use Rattle.std.specs.Prelude.{◌+◌, ◌<◌, ◌≡◌, false, length};
ghost use Rattle.commands.specs.Format.{size_command, drift_command, column_command, start_command, rounds_command, decoded, wrong_size, wrong_column, beyond, wrong, place_of, bytes_of};
ghost use Rattle.commands.specs.Marks.{place_count};
ghost use Rattle.commands.specs.Room.{Room, SmallSizes, Inside, PairBy};

use crate::mark::{
    COLUMN_PLACE, DRIFT_PLACE, INPUT_PLACE, REFERENCE_PLACE, ROUNDS_PLACE, START_PLACE, STATE_PLACE,
};
use crate::range::{
    LEAST_DRIFT, LEAST_ENTRY, LEAST_NUMBER, MOST_DRIFT, MOST_ENTRY, MOST_NUMBER, MOST_ROUNDS,
    MOST_WEIGHT,
};
use integer::bytes::{signed_at, unsigned_at};
use integer::number::is_outside;

// What a command gives: the number or numbers of one place. Of the rounds, first whether it is command
// 51, the banded step, and not 50.
#[derive(Clone, Copy)]
pub enum Entry {
    State(usize, usize, i64),
    Input(usize, usize, i64),
    Drift(usize, i64),
    Column(usize, i64, i64, i64, i64),
    Reference(usize, usize, i64),
    Start(usize, i64),
    Rounds(bool, i64, usize, i64),
}

// A command with its operands, or what stands in their way. No `Result`: `Unknown` and `Cut` are arms
// of the reader's one `match` as the others are, and an error enum for two of them is no plainer.
#[derive(Clone, Copy)]
pub enum Command {
    Unknown,
    Cut,
    Size(usize, usize, usize),
    Give(Entry),
    End,
}

pub fn decode(s: &[u8], at: usize) -> Command
    requires { at < length s.now }
    ensures { (result ≡ decoded s.now at) × Room at (length s.now) result }
{
    match s[at] {
        0x10 => size(s, at),
        0x20 => pair(Entry::State, s, at),
        0x21 => pair(Entry::Input, s, at),
        0x22 => drift(s, at),
        0x30 => column(s, at),
        0x31 => pair(Entry::Reference, s, at),
        0x40 => start(s, at),
        0x50 => rounds(false, s, at),
        0x51 => rounds(true, s, at),
        0xFF => Command::End,
        _ => Command::Unknown,
    }
}

fn size(s: &[u8], at: usize) -> Command
    requires { at < length s.now }
    ensures { result ≡ size_command s.now at }
{
    if s.len() - at <= 3 {
        return Command::Cut;
    }
    Command::Size(
        unsigned_at::<1>(s, at + 1),
        unsigned_at::<1>(s, at + 2),
        unsigned_at::<1>(s, at + 3),
    )
}

// Of A, of B or of a curve: two indexes and a number.
fn pair<F: Fn(usize, usize, i64) -> Entry>(entry: F, s: &[u8], at: usize) -> Command
    requires callable { F.IsAlwaysCallable entry }
    requires here { at < length s.now }
    ensures { PairBy (F.post entry) s.now at result }
{
    if s.len() - at <= 4 {
        return Command::Cut;
    }
    Command::Give(entry(
        unsigned_at::<1>(s, at + 1),
        unsigned_at::<1>(s, at + 2),
        signed_at::<2>(s, at + 3),
    ))
}

fn drift(s: &[u8], at: usize) -> Command
    requires { at < length s.now }
    ensures { result ≡ drift_command s.now at }
{
    if s.len() - at <= 5 {
        return Command::Cut;
    }
    Command::Give(Entry::Drift(unsigned_at::<1>(s, at + 1), signed_at::<4>(s, at + 2)))
}

fn column(s: &[u8], at: usize) -> Command
    requires { at < length s.now }
    ensures { result ≡ column_command s.now at }
{
    if s.len() - at <= 8 {
        return Command::Cut;
    }
    Command::Give(Entry::Column(
        unsigned_at::<1>(s, at + 1),
        signed_at::<2>(s, at + 2),
        signed_at::<2>(s, at + 4),
        signed_at::<2>(s, at + 6),
        unsigned_at::<1>(s, at + 8) as i64,
    ))
}

fn start(s: &[u8], at: usize) -> Command
    requires { at < length s.now }
    ensures { result ≡ start_command s.now at }
{
    if s.len() - at <= 3 {
        return Command::Cut;
    }
    Command::Give(Entry::Start(unsigned_at::<1>(s, at + 1), signed_at::<2>(s, at + 2)))
}

fn rounds(banded: bool, s: &[u8], at: usize) -> Command
    requires { at < length s.now }
    ensures { result ≡ rounds_command banded s.now at }
{
    if s.len() - at <= 8 {
        return Command::Cut;
    }
    Command::Give(Entry::Rounds(
        banded,
        unsigned_at::<2>(s, at + 1) as i64,
        unsigned_at::<2>(s, at + 3),
        unsigned_at::<4>(s, at + 5) as i64,
    ))
}

// Test 5 of command 10.
pub fn is_wrong_size(n: usize, m: usize, horizon: usize) -> bool
    ensures { result ≡ wrong_size n m horizon }
{
    n < 1 || 6 < n || m < 1 || 4 < m || horizon < 1 || 12 < horizon
}

fn is_wrong_column(low: i64, high: i64, reference: i64, weight: i64) -> bool
    ensures { result ≡ wrong_column low high reference weight }
{
    is_outside(low, LEAST_NUMBER, MOST_NUMBER)
        || is_outside(high, LEAST_NUMBER, MOST_NUMBER)
        || is_outside(reference, LEAST_NUMBER, MOST_NUMBER)
        || high < low
        || is_outside(weight, 0, MOST_WEIGHT)
}

// Test 4: an index outside the size.
pub fn is_beyond(entry: Entry, n: usize, m: usize, horizon: usize) -> bool
    requires { SmallSizes n m horizon }
    ensures { result ≡ beyond n m horizon entry }
{
    match entry {
        Entry::State(i, j, _) => n <= i || n <= j,
        Entry::Input(i, j, _) => n <= i || m <= j,
        Entry::Drift(i, _) => n <= i,
        Entry::Column(c, _, _, _, _) => n + m <= c,
        Entry::Reference(c, k, _) => n + m <= c || horizon <= k,
        Entry::Start(i, _) => n <= i,
        Entry::Rounds(_, _, _, _) => false,
    }
}

// Test 5: an operand outside its range, or lo > hi.
pub fn is_wrong(entry: Entry) -> bool
    ensures { result ≡ wrong entry }
{
    match entry {
        Entry::State(_, _, v) => is_outside(v, LEAST_ENTRY, MOST_ENTRY),
        Entry::Input(_, _, v) => is_outside(v, LEAST_ENTRY, MOST_ENTRY),
        Entry::Drift(_, v) => is_outside(v, LEAST_DRIFT, MOST_DRIFT),
        Entry::Column(_, low, high, reference, weight) => is_wrong_column(
            low, high, reference, weight,
        ),
        Entry::Reference(_, _, v) => is_outside(v, LEAST_NUMBER, MOST_NUMBER),
        Entry::Start(_, v) => is_outside(v, LEAST_NUMBER, MOST_NUMBER),
        Entry::Rounds(_, gain, rounds, _) => gain < 1 || rounds < 1 || MOST_ROUNDS < rounds,
    }
}

// Test 6 looks at the mark of the entry's place.
pub fn place_of(entry: Entry) -> usize
    requires { Inside entry }
    ensures { (result ≡ place_of entry) × (result < place_count) }
{
    match entry {
        Entry::State(i, j, _) => STATE_PLACE + (6 * i + j),
        Entry::Input(i, j, _) => INPUT_PLACE + (4 * i + j),
        Entry::Drift(i, _) => DRIFT_PLACE + i,
        Entry::Column(c, _, _, _, _) => COLUMN_PLACE + c,
        Entry::Reference(c, k, _) => REFERENCE_PLACE + (12 * c + k),
        Entry::Start(i, _) => START_PLACE + i,
        Entry::Rounds(_, _, _, _) => ROUNDS_PLACE,
    }
}

// How many bytes the command takes.
pub fn bytes_of(entry: Entry) -> usize
    ensures { (result ≡ bytes_of entry) × (result < 10) }
{
    match entry {
        Entry::State(_, _, _) => 5,
        Entry::Input(_, _, _) => 5,
        Entry::Drift(_, _) => 6,
        Entry::Column(_, _, _, _, _) => 9,
        Entry::Reference(_, _, _) => 5,
        Entry::Start(_, _) => 4,
        Entry::Rounds(_, _, _, _) => 9,
    }
}
