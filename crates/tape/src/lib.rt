// The tape: its numbers, its refusals, and `read`.
#![tactic(auto)]

mod reader;
pub mod refusal;

pub use reader::read;

// So many bytes decide a tape, whatever follows them (`decides` in proofs/Deciding).
pub const DECIDING_BYTES: usize = 1072;

// The references of command 31 by column and step, at 12 * column + step: 0 where none is given; and
// a mark where one is. No `Option`s: C is handed the numbers and the marks apart (`reference_numbers`),
// and `step_reference` and the reader's definitions name both.
#[derive(Clone, Copy)]
pub struct Curves {
    pub reference: [i64; 120],
    pub given: [bool; 120],
}

// The numbers of a tape, 0 where none is given and beyond the sizes. A is row by row at a stride of
// 6, B at a stride of 4. Columns are the n states, then the m inputs. Command 51 gives
// the last three where `banded`, else command 50: a mark, since C is handed it as one (`step_numbers`).
#[derive(Clone, Copy)]
pub struct Tape {
    pub n: usize,
    pub m: usize,
    pub horizon: usize,
    pub a: [i64; 36],
    pub b: [i64; 24],
    pub drift: [i64; 6],
    pub low: [i64; 10],
    pub high: [i64; 10],
    pub reference: [i64; 10],
    pub weight: [i64; 10],
    pub curves: Curves,
    pub start: [i64; 6],
    pub banded: bool,
    pub gain: i64,
    pub rounds: usize,
    pub wanted: i64,
}
