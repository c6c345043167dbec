// Refusals, in the order of document 01's table; then document 02's: of calls that take no tape, 16 and
// 17 of request 2; of a tape, 18 of request 9.
ghost use Rattle.std.specs.Prelude.{◌≡◌};
ghost use Rattle.tape.specs.Refusals.{row, figure};

// Where a number of a plan fails its test: its step and its column, the number found, and what was due,
// the model's number or the limit that it passed. x(k+1) is of step k; columns are states, then inputs.
#[derive(Clone, Copy)]
pub struct Fault {
    pub step: usize,
    pub column: usize,
    pub found: i64,
    pub due: i64,
}

// The cost of a plan and the floor of multipliers: the gap is what lies between them.
#[derive(Clone, Copy)]
pub struct Span {
    pub cost: i64,
    pub floor: i64,
}

#[derive(Clone, Copy)]
pub enum Refusal {
    Cut(usize),
    Unknown(usize),
    Misplaced(usize),
    NoSuchPlace(usize),
    OutOfRange(usize),
    Twice(usize),
    Absent(usize),
    Overrun(usize),
    Length,
    OffModel(Fault),
    OverLimit(Fault),
    Multiplier,
    Wide(Span),
    NotShown,
    Open(usize),
    ArgumentOutOfRange,
    NotFinite(usize),
    TooLarge(usize),
    Weightless(usize),
}

// C has the numbers alone, and document 01's table gives them.
pub fn number(refusal: Refusal) -> usize
    ensures { result ≡ (row refusal).number }
{
    match refusal {
        Refusal::Cut(_) => 1,
        Refusal::Unknown(_) => 2,
        Refusal::Misplaced(_) => 3,
        Refusal::NoSuchPlace(_) => 4,
        Refusal::OutOfRange(_) => 5,
        Refusal::Twice(_) => 6,
        Refusal::Absent(_) => 7,
        Refusal::Overrun(_) => 8,
        Refusal::Length => 9,
        Refusal::OffModel(_) => 10,
        Refusal::OverLimit(_) => 11,
        Refusal::Multiplier => 12,
        Refusal::Wide(_) => 13,
        Refusal::NotShown => 14,
        Refusal::Open(_) => 15,
        Refusal::ArgumentOutOfRange => 5,
        Refusal::NotFinite(_) => 16,
        Refusal::TooLarge(_) => 17,
        Refusal::Weightless(_) => 18,
    }
}

// What a refusal carries: the place where it was found, which is an offset of the tape or the count of
// an entry; nothing; where a plan fails a test; cost and floor; or the rounds R.
#[derive(Clone, Copy)]
pub enum Carried {
    Place(usize),
    Nothing,
    Fault(Fault),
    Span(Span),
    Rounds(usize),
}

pub fn carries(refusal: Refusal) -> Carried
    ensures { result ≡ (row refusal).carries }
{
    match refusal {
        Refusal::Cut(at)
        | Refusal::Unknown(at)
        | Refusal::Misplaced(at)
        | Refusal::NoSuchPlace(at)
        | Refusal::OutOfRange(at)
        | Refusal::Twice(at)
        | Refusal::Absent(at)
        | Refusal::Overrun(at)
        | Refusal::NotFinite(at)
        | Refusal::TooLarge(at)
        | Refusal::Weightless(at) => Carried::Place(at),
        Refusal::OffModel(fault) | Refusal::OverLimit(fault) => Carried::Fault(fault),
        Refusal::Wide(span) => Carried::Span(span),
        Refusal::Open(rounds) => Carried::Rounds(rounds),
        Refusal::Length | Refusal::Multiplier | Refusal::NotShown | Refusal::ArgumentOutOfRange =>
            Carried::Nothing,
    }
}

// What it carries as one number, 0 where that is nothing or several.
pub fn figure(refusal: Refusal) -> usize
    ensures { result ≡ figure (row refusal).carries }
{
    match carries(refusal) {
        Carried::Place(number) | Carried::Rounds(number) => number,
        Carried::Nothing | Carried::Fault(_) | Carried::Span(_) => 0,
    }
}
