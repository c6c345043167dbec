// Marks by the word: bit b of a 64-bit word, the lowest first, stands for the place b behind the
// word's first one.
#![tactic(auto)]

ghost use Rattle.std.specs.Prelude.{◌+◌, ◌*◌, ◌^◌, ◌<◌, ◌≤◌, false, not, ◌&&◌, ◌≡◌, ltb, get_or};
ghost use Rattle.integer.specs.Tests.{count};
ghost use Rattle.words.specs.Words.{Holds, bit, bit_of, word_count};

// Room for 192 places.
pub const WORD_COUNT: usize = 3;

// Whether a place has a mark; one past the end has none.
fn is_marked(marks: &[bool], place: usize) -> bool
    ensures { result ≡ get_or marks.now place false }
{
    place < marks.len() && marks[place]
}

// The marks of `count` places from `first` on.
pub fn pack(marks: &[bool], first: usize, count: usize) -> u64
    requires { (count ≤ 64) × (first + count < 2 ^ 64) }
    ensures { Holds result (λ b. ltb b count && get_or marks.now (first + b) false) }
{
    let mut word = 0u64;
    for b in 0..count {
        if is_marked(marks, first + b) {
            word |= 1 << b;
        }
    }
    word
}

// The places before `end`.
pub fn below(first: usize, end: usize) -> u64
    ensures { Holds result (λ b. ltb (first + b) end) }
{
    if end <= first {
        return 0;
    }
    let width = end - first;
    if 64 <= width {
        return !0;
    }
    (1u64 << width) - 1
}

// How many bits of a word are set.
pub fn ones(word: u64) -> usize
    ensures { result ≡ count 64 (bit word) }
{
    word.count_ones() as usize
}

// How many places of a word are required and not given.
fn missing_in(required: u64, given: u64) -> usize
    ensures { result ≡ count 64 (λ b. bit required b && not (bit given b)) }
{
    ones(required & !given)
}

// How many places are required and not given.
pub fn missing_ones(required: &[u64; WORD_COUNT], given: &[u64; WORD_COUNT]) -> usize
    ensures { result ≡ count (64 * word_count) (λ i. bit_of required.now i && not (bit_of given.now i)) }
{
    let mut sum = 0;
    for word in 0..WORD_COUNT {
        sum += missing_in(required[word], given[word]);
    }
    sum
}
