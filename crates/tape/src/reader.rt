// Reading: commands from the front, each tested in document 01's order. Everything is written in the
// place where it stands, so that no command copies the tape.
ghost use Rattle.std.specs.Prelude.{◌+◌, ◌^◌, ◌<◌, ◌≡◌, length};
ghost use Rattle.commands.specs.Format.{size_bytes, bytes_of};
ghost use Rattle.commands.specs.Room.{SmallSizes, Inside};
ghost use Rattle.tape.specs.Answer.{told_of};
ghost use Rattle.tape.specs.Reading.{Going, Ended, obey_size, obey_entry, obey_end, absent, lacks_weight, opened, reading};
ghost use Rattle.tape.specs.Parts.{reader_of, after};
ghost use Rattle.tape.specs.Tape.{blank, with};

use crate::refusal::Refusal;
use crate::{Curves, Tape};
use commands::mark::PLACE_COUNT;
use commands::{Command, Entry, bytes_of, decode, is_beyond, is_wrong, is_wrong_size, place_of};
use marks::count_missing;

impl Tape {
    // A tape of which nothing is given.
    pub fn blank() -> Tape
        ensures { result ≡ blank }
    {
        Tape {
            n: 0,
            m: 0,
            horizon: 0,
            a: [0; 36],
            b: [0; 24],
            drift: [0; 6],
            low: [0; 10],
            high: [0; 10],
            reference: [0; 10],
            weight: [0; 10],
            curves: Curves {
                reference: [0; 120],
                given: [false; 120],
            },
            start: [0; 6],
            banded: false,
            gain: 0,
            rounds: 0,
            wanted: 0,
        }
    }

    // Stores the numbers of an entry.
    fn store(&mut self, entry: Entry)
        requires { Inside entry }
        ensures { self.new ≡ with self.old entry }
    {
        match entry {
            Entry::State(i, j, v) => self.a[6 * i + j] = v,
            Entry::Input(i, j, v) => self.b[4 * i + j] = v,
            Entry::Drift(i, v) => self.drift[i] = v,
            Entry::Column(c, lo, hi, r, h) => {
                self.low[c] = lo;
                self.high[c] = hi;
                self.reference[c] = r;
                self.weight[c] = h;
            }
            Entry::Reference(c, k, r) => {
                let p = 12 * c + k;
                self.curves.reference[p] = r;
                self.curves.given[p] = true;
            }
            Entry::Start(i, v) => self.start[i] = v,
            Entry::Rounds(banded, gain, rounds, wanted) => {
                self.banded = banded;
                self.gain = gain;
                self.rounds = rounds;
                self.wanted = wanted;
            }
        }
    }

    // Whether command 51 stands and a column has weight 0.
    fn lacks_weight(&self) -> bool
        requires { SmallSizes self.now.n self.now.m self.now.horizon }
        ensures { result ≡ lacks_weight self.now }
    {
        if !self.banded {
            return false;
        }
        for column in 0..self.n + self.m {
            if self.weight[column] <= 0 {
                return true;
            }
        }
        false
    }
}

// The reading so far: the next command's offset, the numbers, and a mark for each place that has been
// given.
#[derive(Drop)]
struct Progress {
    at: usize,
    tape: Tape,
    given: [bool; PLACE_COUNT],
}

impl Progress {
    fn new() -> Progress
        ensures { reader_of Going result ≡ opened }
    {
        Progress {
            at: 0,
            tape: Tape::blank(),
            given: [false; PLACE_COUNT],
        }
    }

    fn obey_size(&mut self, n: usize, m: usize, horizon: usize) -> Result<(), Refusal>
        requires { self.old.at + size_bytes < 2 ^ 64 }
        ensures { after Going result self.new ≡ obey_size n m horizon (reader_of Going self.old) }
    {
        if 0 < self.tape.n {
            return Err(Refusal::Misplaced(self.at));
        }
        if is_wrong_size(n, m, horizon) {
            return Err(Refusal::OutOfRange(self.at));
        }
        self.at += 4;
        self.tape.n = n;
        self.tape.m = m;
        self.tape.horizon = horizon;
        Ok(())
    }

    fn obey_entry(&mut self, entry: Entry) -> Result<(), Refusal>
        requires sizes { SmallSizes self.old.tape.n self.old.tape.m self.old.tape.horizon }
        requires room { self.old.at + bytes_of entry < 2 ^ 64 }
        ensures { after Going result self.new ≡ obey_entry entry (reader_of Going self.old) }
    {
        if self.tape.n < 1 {
            return Err(Refusal::Misplaced(self.at));
        }
        if is_beyond(entry, self.tape.n, self.tape.m, self.tape.horizon) {
            return Err(Refusal::NoSuchPlace(self.at));
        }
        if is_wrong(entry) {
            return Err(Refusal::OutOfRange(self.at));
        }
        let place = place_of(entry);
        if self.given[place] {
            return Err(Refusal::Twice(self.at));
        }
        self.given[place] = true;
        self.at += bytes_of(entry);
        self.tape.store(entry);
        Ok(())
    }

    // The tests of FF, which changes nothing.
    fn check_end(&self, s: &[u8]) -> Result<(), Refusal>
        requires sizes { SmallSizes self.now.tape.n self.now.tape.m self.now.tape.horizon }
        requires room { self.now.at < length s.now }
        ensures { after Ended result self.now ≡ obey_end s.now (reader_of Going self.now) }
    {
        if self.tape.n < 1 {
            return Err(Refusal::Misplaced(self.at));
        }
        if self.is_absent() {
            return Err(Refusal::Absent(self.at));
        }
        if self.tape.lacks_weight() {
            return Err(Refusal::Weightless(self.at));
        }
        if self.at + 1 < s.len() {
            return Err(Refusal::Overrun(self.at + 1));
        }
        Ok(())
    }

    // Whether a required place has no mark.
    fn is_absent(&self) -> bool
        requires { SmallSizes self.now.tape.n self.now.tape.m self.now.tape.horizon }
        ensures { result ≡ absent self.now.tape.n self.now.tape.m self.now.tape.horizon self.now.given }
    {
        0 < count_missing(self.tape.n, self.tape.m, self.tape.horizon, &self.given)
    }
}

// Reads a tape.
pub fn read(tape: &[u8]) -> Result<Tape, Refusal>
    ensures { result ≡ told_of (reading tape.now) }
{
    let mut progress = Progress::new();
    while progress.at < tape.len() {
        match decode(tape, progress.at) {
            Command::Unknown => return Err(Refusal::Unknown(progress.at)),
            Command::Cut => return Err(Refusal::Cut(progress.at)),
            Command::Size(n, m, horizon) => progress.obey_size(n, m, horizon)?,
            Command::Give(entry) => progress.obey_entry(entry)?,
            Command::End => {
                progress.check_end(tape)?;
                return Ok(progress.tape);
            }
        }
    }
    Err(Refusal::Cut(tape.len()))
}
