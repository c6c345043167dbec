// Cases of the test programs: a line each, `read HEX`, `steps HEX`, `banded HEX`,
// `judge HEX / numbers / numbers`, `ranges HEX / numbers / numbers`, `show HEX / numbers`,
// `solve HEX / numbers / numbers`, `entry HEX`, `model HEX / numbers`, `count HEX`,
// `missing HEX / numbers`, `pivot HEX`, `next HEX / number` or `correction HEX / numbers`, as the second
// program takes them. What follows a # is passed over.
#![tactic(auto)]

pub mod floats;

ghost use Rattle.std.specs.Prelude.{◌≡◌, take};

use std::io;
use std::io::Read;
use tape::refusal::{Carried, Refusal, carries, number};

// A case as far as it has been read, character by character. The line's small letters are its word, of
// which the first 10 are kept, so many as `letters` says. The kind is the last letter of the word that
// stands for one; words of two programs may share theirs, as `read` and `ranges` do, so that it stays a
// letter. Digits of a tape, or of floats, are 0 to 9 and A to F; numbers are decimal.
#[derive(Clone, Copy)]
pub struct Case {
    pub kind: Option<u8>,
    pub comment: bool,
    pub negative: bool,
    pub open: bool,
    pub letters: u8,
    pub text: [u8; 10],
    pub field: usize,
    pub digits: usize,
    pub tape: [u8; 1536],
    pub figure: u64,
    pub counts: [usize; 2],
    pub first: [i32; 160],
    pub second: [i32; 160],
}

impl Case {
    pub fn new() -> Case {
        let tape = [0u8; 1536];
        let counts = [0usize; 2];
        let none = [0i32; 160];
        Case {
            kind: None,
            comment: false,
            negative: false,
            open: false,
            letters: 0,
            text: [0u8; 10],
            field: 0,
            digits: 0,
            tape: tape,
            figure: 0,
            counts: counts,
            first: none,
            second: none,
        }
    }

    // The case with one character more, which does not end the line.
    pub fn next(self, c: u8) -> Case {
        let mut case = self;
        if case.comment {
            return case;
        }
        match c {
            b'#' => case.comment = true,
            b'r' | b'p' | b'b' | b'j' | b'h' | b'v' | b'y' | b'm' | b'c' | b'i' | b'x' => {
                case.kind = Some(c);
                case.add_letter(c);
            }
            b'a'..=b'z' => case.add_letter(c),
            b'/' => {
                case.close();
                case.move_on();
            }
            b' ' => case.close(),
            b'-' => case.negative = true,
            b'0'..=b'9' => case.add_digit(c - b'0'),
            b'A'..=b'F' => case.add_digit(c - b'A' + 10),
            _ => {}
        }
        case
    }

    // The letters that are kept of the line's word.
    pub fn word(&self) -> &[u8]
        ensures { result.now ≡ take self.now.letters self.now.text }
    {
        self.text
            .get(..usize::from(self.letters))
            .unwrap_or(&self.text)
    }

    fn add_letter(&mut self, c: u8) {
        let letters = usize::from(self.letters);
        if letters < 10 {
            self.text[letters] = c;
            self.letters += 1;
        }
    }

    fn move_on(&mut self) {
        if self.field < 2 {
            self.field += 1;
        }
    }

    fn add_digit(&mut self, d: u8) {
        if self.field == 0 {
            self.add_tape_digit(d);
            return;
        }
        if self.figure <= 2147483648 {
            self.figure = self.figure * 10 + d as u64;
        }
        self.open = true;
    }

    // One hexadecimal digit of the tape more.
    fn add_tape_digit(&mut self, d: u8) {
        let digits = self.digits;
        if 3072 <= digits {
            return;
        }
        let at = digits / 2;
        let high = self.tape[at];
        if digits % 2 == 0 {
            self.tape[at] = d;
        } else {
            self.tape[at] = high % 16 * 16 + d % 16;
        }
        self.digits = digits + 1;
    }

    // The number that a blank, a stroke or the line's end closes, where there is one.
    pub fn closed(mut self) -> Case {
        self.close();
        self
    }

    fn close(&mut self) {
        if !self.open {
            return;
        }
        let x = value(self.figure, self.negative);
        let list = self.field;
        if list == 1 {
            let at = self.counts[0];
            if at < 160 {
                self.first[at] = x;
                self.counts[0] = at + 1;
            }
        } else {
            let at = self.counts[1];
            if at < 160 {
                self.second[at] = x;
                self.counts[1] = at + 1;
            }
        }
        self.figure = 0;
        self.negative = false;
        self.open = false;
    }
}

// Shows every case on standard input, in order.
pub fn each_case<R: Input + Alloc, F: Fn(Case) -> io::Result<()>>(rt: &R, show: F) -> io::Result<()>
    requires { F.IsAlwaysCallable show }
{
    let mut text = Vec::new(rt.alloc());
    rt.reader().read_to_end(&mut text)?;
    let mut case = Case::new();
    for c in &text {
        if *c == b'\n' {
            show(case.closed())?;
            case = Case::new();
        } else {
            case = case.next(*c);
        }
    }
    Ok(())
}

// A figure with its sign; 0 where it is beyond an i32.
fn value(figure: u64, negative: bool) -> i32 {
    let size = i64::try_from(figure).unwrap_or(0);
    i32::try_from(if negative { -size } else { size }).unwrap_or(0)
}

// A number of a list as a size; 0 past the end.
pub fn size_at(list: &[i32], at: usize) -> usize {
    list.get(at).map_or(0, |x| x.unsigned_abs() as usize)
}

// Writes a refusal: its number, and what it carries, or `-`.
pub fn refused(rt: &impl Print, why: Refusal) -> io::Result<()> {
    print::word(rt, b"refused")?;
    print::unsigned(rt, number(why) as u64)?;
    let carried = carries(why);
    match carried {
        Carried::Place(at) => print::unsigned(rt, at as u64),
        Carried::Nothing => print::word(rt, b" -"),
        Carried::Fault(fault) => {
            print::unsigned(rt, fault.step as u64)?;
            print::unsigned(rt, fault.column as u64)?;
            print::number(rt, fault.found)?;
            print::number(rt, fault.due)
        }
        Carried::Span(span) => {
            print::number(rt, span.cost)?;
            print::number(rt, span.floor)
        }
        Carried::Rounds(rounds) => print::unsigned(rt, rounds as u64),
    }
}

#[cfg(test)]
mod tests {
    use super::*;

    // The case of a line.
    fn line(text: &[u8]) -> Case {
        let mut case = Case::new();
        for c in text {
            case = case.next(*c);
        }
        case.closed()
    }

    #[test]
    fn words(rt: HostRuntime) {
        assert_eq!(rt; Case::new().word(), b"".as_slice());
        assert_eq!(rt; line(b"read 0A01").word(), b"read".as_slice());
        assert_eq!(rt; line(b"# read").word(), b"".as_slice());
        assert_eq!(rt;
            line(b"correction 3FF0 / -5").word(),
            b"correction".as_slice()
        );
        assert_eq!(rt;
            line(b"corrections 3FF0 / -5").word(),
            b"correction".as_slice()
        );
        assert_eq!(rt; line(b"ju 0A dge / 1 x / 2#s").word(), b"judgex".as_slice());
    }
}
