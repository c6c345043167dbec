// A text in a buffer that has room for every slip.
ghost use Rattle.std.specs.Prelude.{◌+◌, ◌<◌, ◌≤◌, ◌≡◌, ◌∷◌, [], length};
ghost use Rattle.slip_text.specs.Decimal.{decimal, signed_decimal};
ghost use Rattle.slip_text.specs.Written.{Holds, Appended};

use integer::number::size;

// The first bytes, as many as the length, are the text; the others are 0.
#[derive(Clone, Copy)]
pub struct Text {
    pub bytes: [u8; 360],
    pub length: usize,
}

impl Text {
    pub(crate) fn empty() -> Text
        ensures { (result.length ≡ 0) × Holds result [] }
    {
        let bytes = [0u8; 360];
        Text {
            bytes: bytes,
            length: 0,
        }
    }

    fn with_byte(mut self, b: u8) -> Text
        requires { self.length < 360 }
        ensures { Appended self (b ∷ []) 1 result }
    {
        let at = self.length;
        self.bytes[at] = b;
        self.length = at + 1;
        self
    }

    pub(crate) fn with_word(self, word: &[u8]) -> Text
        requires { self.length + length word.now ≤ 360 }
        ensures { Appended self word.now (length word.now) result }
    {
        let mut text = self;
        for b in word {
            text = text.with_byte(*b);
        }
        text
    }

    // The digits of x / 10, then the last one.
    fn with_digits(self, x: u64) -> Text
        requires { self.length + length (decimal x) ≤ 360 }
        ensures { Appended self (decimal x) (length (decimal x)) result }
    {
        if x < 10 {
            return self.with_byte(b'0' + x as u8);
        }
        let front = self.with_digits(x / 10);
        front.with_byte(b'0' + (x % 10) as u8)
    }

    pub(crate) fn with_number(self, x: u64) -> Text
        requires { self.length + 20 ≤ 360 }
        ensures { Appended self (decimal x) 20 result }
    {
        self.with_digits(x)
    }

    pub(crate) fn with_signed(self, x: i64) -> Text
        requires { self.length + 21 ≤ 360 }
        ensures { Appended self (signed_decimal x) 21 result }
    {
        if x < 0 {
            let minus = self.with_byte(b'-');
            return minus.with_number(size(x));
        }
        self.with_number(size(x))
    }
}
