// Lines of text: what programs print, byte by byte.
#![tactic(auto)]

ghost use Rattle.std.specs.Prelude.{◌≡◌, [], ◌∷◌};
ghost use Rattle.texts.specs.Texts.{decimal, signed_decimal, field, typed, line_with};

// A line of at most 56 bytes, room for five numbers of 32 bits; 0 past its end.
#[derive(Clone, Copy, Debug, PartialEq, Eq)]
pub struct Line {
    pub text: [u8; Line::PLACES],
    pub length: usize,
}

impl Line {
    pub const PLACES: usize = 56;

    // The line without a byte.
    pub fn new() -> Line
        ensures { result ≡ line_with [] }
    {
        Line {
            text: [0; Line::PLACES],
            length: 0,
        }
    }

    // One byte more; a full line stays as it is.
    pub fn put(mut self, byte: u8) -> Line
        ensures { result ≡ typed self (byte ∷ []) }
    {
        if self.length < Line::PLACES {
            self.text[self.length] = byte;
            self.length += 1;
        }
        self
    }

    // The digits of a number: those before the last, then the last.
    pub fn put_decimal(self, n: u32) -> Line
        ensures { result ≡ typed self (decimal n) }
    {
        if n < 10 {
            self.put(b'0' + n as u8)
        } else {
            self.put_decimal(n / 10).put(b'0' + (n % 10) as u8)
        }
    }

    // A number and the byte after it.
    pub fn put_field(self, n: u32, end: u8) -> Line
        ensures { result ≡ typed self (field n end) }
    {
        self.put_decimal(n).put(end)
    }

    // A number with its sign before it, where it is below 0. In 64 bits every number of 32 has an opposite.
    pub fn put_signed(self, n: i32) -> Line
        ensures { result ≡ typed self (signed_decimal n) }
    {
        let number = n as i64;
        if number < 0 {
            self.put(b'-').put_decimal((-number) as u32)
        } else {
            self.put_decimal(number as u32)
        }
    }
}
