// A code as a line of text, from the highest digit on.
use refusals::Code;
use texts::Line;

// As many bytes as a line has places, 0 past the end.
#[derive(Clone, Copy, Debug, PartialEq, Eq)]
struct Text {
    bytes: [u8; Line::PLACES],
    length: usize,
}

impl Text {
    // A byte for which there is no room is left out.
    fn put(mut self, byte: u8) -> Text {
        let end = self.length;
        if end < Line::PLACES {
            self.bytes[end] = byte;
            self.length = end + 1;
        }
        self
    }

    // The digit of n that counts a power of ten, which is left out where n is smaller.
    fn put_digit(self, n: u16, power: u16) -> Text {
        if power == 0 || n < power {
            self
        } else {
            self.put(48 + (n / power % 10) as u8)
        }
    }

    // A number and the byte after it. The last digit is written always, for 0 too.
    fn put_number(self, n: u16, end: u8) -> Text {
        self.put_digit(n, 10000)
            .put_digit(n, 1000)
            .put_digit(n, 100)
            .put_digit(n, 10)
            .put(48 + (n % 10) as u8)
            .put(end)
    }
}

fn written(code: Code) -> Text {
    let empty = Text {
        bytes: [0; Line::PLACES],
        length: 0,
    };
    empty
        .put_number(code.number, 32)
        .put_number(code.first, 32)
        .put_number(code.second, 10)
}

fn same_bytes(a: &[u8; Line::PLACES], b: &[u8; Line::PLACES]) -> bool {
    for i in 0..Line::PLACES {
        if a[i] != b[i] {
            return false;
        }
    }
    true
}

// All places are compared, those past the end too.
pub fn says(line: Line, code: Code) -> bool {
    let text = written(code);
    let a = line.text;
    let b = text.bytes;
    line.length == text.length && same_bytes(&a, &b)
}
