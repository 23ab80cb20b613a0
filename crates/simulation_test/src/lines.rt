// A printed line, read from its end back.
use std::num::wrapping_sub_usize;
use testing::{byte_at, over};
use texts::Line;

// What a line should say: of the shown total the symbol, and the prime.
#[derive(Clone, Copy, Debug, PartialEq, Eq)]
pub struct Told {
    pub number: usize,
    pub last: usize,
    pub first: usize,
    pub sum: usize,
    pub total: usize,
    pub q: usize,
}

// No place of a line: no byte that is looked for stands before it.
const NOWHERE: usize = 65536;

const SPACE: usize = 32;

const LINE_END: usize = 10;

const MINUS: usize = 45;

const NOUGHT: usize = 48;

// The place of a byte that stands before a place.
fn back(text: &[u8], end: usize, byte: usize) -> usize {
    let place = wrapping_sub_usize(end, 1);
    over(byte_at(text, place) == byte, place, NOWHERE)
}

// The place of a number's first digit, the lowest of which stands before a place.
fn back_digits(text: &[u8], end: usize, n: usize) -> usize {
    let mut place = back(text, end, NOUGHT + n % 10);
    let mut left = n / 10;
    // a while: each step takes a digit off what is left
    while left > 0 {
        place = back(text, place, NOUGHT + left % 10);
        left /= 10;
    }
    place
}

// The same of a number with a byte after it.
fn back_field(text: &[u8], end: usize, n: usize, byte: usize) -> usize {
    back_digits(text, back(text, end, byte), n)
}

// A total symbol below half of q is shown as it is, and any other as what it lacks to q, with a sign.
fn back_shown(text: &[u8], end: usize, t: Told) -> usize {
    let lacks = wrapping_sub_usize(t.q, t.total);
    if t.total < lacks {
        back_field(text, end, t.total, LINE_END)
    } else {
        back(text, back_field(text, end, lacks, LINE_END), MINUS)
    }
}

// Whether a line says that and nothing else.
pub fn says(line: Line, t: Told) -> bool {
    let text = line.text;
    let shown = back_shown(&text, line.length, t);
    let sum = back_field(&text, shown, t.sum, SPACE);
    let first = back_field(&text, sum, t.first, SPACE);
    let last = back_field(&text, first, t.last, SPACE);
    back_field(&text, last, t.number, SPACE) == 0
}

// Whether it says a number alone.
pub fn says_number(line: Line, n: usize) -> bool {
    let text = line.text;
    back_field(&text, line.length, n, LINE_END) == 0
}
