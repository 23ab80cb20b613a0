// Places in a buffer, and numbers of two or four bytes.
// Every function takes every number, so that a loop that calls it has nothing to show.
use std::num::{wrapping_add_usize, wrapping_sub_usize};
use testing::{draw, put_byte, word_at};

// A number from 1 to n.
pub fn from_one(x: usize, n: usize) -> usize {
    wrapping_add_usize(draw(x, n), 1)
}

// The number whose lower half is a and whose upper half is b, both of 16 bits.
pub fn joined(a: usize, b: usize) -> usize {
    a % 65536 + b % 65536 * 65536
}

// The place n bytes after another.
pub fn after(place: usize, n: usize) -> usize {
    wrapping_add_usize(place, n)
}

pub fn before(place: usize, n: usize) -> usize {
    wrapping_sub_usize(place, n)
}

// Two bytes, low first.
pub fn put_word(bytes: &mut [u8], i: usize, n: usize) {
    put_byte(bytes, i, n);
    put_byte(bytes, after(i, 1), n / 256);
}

// The bytes of a symbol, in the old record and in the wide one.
pub const OLD: usize = 2;

pub const WIDE: usize = 4;

// A number of so many bytes: one word, or two, the lower first.
pub fn put_number(bytes: &mut [u8], i: usize, width: usize, n: usize) {
    put_word(bytes, i, n);
    if width == WIDE {
        put_word(bytes, after(i, 2), n / 65536);
    }
}

pub fn number_at(bytes: &[u8], i: usize, width: usize) -> usize {
    let low = word_at(bytes, i);
    if width == WIDE {
        joined(low, word_at(bytes, after(i, 2)))
    } else {
        low
    }
}
