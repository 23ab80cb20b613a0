// The format of both kinds of records another way: each byte by its place, and a reader that works on the bytes' numbers.
use crate::shapes::{
    LEAST_OLD_SIZE, LEAST_WIDE, LEAST_WIDE_SIZE, Shape, TABLE, bounds_number, prime_number,
    record_size, symbols,
};
use arithmetic::Symbol;
use std::num::{wrapping_add_usize, wrapping_sub_usize};
use testing::{at, byte_at, count_large, mul_add, over, put, word_at};

// The marks at a record's end as a number, low byte first: of an old record, and of a wide one.
const OLD_MARKS: usize = 0x504b;

const WIDE_MARKS: usize = 0x514b;

// The bytes of q and of each symbol.
const OLD_WIDTH: usize = 2;

const WIDE_WIDTH: usize = 4;

// The place of the first symbol.
const OLD_HEAD: usize = 6;

const WIDE_HEAD: usize = 8;

// No distance is so large.
const NO_DISTANCE: usize = 65536;

// Byte k of a number of 32 bits, the lowest first.
fn byte_of(n: usize, k: usize) -> usize {
    match k {
        0 => n % 256,
        1 => n / 256 % 256,
        2 => n / 65536 % 256,
        _ => n / 16777216 % 256,
    }
}

// The byte at a place of q and the symbols, which begin at even places of an old record, and at every fourth of a wide one.
fn number_byte(s: Shape, t: &[Symbol], place: usize) -> usize {
    if s.wide {
        let symbol = at(t, wrapping_sub_usize(place, WIDE_HEAD) / WIDE_WIDTH);
        byte_of(over(place < WIDE_HEAD, s.q, symbol), place % WIDE_WIDTH)
    } else {
        let symbol = at(t, wrapping_sub_usize(place, OLD_HEAD) / OLD_WIDTH);
        byte_of(over(place < OLD_HEAD, s.q, symbol), place % OLD_WIDTH)
    }
}

// The byte at a place of the record. Its last four bytes are one number, with the marks in the upper half.
pub fn record_byte(s: Shape, t: &[Symbol], place: usize) -> usize {
    let size = record_size(s);
    let end = wrapping_sub_usize(size, 4);
    match place {
        0 => s.clusters,
        1 => s.size,
        2 => s.limit,
        3 => s.rate,
        _ => {
            let marks = over(s.wide, WIDE_MARKS, OLD_MARKS) % 65536 * 65536;
            let trailer = wrapping_add_usize(marks, size);
            let last = byte_of(trailer, wrapping_sub_usize(place, end));
            over(place < end, number_byte(s, t, place), last)
        }
    }
}

// Whether the last byte says that the record is wide.
fn is_wide(b: &[u8]) -> bool {
    byte_at(b, wrapping_sub_usize(b.len(), 1)) == WIDE_MARKS / 256
}

// The least distance that may stand before these marks.
fn least_distance(marks: usize) -> usize {
    let wide = over(marks == WIDE_MARKS, LEAST_WIDE_SIZE, NO_DISTANCE);
    over(marks == OLD_MARKS, LEAST_OLD_SIZE, wide)
}

// The place of the record, or the end where the trailer is wrong.
pub fn start(b: &[u8]) -> usize {
    let n = b.len();
    if n < 4 {
        return n;
    }
    let distance = word_at(b, n - 4);
    if distance < least_distance(word_at(b, n - 2)) || distance > n {
        n
    } else {
        n - distance
    }
}

// A number by its two halves; an old record has the lower alone.
fn number_at(b: &[u8], place: usize, wide: bool) -> usize {
    let upper = word_at(b, wrapping_add_usize(place, 2)) % 65536 * 65536;
    wrapping_add_usize(word_at(b, place), over(wide, upper, 0))
}

// The counts and q that stand at a place.
pub fn shape_at(b: &[u8], start: usize) -> Shape {
    let i = start % 4294967296;
    let wide = is_wide(b);
    Shape {
        clusters: byte_at(b, i),
        size: byte_at(b, i + 1),
        limit: byte_at(b, i + 2),
        rate: byte_at(b, i + 3),
        q: number_at(b, i + 4, wide),
        wide,
    }
}

fn fill_numbers(t: &mut [Symbol], many: usize, b: &[u8], place: usize, wide: bool) {
    let width = over(wide, WIDE_WIDTH, OLD_WIDTH);
    for k in 0..many {
        put(t, k, number_at(b, mul_add(place, k, width), wide));
    }
}

// The symbols of the record at a place, and zeros.
pub fn table_at(b: &[u8], start: usize, s: Shape) -> [Symbol; TABLE] {
    let mut t = [0 as Symbol; TABLE];
    let head = over(s.wide, WIDE_HEAD, OLD_HEAD);
    fill_numbers(
        &mut t,
        symbols(s),
        b,
        wrapping_add_usize(start, head),
        s.wide,
    );
    t
}

// The reader's order: 5, 1, 4, 2, 3. A wide record with a smaller q is 2, as one with a q that is no prime.
pub fn read_refusal(s: Shape, large: usize, length: usize, start: usize, lent: usize) -> usize {
    let prime = prime_number(s, over(large > 0, 3, 0));
    let kind = over(s.wide, over(s.q < LEAST_WIDE, 2, prime), prime);
    let size = wrapping_sub_usize(length, start);
    let lengths = over(record_size(s) != size, 4, over(lent != TABLE, 4, kind));
    over(start == length, 5, bounds_number(s, lengths))
}

// The writer's order: 1, 4 for the table, 2, 3, 4 for the buffer.
pub fn write_refusal(s: Shape, t: &[Symbol], length: usize) -> usize {
    let buffer = over(length != record_size(s), 4, 0);
    let prime = prime_number(s, over(count_large(t, s.q) > 0, 3, buffer));
    bounds_number(s, over(t.len() != symbols(s), 4, prime))
}
