// Counts, lengths, moduli and symbols, right and wrong, in all combinations.
use crate::tables::{Shape, symbols};
use arithmetic::Symbol;
use std::num::wrapping_sub_usize;
use testing::{clip, draw, put, seed};

// 16 shapes, 3 lengths, 15 moduli and 6 symbols.
pub const CASES: usize = 4320;

// U, V, T and R. The first 4 are right. The product of 2^32 and 2^32 would wrap to 0.
static COUNTS: [[usize; 4]; 16] = [
    [2, 2, 1, 3],
    [8, 2, 16, 16],
    [1, 1, 0, 1],
    [2, 8, 3, 16],
    [0, 2, 0, 3],
    [9, 1, 0, 3],
    [2, 0, 0, 3],
    [1, 9, 0, 3],
    [3, 6, 0, 3],
    [8, 8, 0, 1],
    [2, 2, 5, 3],
    [2, 2, 1, 0],
    [2, 2, 1, 17],
    [4294967296, 4294967296, 0, 1],
    [17, 1, 0, 1],
    [2, 2, 18446744073709551615, 3],
];

// The first 7 are primes, 3 of them of 32 bits. The last is the square of the largest prime of 16 bits.
static MODULUS: [usize; 15] = [
    2, 5, 257, 65521, 65537, 2147483647, 4294967291, 0, 1, 4, 9, 65535, 65536, 4294967295,
    4293001441,
];

fn modulus(n: usize) -> usize {
    MODULUS[clip(n, 14)]
}

pub fn shape(number: usize) -> Shape {
    let [clusters, size, limit, rate] = COUNTS[number % 16];
    Shape {
        clusters,
        size,
        limit,
        rate,
        q: modulus(number / 48 % 15),
    }
}

// Right, one too long, or one too short; an empty table can only be too long.
pub fn length(number: usize) -> usize {
    let n = symbols(shape(number)) % 65536;
    match number / 16 % 3 {
        0 => n,
        1 => n + 1,
        _ => if n == 0 { 5 } else { n - 1 },
    }
}

// The one number of the table that may not be 0; where it is a symbol, it makes a column's sum wrong.
fn symbol(q: usize, n: usize) -> usize {
    match n {
        0 => 0,
        1 => wrapping_sub_usize(q, 1),
        2 => q,
        3 => 65535,
        4 => 65536,
        _ => 4294967295,
    }
}

pub fn fill(number: usize, t: &mut [Symbol]) {
    let s = shape(number);
    put(t, draw(seed(number), t.len()), symbol(s.q, number / 720));
}
