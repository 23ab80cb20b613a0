// What rank refuses, and in which order. Each of the four things that can be wrong is right or wrong by itself, in all combinations.
use crate::shapes::{LENGTHS, Length, length_of, shape_of};
use crate::tables::answer;
use arithmetic::Symbol;
use std::num::wrapping_sub_usize;
use testing::{clip, draw, put, seed};

// 8 shapes, 3 lengths, 14 moduli and 6 numbers.
pub const CASES: usize = 2016;

#[derive(Clone, Copy, Debug, PartialEq, Eq)]
struct Choice {
    shape: usize,
    length: Length,
    modulus: usize,
    number: usize,
}

fn choose(case: usize) -> Choice {
    Choice {
        shape: case % 8,
        length: LENGTHS[case / 8 % 3],
        modulus: case / 24 % 14,
        number: case / 336,
    }
}

// How many of the moduli are primes: the first ones.
const PRIME_MODULI: usize = 7;

// The last is the square of the largest prime of 16 bits.
static MODULUS: [usize; 14] = [
    2, 7, 257, 65521, 65537, 2147483647, 4294967291, 0, 1, 4, 65535, 65536, 4294967295, 4293001441,
];

fn modulus(n: usize) -> usize {
    MODULUS[clip(n, 13)]
}

// The one number of the table that may not be 0.
fn number(q: usize, n: usize) -> usize {
    match n {
        0 => 0,
        1 => wrapping_sub_usize(q, 1),
        2 => q,
        3 => 65535,
        4 => 65536,
        _ => 4294967295,
    }
}

fn rank_of(a: usize, q: usize) -> usize {
    if a >= q {
        3
    } else if a == 0 {
        100
    } else {
        101
    }
}

// In the order 1, 4, 2, 3. Where nothing is wrong the rank is 0, or 1 if the table has a number that is not 0; shapes 2 and 3 have no numbers.
fn expected(c: Choice) -> usize {
    if c.shape >= 4 {
        1
    } else if c.length != Length::Right {
        4
    } else if c.modulus >= PRIME_MODULI {
        2
    } else if c.shape >= 2 {
        100
    } else {
        rank_of(number(modulus(c.modulus), c.number), modulus(c.modulus))
    }
}

pub fn length(case: usize) -> usize {
    let c = choose(case);
    length_of(c.shape, c.length)
}

pub fn agrees(case: usize, t: &mut [Symbol]) -> bool {
    let c = choose(case);
    let q = modulus(c.modulus);
    put(t, draw(seed(case), t.len()), number(q, c.number));
    answer(shape_of(q, c.shape), t) == expected(c)
}
