// The second implementation, by counting: no product, and no division by q.
use crate::divisors::coprime;
use crate::numbers::OF_16_BITS;
use std::num::{wrapping_add_u64, wrapping_sub_u64};

// Steps are counted one by one below this, and exponents have digits below it.
const MANY: u64 = 64;

// What the highest digit of an exponent of 32 bits stands for.
const HIGHEST: u64 = MANY * MANY * MANY * MANY * MANY;

pub fn last_below(q: u64) -> u64 {
    if q == 0 { 0 } else { q - 1 }
}

// What 1 leaves when divided by q.
pub fn one(q: u64) -> u64 {
    if q < 2 { 0 } else { 1 }
}

// The sum of two numbers below q.
fn plus(q: u64, a: u64, b: u64) -> u64 {
    let s = wrapping_add_u64(a, b);
    if s < q { s } else { wrapping_sub_u64(s, q) }
}

// Of any two numbers, as it is defined: a number past q adds nothing.
pub fn symbol_sum(q: u64, a: u64, b: u64) -> u64 {
    if q < b { a } else { plus(q, a, b) }
}

// And takes off no more than q.
pub fn symbol_difference(q: u64, a: u64, b: u64) -> u64 {
    let off = if q < b { q } else { b };
    if off <= a {
        a - off
    } else {
        wrapping_add_u64(a, wrapping_sub_u64(q, off))
    }
}

fn one_by_one(q: u64, start: u64, step: u64, times: u64) -> u64 {
    let mut n = start;
    for k in 0..times {
        n = plus(q, n, step);
    }
    n
}

// The same by doubling the step and halving the times, quick enough for high powers.
fn by_doubling(q: u64, start: u64, step: u64, times: u64) -> u64 {
    let mut n = start;
    let mut double = step;
    let mut left = times;
    // a while: each step halves what is left
    while 0 < left {
        if left % 2 == 1 {
            n = plus(q, n, double);
        }
        double = plus(q, double, double);
        left = left / 2;
    }
    n
}

// Of a start and a step below q.
pub fn add_often(q: u64, start: u64, step: u64, times: u64) -> u64 {
    if times < MANY {
        one_by_one(q, start, step, times)
    } else {
        by_doubling(q, start, step, times)
    }
}

// What n leaves when divided by q: so many steps up from 0. 0 where q is 0.
pub fn rest(q: u64, n: u64) -> u64 {
    add_often(q, 0, one(q), n)
}

fn multiply_often(q: u64, start: u64, factor: u64, times: u64) -> u64 {
    let mut n = start;
    for k in 0..times {
        n = by_doubling(q, 0, n, factor);
    }
    n
}

// By repeated multiplication, digit by digit where the exponent is too large to be counted through.
pub fn power(q: u64, a: u64, exponent: u64) -> u64 {
    if exponent < MANY {
        return multiply_often(q, one(q), a, exponent);
    }
    let mut n = one(q);
    let mut place = HIGHEST;
    // a while: each step takes a digit off the place
    while 0 < place {
        let shifted = multiply_often(q, n, n, MANY - 1);
        n = multiply_often(q, shifted, a, exponent / place % MANY);
        place = place / MANY;
    }
    n
}

// The first x below q for which a counted x times is 1; 0 where there is none.
fn counted_inverse(q: u64, a: u64) -> u64 {
    let mut multiple: u64 = 0;
    for x in 0..q {
        if multiple == 1 {
            return x;
        }
        multiple = plus(q, multiple, a);
    }
    0
}

// Where q is too large to be counted through, by Euler's theorem: if a has an inverse, it is a to the power of one less than there are numbers below q that
// have no divisor in common with q (q - 2 where q is prime). If a has none, a times that power is not 1.
pub fn inverse(q: u64, a: u64) -> u64 {
    if q < OF_16_BITS {
        return counted_inverse(q, a);
    }
    let x = power(q, a, last_below(coprime(q)));
    if by_doubling(q, 0, a, x) == 1 { x } else { 0 }
}
