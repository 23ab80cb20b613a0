// Shapes of plans, and key tables for them.
use arithmetic::Symbol;
use std::num::wrapping_sub_usize;
use testing::{at, draw, mul_add, power, product, put, residue, seed, step};

// The counts of a plan and its q, all as numbers of one type.
#[derive(Clone, Copy, Debug, PartialEq, Eq)]
pub struct Shape {
    pub clusters: usize,
    pub size: usize,
    pub limit: usize,
    pub rate: usize,
    pub q: usize,
}

pub fn users(s: Shape) -> usize {
    product(s.clusters, s.size)
}

// Above the number of sets of 16 users, the most there are.
pub const MANY_SETS: usize = 131072;

// How many sets of users there are.
pub fn sets(s: Shape) -> usize {
    power(MANY_SETS, 2, users(s))
}

pub fn symbols(s: Shape) -> usize {
    product(users(s), s.rate)
}

// Symbol k of row i.
pub fn entry(s: Shape, t: &[Symbol], i: usize, k: usize) -> usize {
    at(t, mul_add(k, i, s.rate))
}

// Adds c to symbol k of row i.
pub fn add(s: Shape, t: &mut [Symbol], i: usize, k: usize, c: usize) {
    let x = mul_add(k, i, s.rate);
    put(t, x, residue(at(t, x) % 4294967296 + c % 4294967296, s.q));
}

// Moves a symbol from one row to another in one column, which leaves the column's sum.
fn shift(s: Shape, t: &mut [Symbol], x: usize) {
    let y = step(x);
    let z = step(y);
    let k = draw(z, s.rate);
    let c = draw(step(z), s.q);
    add(s, t, draw(x, users(s)), k, c);
    add(s, t, draw(y, users(s)), k, wrapping_sub_usize(s.q, c));
}

// From a table of zeros: every column keeps the sum 0. Few turns leave zero rows and dependent ones.
fn shift_often(s: Shape, t: &mut [Symbol], turns: usize, start: usize) {
    let mut x = start;
    for turn in 0..turns {
        x = seed(seed(x));
        shift(s, t, x);
    }
}

// Often many turns, sometimes a few or none.
fn turns(x: usize) -> usize {
    match draw(x, 8) {
        0 => draw(step(x), 4),
        1 => draw(step(x), 8),
        _ => 60,
    }
}

// No symbols: q and the number after it, and the edges of 16 and of 32 bits.
fn too_large(q: usize, x: usize) -> usize {
    match draw(x, 6) {
        0 => 65535,
        1 => 65536,
        2 => 4294967295,
        3 => q % 65536 + 1,
        _ => q,
    }
}

// In one table of 16 a number that is not below q, in another one a column whose sum is not 0, if c is none.
fn spoil(s: Shape, t: &mut [Symbol], x: usize) {
    let y = step(x);
    let i = draw(step(y), users(s));
    let k = draw(y, s.rate);
    match draw(x, 16) {
        0 => put(t, mul_add(k, i, s.rate), too_large(s.q, seed(y))),
        1 => add(s, t, i, k, draw(seed(y), s.q)),
        _ => {}
    }
}

// Makes a table of zeros the table of a case.
pub fn make(s: Shape, t: &mut [Symbol], x: usize) {
    shift_often(s, t, turns(step(x)), x);
    spoil(s, t, seed(seed(x)));
}
