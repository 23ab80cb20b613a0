// Tables for the cases: reading them, making them, and changing them row by row.
use crate::numbers::mul_add;
use arithmetic::Symbol;
use std::num::wrapping_sub_usize;
use testing::{at, draw, narrow, product, put, residue, step, wide16};

#[derive(Clone, Copy, Debug, PartialEq, Eq)]
pub struct Shape {
    pub q: usize,
    pub rows: usize,
    pub cols: usize,
}

pub fn place(cols: usize, j: usize, k: usize) -> usize {
    product(j, cols) + k % 65536
}

pub fn entry(cols: usize, t: &[Symbol], j: usize, k: usize) -> usize {
    at(t, place(cols, j, k))
}

// The first column in which row i is not 0, found from the last column back; the number of columns where there is none.
pub fn first_column(cols: usize, t: &[Symbol], i: usize) -> usize {
    let mut p = cols;
    for k in (0..cols).rev() {
        if entry(cols, t, i, k) != 0 {
            p = k;
        }
    }
    p
}

// A third of the numbers are 0, so that the first number of a row that is not 0 stands in any column.
fn draw_number(q: usize, x: usize) -> usize {
    if draw(x, 3) == 0 {
        0
    } else {
        residue(step(x), q)
    }
}

// Numbers below q at every place.
pub fn fill(q: usize, seed: usize, t: &mut [Symbol]) {
    let mut x = seed;
    for i in 0..t.len() {
        x = step(step(x));
        put(t, i, draw_number(q, x));
    }
}

// Row j becomes c times row a plus d times row b; j may be one of the two.
pub fn set_row(s: Shape, t: &mut [Symbol], j: usize, c: usize, a: usize, d: usize, b: usize) {
    let cols = s.cols;
    for k in 0..cols {
        let first = mul_add(s.q, 0, c, entry(cols, t, a, k));
        let sum = mul_add(s.q, first, d, entry(cols, t, b, k));
        put(t, place(cols, j, k), sum);
    }
}

// What the library's rank says: the number of a refusal, else 100 more than the rank.
pub fn answer(s: Shape, t: &[Symbol]) -> usize {
    match matrices::rank(narrow(s.q), s.rows, s.cols, t) {
        Ok(n) => n % 65536 + 100,
        Err(refusal) => wide16(refusal.number()),
    }
}

// More than any rank where the library refuses.
pub fn rank(s: Shape, t: &[Symbol]) -> usize {
    wrapping_sub_usize(answer(s, t), 100)
}
