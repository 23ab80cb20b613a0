// Rank against a count: where the rank is r, exactly q to the power (columns - r) vectors x have the product 0 with every row.
// All vectors are tried, for small q and few columns.
use crate::numbers::{mul_add, power, skip};
use crate::tables::{Shape, entry, fill, rank, set_row};
use arithmetic::Symbol;
use std::num::wrapping_add_usize;
use testing::{draw, prime, product, quotient, residue, seed, step};

// 0 to 5 rows and columns; 4 columns at most where q is 7, which keeps the number of vectors small.
fn shape(case: usize) -> Shape {
    let x = seed(case);
    let q = prime(case % 4);
    let limit: usize = if q == 7 { 5 } else { 6 };
    Shape {
        q,
        rows: draw(x, 6),
        cols: draw(step(x), limit),
    }
}

pub fn length(case: usize) -> usize {
    let s = shape(case);
    product(s.rows, s.cols)
}

// A number below q, most often a small one.
fn factor(q: usize, x: usize) -> usize {
    draw(step(x), draw(x, q) % 65536 + 1)
}

// Every other row becomes a sum of two rows before it with factors: 0 where both factors are 0, a row again where they are 1 and 0.
// How many rows came into the span of those before by this.
fn change_row(s: Shape, t: &mut [Symbol], j: usize, x: usize) -> usize {
    if draw(x, 2) == 0 {
        return 0;
    }
    let y = step(x);
    let z = step(y);
    set_row(
        s,
        t,
        j,
        factor(s.q, y),
        draw(y, j),
        factor(s.q, z),
        draw(z, j),
    );
    1
}

// Row 0 has none before it, and stays.
fn change_rows(s: Shape, t: &mut [Symbol], seed: usize) -> usize {
    let rows = s.rows;
    let mut n: usize = 0;
    let mut x = seed;
    for j in 1..rows {
        x = skip(x);
        n = wrapping_add_usize(n, change_row(s, t, j, x));
    }
    n
}

// The product of row j with the vector whose entries are the digits of v to the base q.
fn product_with(s: Shape, t: &[Symbol], j: usize, v: usize) -> usize {
    let cols = s.cols;
    let mut sum: usize = 0;
    let mut digits = v;
    for k in 0..cols {
        sum = mul_add(s.q, sum, entry(cols, t, j, k), residue(digits, s.q));
        digits = quotient(digits, s.q);
    }
    sum
}

fn solves(s: Shape, t: &[Symbol], v: usize) -> bool {
    let rows = s.rows;
    for j in 0..rows {
        if product_with(s, t, j, v) != 0 {
            return false;
        }
    }
    true
}

// How many of the vectors are solutions, all of them counted through as numbers.
fn count(s: Shape, t: &[Symbol], vectors: usize) -> usize {
    let mut n: usize = 0;
    for v in 0..vectors {
        if solves(s, t, v) {
            n = wrapping_add_usize(n, 1);
        }
    }
    n
}

// The powers are below 65,536, so that they are what they are modulo 65,536.
fn counts_match(s: Shape, t: &[Symbol], r: usize) -> bool {
    let cols = s.cols;
    r <= cols && count(s, t, power(65536, s.q, cols)) == power(65536, s.q, cols - r)
}

pub fn agrees(case: usize, t: &mut [Symbol]) -> bool {
    let s = shape(case);
    let x = skip(seed(case));
    fill(s.q, x, t);
    let dependent = change_rows(s, t, skip(x));
    let r = rank(s, t);
    r % 65536 + dependent % 65536 <= s.rows && counts_match(s, t, r)
}
