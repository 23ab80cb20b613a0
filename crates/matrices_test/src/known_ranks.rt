// Rank and reduce_rows on matrices up to 48 by 48 that are made to have a known rank r. Of r rows each has a 1 one column after that of the row before,
// and 0 up to there: they are independent. The rows after them are 0. Adding multiples of rows to others then changes no rank.
use crate::numbers::skip;
use crate::tables::{Shape, first_column, place, rank, set_row};
use arithmetic::Symbol;
use std::num::{wrapping_add_usize, wrapping_sub_usize};
use testing::{PRIMES, at, clip, draw, narrow, prime, product, put, quotient, residue, seed, step};

// A matrix to make: its shape, its rank, and the column of the first row's 1.
#[derive(Clone, Copy, Debug, PartialEq, Eq)]
struct KnownRank {
    shape: Shape,
    rank: usize,
    first: usize,
}

// Rows, columns and rank of the largest and the smallest shapes.
static OUTERMOST: [[usize; 3]; 9] = [
    [0, 48, 0],
    [48, 0, 0],
    [0, 0, 0],
    [48, 48, 48],
    [48, 48, 47],
    [48, 48, 1],
    [48, 48, 0],
    [48, 1, 1],
    [1, 48, 1],
];

fn outermost(q: usize, n: usize) -> KnownRank {
    let [rows, cols, rank] = OUTERMOST[clip(n, 8)];
    KnownRank {
        shape: Shape { q, rows, cols },
        rank,
        first: 0,
    }
}

fn drawn(case: usize) -> KnownRank {
    let x = seed(case);
    let y = step(x);
    let z = step(y);
    let w = step(z);
    let rows = draw(x, 49);
    let cols = draw(y, 49);
    let most = if rows < cols { rows } else { cols };
    let rank = draw(z, most % 49 + 1);
    let first = draw(w, wrapping_sub_usize(cols, rank) % 49 + 1);
    KnownRank {
        shape: Shape {
            q: prime(draw(step(w), PRIMES)),
            rows,
            cols,
        },
        rank,
        first,
    }
}

// Those first, with the largest primes of 16 and of 32 bits.
fn known(case: usize) -> KnownRank {
    match case {
        0..=8 => outermost(65521, case),
        9..=17 => outermost(4294967291, case % 9),
        _ => drawn(case),
    }
}

pub fn length(case: usize) -> usize {
    let m = known(case);
    let s = m.shape;
    product(s.rows, s.cols)
}

// The number in row j and column k before rows are added.
fn start_entry(m: KnownRank, j: usize, k: usize, x: usize) -> usize {
    let one = wrapping_add_usize(j, m.first);
    if j >= m.rank || k < one {
        0
    } else if k == one {
        1
    } else {
        residue(x, m.shape.q)
    }
}

fn fill_start(m: KnownRank, seed: usize, t: &mut [Symbol]) {
    let cols = m.shape.cols;
    let mut x = seed;
    for n in 0..t.len() {
        x = step(x);
        put(t, n, start_entry(m, quotient(n, cols), residue(n, cols), x));
    }
}

// Adds a multiple of a row to another, both drawn.
fn add_row(s: Shape, t: &mut [Symbol], x: usize) {
    let y = step(x);
    let j = draw(x, s.rows);
    let b = draw(y, s.rows);
    if j != b {
        set_row(s, t, j, 1, j, residue(step(y), s.q), b);
    }
}

fn add_rows(s: Shape, t: &mut [Symbol], seed: usize) {
    let mut x = seed;
    for turn in 0usize..200 {
        x = skip(x);
        add_row(s, t, x);
    }
}

fn make(m: KnownRank, case: usize, t: &mut [Symbol]) {
    let x = skip(seed(case));
    fill_start(m, x, t);
    add_rows(m.shape, t, x);
}

pub fn agrees(case: usize, t: &mut [Symbol]) -> bool {
    let m = known(case);
    make(m, case, t);
    rank(m.shape, t) == m.rank
}

// The rows in another order, in the table `other`: turned over, and rotated by a number of rows.
fn reorder(s: Shape, t: &[Symbol], other: &mut [Symbol], rotation: usize) {
    let cols = s.cols;
    for n in 0..t.len() {
        let j = wrapping_sub_usize(rotation, quotient(n, cols));
        put(
            other,
            place(cols, residue(j, s.rows), residue(n, cols)),
            at(t, n),
        );
    }
}

fn count_rows(s: Shape, t: &[Symbol]) -> usize {
    let rows = s.rows;
    let mut n: usize = 0;
    for j in 0..rows {
        if first_column(s.cols, t, j) < s.cols {
            n = wrapping_add_usize(n, 1);
        }
    }
    n
}

// reduce_rows leaves as many rows that are not 0 as it counts.
fn reduces_to(s: Shape, t: &mut [Symbol], r: usize) -> bool {
    matrices::reduce_rows(narrow(s.q), s.rows, s.cols, t) == r && count_rows(s, t) == r
}

// reduce_rows counts the known rank too, also with the rows in another order.
pub fn reduces(case: usize, t: &mut [Symbol], other: &mut [Symbol]) -> bool {
    let m = known(case);
    let s = m.shape;
    make(m, case, t);
    reorder(s, t, other, 48 + case % 48);
    reduces_to(s, t, m.rank) && reduces_to(s, other, m.rank)
}
