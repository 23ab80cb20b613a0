// Shapes that are no tables, and rows that a table does not have: elimination finds nothing and leaves the numbers as they are.
use crate::shapes::{LENGTHS, length_of, shape_of};
use crate::tables::fill;
use arithmetic::Symbol;
use testing::{clip, narrow, same, seed};

// The 24 combinations of a shape and a length for eliminate, then the 20 wrong ones for reduce_rows.
pub const CASES: usize = 44;

// The number of a combination, whose shape is that modulo 8: those below 4 are right, and all others wrong.
fn combination(case: usize) -> usize {
    if case < 24 { case } else { case - 20 }
}

pub fn length(case: usize) -> usize {
    let n = combination(case);
    length_of(n % 8, LENGTHS[clip(n / 8, 2)])
}

// Where the shape and the length are right, the row is wrong.
fn row(case: usize, rows: usize) -> usize {
    if case >= 4 {
        0
    } else if case % 2 == 0 {
        rows
    } else {
        18446744073709551615
    }
}

fn finds(q: usize, case: usize, t: &mut [Symbol]) -> bool {
    let s = shape_of(q, combination(case) % 8);
    if case < 24 {
        matrices::eliminate(narrow(q), s.rows, s.cols, row(case, s.rows), t)
    } else {
        matrices::reduce_rows(narrow(q), s.rows, s.cols, t) != 0
    }
}

pub fn agrees(case: usize, t: &mut [Symbol], old: &mut [Symbol]) -> bool {
    let q = if case % 3 == 0 { 7 } else { 4294967291 };
    let x = seed(case);
    fill(q, x, t);
    fill(q, x, old);
    !finds(q, case, t) && same(old, t)
}
