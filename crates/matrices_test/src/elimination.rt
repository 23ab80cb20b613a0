// Elimination by row i: every row that is not 0 in the pivot column is multiplied by row i's number there, and loses the multiple of the old row i that
// makes its own number there 0. Worked out anew from a copy.
use crate::numbers::{mul_add, opposite, skip};
use crate::tables::{Shape, entry, fill, first_column};
use arithmetic::Symbol;
use testing::{PRIMES, at, draw, narrow, prime, product, quotient, residue, seed, step};

// 1 to 8 rows and 0 to 8 columns, and now and then the largest shape.
fn shape(case: usize) -> Shape {
    let x = seed(case);
    let q = prime(draw(x, PRIMES));
    if case % 64 == 0 {
        return Shape {
            q,
            rows: 48,
            cols: 48,
        };
    }
    let y = step(x);
    Shape {
        q,
        rows: draw(y, 8) % 8 + 1,
        cols: draw(step(y), 9),
    }
}

pub fn length(case: usize) -> usize {
    let s = shape(case);
    product(s.rows, s.cols)
}

// The row that is eliminated by, and the first column in which it is not 0: past the last where there is none.
#[derive(Clone, Copy, Debug, PartialEq, Eq)]
struct Pivot {
    row: usize,
    column: usize,
}

// What row j has in the pivot column: 0 where there is no pivot.
fn at_pivot(s: Shape, old: &[Symbol], by: Pivot, j: usize) -> usize {
    if by.column >= s.cols {
        0
    } else {
        entry(s.cols, old, j, by.column)
    }
}

// What elimination makes of place n: its number times the pivot, less the multiple of the row's in the same column.
fn expected(s: Shape, old: &[Symbol], by: Pivot, n: usize) -> usize {
    let x = at_pivot(s, old, by, quotient(n, s.cols));
    if x == 0 {
        return at(old, n);
    }
    let k = residue(n, s.cols);
    let taken = mul_add(s.q, 0, x, entry(s.cols, old, by.row, k));
    let y = at_pivot(s, old, by, by.row);
    mul_add(s.q, opposite(s.q, taken), y, at(old, n))
}

// Row i and the pivot column are 0 afterwards.
fn is_zero_place(s: Shape, by: Pivot, n: usize) -> bool {
    quotient(n, s.cols) == by.row || residue(n, s.cols) == by.column
}

fn holds_at(s: Shape, old: &[Symbol], t: &[Symbol], by: Pivot, n: usize) -> bool {
    let a = at(t, n);
    a == expected(s, old, by, n) && (a == 0 || !is_zero_place(s, by, n))
}

fn holds(s: Shape, old: &[Symbol], t: &[Symbol], by: Pivot) -> bool {
    for n in 0..t.len() {
        if !holds_at(s, old, t, by, n) {
            return false;
        }
    }
    true
}

fn compare(s: Shape, old: &[Symbol], t: &[Symbol], i: usize, found: bool) -> bool {
    let by = Pivot {
        row: i,
        column: first_column(s.cols, old, i),
    };
    let has = by.column < s.cols;
    found == has && holds(s, old, t, by)
}

pub fn agrees(case: usize, t: &mut [Symbol], old: &mut [Symbol]) -> bool {
    let s = shape(case);
    let x = skip(seed(case));
    let i = draw(x, s.rows);
    fill(s.q, x, t);
    fill(s.q, x, old);
    let found = matrices::eliminate(narrow(s.q), s.rows, s.cols, i, t);
    compare(s, old, t, i, found)
}
