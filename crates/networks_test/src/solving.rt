// Whether totals can be had of the sums that have arrived, by an elimination of its own: the rows of the relays that have arrived are gone through from the
// last, and each is taken out of all rows by its last number that is not 0, crosswise and with no inverse. Totals can be had where nothing is left of their
// rows. A number of a row is the sum that a relay has where one symbol is 1 and all others are 0.
use crate::network::{heard, plus, total_of};
use crate::worlds::has;
use arithmetic::Symbol;
use networks::Ring;
use std::num::wrapping_sub_usize;
use testing::{at, count_large, mul_add, narrow, over, product, product_mod, wide};

// The most columns, the most rows, and the numbers of so many of them.
pub const COLUMNS: usize = 48;

const ROWS: usize = 12;

const CELLS: usize = ROWS * COLUMNS;

fn unit(c: usize) -> [Symbol; COLUMNS] {
    let mut t = [0 as Symbol; COLUMNS];
    for i in 0..COLUMNS {
        t[i] = narrow(over(i == c, 1, 0));
    }
    t
}

// Column c of row r: of total r, or, after the most totals, of a relay; 0 where there is no such total or the relay has not arrived.
fn cell(
    ring: Ring,
    table: &[Symbol],
    weights: &[Symbol],
    reported: usize,
    r: usize,
    c: usize,
) -> usize {
    let readings = unit(c);
    let source = unit(wrapping_sub_usize(c, product(ring.size, ring.parts)));
    if r < Ring::MAX_PARTS {
        over(r < ring.parts, total_of(ring, &readings, r), 0)
    } else {
        let j = r - Ring::MAX_PARTS;
        let sum = heard(ring, table, weights, &readings, &source, j, false);
        over(has(reported, j), sum, 0)
    }
}

// The rows of all totals, and then those of the relays that have arrived.
fn rows_of(ring: Ring, table: &[Symbol], weights: &[Symbol], reported: usize) -> [Symbol; CELLS] {
    let mut rows = [0 as Symbol; CELLS];
    for i in 0..CELLS {
        rows[i] = narrow(cell(ring, table, weights, reported, i / COLUMNS, i % COLUMNS));
    }
    rows
}

// The last column in which row j is not 0; the first where it is nothing but zeros.
fn last_column(rows: &[Symbol], j: usize) -> usize {
    let mut last: usize = 0;
    for c in 0..COLUMNS {
        if at(rows, mul_add(c, j, COLUMNS)) != 0 {
            last = c;
        }
    }
    last
}

// Every row times the last number of row j that is not 0, less row j times the row's own number in that column. Where row j is nothing but zeros nothing
// changes.
fn cleared(q: usize, rows: [Symbol; CELLS], j: usize) -> [Symbol; CELLS] {
    let column = last_column(&rows, j);
    let found = at(&rows, mul_add(column, j, COLUMNS));
    let times = over(found == 0, 1, found);
    let mut out = [0 as Symbol; CELLS];
    for i in 0..CELLS {
        let own = at(&rows, mul_add(column, i / COLUMNS, COLUMNS));
        let less = product_mod(q, own, at(&rows, mul_add(i % COLUMNS, j, COLUMNS)));
        out[i] = narrow(plus(
            q,
            product_mod(q, times, at(&rows, i)),
            wrapping_sub_usize(q, less),
        ));
    }
    out
}

// A relay's row is 0 once it is taken out of itself, so that totals alone can be left.
pub fn decides(ring: Ring, table: &[Symbol], weights: &[Symbol], reported: usize) -> bool {
    let mut rows = rows_of(ring, table, weights, reported);
    for i in 0..Ring::MAX_SIZE {
        rows = cleared(wide(ring.q), rows, ROWS - 1 - i);
    }
    count_large(&rows, 1) == 0
}
