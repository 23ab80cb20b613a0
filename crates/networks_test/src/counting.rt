// Which observer leaks first, by literal counting: for each set of readings, how many source keys show each view. No rank, and no elimination.
use crate::network::{heard, total_of};
use arithmetic::Symbol;
use networks::Ring;
use std::num::{wrapping_add_u32, wrapping_add_usize};
use testing::{mul_add, narrow, product, quotient, residue, same, wide};

// More than the views of an observer of a tiny network.
const VIEWS: usize = 128;

// The most reading symbols and source symbols of one.
pub const SYMBOLS: usize = 8;

// q to the power n, of few small numbers.
pub fn sets(q: usize, n: usize) -> usize {
    let mut many: usize = 1;
    for k in 0..n {
        many = product(many, q);
    }
    many
}

// The digits of n to the base q, the lowest first.
pub fn digits(q: usize, n: usize) -> [Symbol; SYMBOLS] {
    let mut t = [0 as Symbol; SYMBOLS];
    let mut rest = n;
    for i in 0..SYMBOLS {
        t[i] = narrow(residue(rest, q));
        rest = quotient(rest, q);
    }
    t
}

// A view as one number: relay 1 to K its uploads, the server all sums.
fn view_of(
    ring: Ring,
    table: &[Symbol],
    weights: &[Symbol],
    readings: &[Symbol],
    source: &[Symbol],
    observer: usize,
) -> usize {
    if observer > 0 {
        return heard(ring, table, weights, readings, source, observer - 1, true);
    }
    let size = ring.size;
    let mut view: usize = 0;
    for j in 0..size {
        view = mul_add(
            heard(ring, table, weights, readings, source, j, false),
            view,
            wide(ring.q),
        );
    }
    view
}

// For each view, how many source keys show it under the readings that are the digits of n.
fn numbers(
    ring: Ring,
    table: &[Symbol],
    weights: &[Symbol],
    observer: usize,
    n: usize,
) -> [Symbol; VIEWS] {
    let many = sets(wide(ring.q), ring.rate);
    let readings = digits(wide(ring.q), n);
    let mut tally = [0 as Symbol; VIEWS];
    for x in 0..many {
        let source = digits(wide(ring.q), x);
        let v = view_of(ring, table, weights, &readings, &source, observer) % VIEWS;
        tally[v] = wrapping_add_u32(tally[v], 1);
    }
    tally
}

// Readings that agree with those of n: for a relay nothing but 0, for the server the same totals, all of the first user.
fn agreeing(ring: Ring, observer: usize, n: usize) -> usize {
    if observer > 0 {
        return 0;
    }
    let parts = ring.parts;
    let readings = digits(wide(ring.q), n);
    let mut number: usize = 0;
    let mut weight: usize = 1;
    for s in 0..parts {
        number = wrapping_add_usize(number, product(total_of(ring, &readings, s), weight));
        weight = product(weight, wide(ring.q));
    }
    number
}

// Equal numbers are an equivalence, so that it is enough to compare with one.
fn leaks(ring: Ring, table: &[Symbol], weights: &[Symbol], observer: usize) -> bool {
    let many = sets(wide(ring.q), product(ring.size, ring.parts));
    for n in 0..many {
        let here = numbers(ring, table, weights, observer, n);
        let there = numbers(ring, table, weights, observer, agreeing(ring, observer, n));
        if !same(&here, &there) {
            return true;
        }
    }
    false
}

// The first observer that leaks, relays 1 to K and then the server; K + 1 where none does.
pub fn first_leak(ring: Ring, table: &[Symbol], weights: &[Symbol]) -> usize {
    let size = ring.size;
    for j in 0..size {
        let relay = wrapping_add_usize(j, 1);
        if leaks(ring, table, weights, relay) {
            return relay;
        }
    }
    if leaks(ring, table, weights, 0) {
        0
    } else {
        wrapping_add_usize(size, 1)
    }
}
