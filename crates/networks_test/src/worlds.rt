// Decoding by search: all readings and source keys of a tiny network are gone through, and nothing is solved.
use crate::counting::{SYMBOLS, digits, sets};
use crate::expected::TOTALS;
use crate::network::{heard, total_of, totals_of};
use arithmetic::Symbol;
use networks::Ring;
use std::num::wrapping_add_usize;
use testing::{at, product, quotient, residue, wide};

pub fn has(mask: usize, j: usize) -> bool {
    quotient(mask, sets(2, j)) % 2 == 1
}

// Whether the relays of the mask have these sums.
fn fits(
    ring: Ring,
    table: &[Symbol],
    weights: &[Symbol],
    readings: &[Symbol],
    source: &[Symbol],
    mask: usize,
    sums: &[Symbol],
) -> bool {
    let size = ring.size;
    for j in 0..size {
        if has(mask, j) {
            if heard(ring, table, weights, readings, source, j, false) != at(sums, j) {
                return false;
            }
        }
    }
    true
}

fn has_total(ring: Ring, readings: &[Symbol]) -> bool {
    let parts = ring.parts;
    for s in 0..parts {
        if total_of(ring, readings, s) != 0 {
            return true;
        }
    }
    false
}

// What else is asked of readings and a source key: that relay `want` has a sum that is not 0; where there is none of that number, that some total is not 0;
// and beyond that nothing.
fn wanted(
    ring: Ring,
    table: &[Symbol],
    weights: &[Symbol],
    readings: &[Symbol],
    source: &[Symbol],
    want: usize,
) -> bool {
    if want < ring.size {
        heard(ring, table, weights, readings, source, want, false) != 0
    } else {
        want > ring.size || has_total(ring, readings)
    }
}

// How many readings there are, and with how many source keys.
fn world_count(ring: Ring) -> usize {
    sets(
        wide(ring.q),
        wrapping_add_usize(product(ring.size, ring.parts), ring.rate),
    )
}

// The first readings and source key, as one number, that the relays of the mask have these sums of, and of which what is wanted holds.
fn find(
    ring: Ring,
    table: &[Symbol],
    weights: &[Symbol],
    mask: usize,
    sums: &[Symbol],
    want: usize,
) -> usize {
    let many = world_count(ring);
    let first = sets(wide(ring.q), product(ring.size, ring.parts));
    for n in 0..many {
        let readings = digits(wide(ring.q), residue(n, first));
        let source = digits(wide(ring.q), quotient(n, first));
        if fits(ring, table, weights, &readings, &source, mask, sums) {
            if wanted(ring, table, weights, &readings, &source, want) {
                return n;
            }
        }
    }
    many
}

// A relay depends on lower arrived ones where its sum is 0 whenever theirs are.
fn kept(ring: Ring, table: &[Symbol], weights: &[Symbol], reported: usize) -> usize {
    let size = ring.size;
    let zeros = [0 as Symbol; SYMBOLS];
    let mut mask: usize = 0;
    for j in 0..size {
        let lower = residue(reported, sets(2, j));
        if has(reported, j) {
            if find(ring, table, weights, lower, &zeros, j) < world_count(ring) {
                mask = wrapping_add_usize(mask, sets(2, j));
            }
        }
    }
    mask
}

// Whether totals are 0 whenever all sums that have arrived are.
pub fn decides(ring: Ring, table: &[Symbol], weights: &[Symbol], reported: usize) -> bool {
    let zeros = [0 as Symbol; SYMBOLS];
    find(ring, table, weights, reported, &zeros, ring.size) == world_count(ring)
}

// The totals of any readings and source key that give the sums of the relays that are kept.
pub fn totals(
    ring: Ring,
    table: &[Symbol],
    weights: &[Symbol],
    reported: usize,
    sums: &[Symbol],
) -> [Symbol; TOTALS] {
    let first = sets(wide(ring.q), product(ring.size, ring.parts));
    let mask = kept(ring, table, weights, reported);
    let any = wrapping_add_usize(ring.size, 1);
    let n = find(ring, table, weights, mask, sums, any);
    let readings = digits(wide(ring.q), residue(n, first));
    totals_of(ring, &readings)
}
