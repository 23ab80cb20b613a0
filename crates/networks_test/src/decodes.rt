// Decoding: of tiny networks by a search through all readings and source keys, of networks of every size by an elimination and by the readings themselves.
use crate::counting::sets;
use crate::drawn::{FEW, few, pick, spoiled, table, tiny, weights, whole};
use crate::expected::{
    Kind, Lengths, TOTALS, both_below, compared, lengths_of, network_fits, number_of, refused,
    rest_fits,
};
use crate::network::{heard, totals_of};
use crate::solving::{COLUMNS, decides};
use crate::worlds;
use crate::worlds::has;
use arithmetic::Symbol;
use networks::Ring;
use std::num::wrapping_add_usize;
use testing::{at, clip, narrow, narrow16, over, same, seed, state, wide};

// What stands in the buffer before.
const BEFORE: Symbol = 7;

// The call held to a number, and the buffer to what it should hold.
fn held(
    ring: Ring,
    table: &[Symbol],
    weights: &[Symbol],
    reported: usize,
    sums: &[Symbol],
    out: &mut [Symbol],
    number: usize,
    expected: &[Symbol],
) -> usize {
    let verdict = networks::decode(ring, table, weights, narrow16(reported), sums, out);
    compared(number_of(verdict), number, same(out, expected))
}

// With parts of these lengths.
fn lent(
    ring: Ring,
    l: Lengths,
    table: &[Symbol],
    weights: &[Symbol],
    reported: usize,
    sums: &[Symbol],
    number: usize,
    expected: &[Symbol],
) -> usize {
    let mut out = [BEFORE; TOTALS];
    let n = clip(l.table, table.len());
    let m = clip(l.weights, weights.len());
    let k = clip(l.sums, sums.len());
    let o = clip(l.out, TOTALS);
    held(
        ring,
        &table[..n],
        &weights[..m],
        reported,
        &sums[..k],
        &mut out[..o],
        number,
        expected,
    )
}

// Whether the sums that have arrived are symbols.
fn all_symbols(ring: Ring, reported: usize, sums: &[Symbol]) -> bool {
    let size = ring.size % FEW;
    for j in 0..size {
        if has(reported, j) && at(sums, j) >= wide(ring.q) {
            return false;
        }
    }
    true
}

// Any numbers in the places of relays that have not arrived.
fn strewn(x: usize, reported: usize, sums: [Symbol; FEW]) -> [Symbol; FEW] {
    let mut t = sums;
    for j in 0..FEW {
        if !has(reported, j) {
            t[j] = narrow(state(x, wrapping_add_usize(j, 40)));
        }
    }
    t
}

// What is written and answered, held to a search. By a mistake it is expected to be refused.
fn searched(
    ring: Ring,
    l: Lengths,
    table: &[Symbol],
    weights: &[Symbol],
    reported: usize,
    sums: &[Symbol],
    mistaken: bool,
) -> usize {
    let before = [BEFORE; TOTALS];
    let n = clip(l.table, table.len());
    let m = clip(l.weights, weights.len());
    let arrived = all_symbols(ring, reported, sums);
    let below = arrived && both_below(wide(ring.q), &table[..n], &weights[..m]);
    let outside = over(reported < sets(2, clip(ring.size, FEW)), 0, 8);
    let fit = network_fits(ring, n, m) && rest_fits(ring, clip(l.sums, FEW), clip(l.out, TOTALS));
    let early = refused(ring, fit, below, outside);
    if early != 0 {
        lent(ring, l, table, weights, reported, sums, early, &before)
    } else if !worlds::decides(ring, table, weights, reported) {
        lent(ring, l, table, weights, reported, sums, 23, &before)
    } else {
        let number = over(mistaken, 1, 0);
        let expected = worlds::totals(ring, table, weights, reported, sums);
        lent(ring, l, table, weights, reported, sums, number, &expected)
    }
}

// Every roll of a tiny network, with two bits more; any sums, which some readings may give or none.
pub fn tiny_decoded(case: usize, kind: Kind) -> usize {
    let faulty = kind == Kind::Faulty;
    let x = seed(case / 16);
    let y = state(x, case);
    let reported = case % 16;
    let first = tiny(x);
    let ring = spoiled(first, y, faulty);
    let l = lengths_of(ring, y, faulty);
    let t = table(first, ring, x, faulty);
    let a = weights(first, ring, x, faulty);
    let sums = strewn(x, reported, few(first, ring, y, ring.size, faulty));
    let mistaken = kind == Kind::Mistaken;
    searched(ring, l, &t, &a, reported, &sums, mistaken)
}

// The readings and the source symbols of a network of every size, one after the other as they are drawn.
fn drawn_symbols(ring: Ring, x: usize) -> [Symbol; COLUMNS] {
    let mut t = [0 as Symbol; COLUMNS];
    for i in 0..COLUMNS {
        t[i] = narrow(testing::residue(state(x, i), wide(ring.q)));
    }
    t
}

fn sums_of(
    ring: Ring,
    x: usize,
    table: &[Symbol],
    weights: &[Symbol],
    readings: &[Symbol],
) -> [Symbol; FEW] {
    let source = drawn_symbols(ring, state(x, 32));
    let mut t = [0 as Symbol; FEW];
    for j in 0..FEW {
        t[j] = narrow(heard(ring, table, weights, readings, &source, j, false));
    }
    t
}

// Totals are the readings' own where they can be had.
fn solved(
    ring: Ring,
    x: usize,
    table: &[Symbol],
    weights: &[Symbol],
    reported: usize,
    sums: &[Symbol],
    readings: &[Symbol],
) -> usize {
    let before = [BEFORE; TOTALS];
    let expected = totals_of(ring, readings);
    let l = lengths_of(ring, x, false);
    if decides(ring, table, weights, reported) {
        lent(ring, l, table, weights, reported, sums, 0, &expected)
    } else {
        lent(ring, l, table, weights, reported, sums, 23, &before)
    }
}

// A network of every size, with the sums of readings.
pub fn whole_decoded(case: usize) -> usize {
    let x = seed(case);
    let ring = whole(x);
    let reported = pick(x, 33, sets(2, ring.size));
    let t = table(ring, ring, x, false);
    let a = weights(ring, ring, x, false);
    let readings = drawn_symbols(ring, state(x, 31));
    let sums = strewn(x, reported, sums_of(ring, x, &t, &a, &readings));
    solved(ring, x, &t, &a, reported, &sums, &readings)
}
