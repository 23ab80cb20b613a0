// The table maker, for all counts up to one past the bounds: powers by repeated multiplication, and sums of whole columns.
use crate::numbers::{
    UNTOUCHED, compared, drawn_length, holds, length_of, planned_said, verdict_said,
};
use crate::shapes::{
    LEAST_WIDE, Shape, TABLE_AND_ONE, counts_number, plan_of, prime_number, symbols, users,
};
use arithmetic::Symbol;
use keys::make_table;
use std::num::{wrapping_add_usize, wrapping_sub_usize};
use testing::{
    clip, column_sum, draw, mul_add, narrow, over, power, product, put, quotient, residue, seed,
};
use vetting::vet;

// How many moduli are primes, of how many.
const PRIME_MODULI: usize = 12;

const MODULI: usize = 18;

// The first 3 leave so few powers that plans with many users leak at once.
static MODULUS: [usize; 18] = [
    2, 3, 5, 7, 13, 257, 65521, 65537, 1048583, 2147483647, 4294967279, 4294967291, 0, 1, 9, 65535,
    4294967293, 4294967295,
];

fn modulus(n: usize) -> usize {
    MODULUS[clip(n, 17)]
}

// Those below q are right, the fifth where q has more than 16 bits.
fn generator_of(q: usize, n: usize) -> usize {
    match n {
        0 => 0,
        1 => 1,
        2 => 2,
        3 => 3,
        4 => 65536,
        5 => wrapping_sub_usize(q, 1) % 4294967296,
        _ => q,
    }
}

// The larger of V + T and the smaller of U + T - 1 and U V - 1; one is taken off after the choice.
fn rate(clusters: usize, size: usize, limit: usize) -> usize {
    let a = wrapping_add_usize(clusters, limit);
    let b = product(clusters, size);
    let server = over(a > b, b, a);
    let relay = wrapping_add_usize(wrapping_add_usize(size, limit), 1);
    wrapping_sub_usize(over(relay > server, relay, server), 1)
}

// The counts that are tried: U and V from 0 to 9, T from 0 to 17.
const COUNTS: usize = 1800;

// All counts with all moduli; with 7 generators all cases of the maker.
const SHAPES: usize = COUNTS * MODULI;

pub const CASES: usize = SHAPES * 7;

// The walk is short where there are few users or only small coalitions, or where it soon leaks: other plans take a small q.
fn shape(number: usize) -> Shape {
    let clusters = number % 10;
    let size = number / 10 % 10;
    let limit = number / 100 % 18;
    let n = number / COUNTS % MODULI;
    let small = n < PRIME_MODULI && limit > 2 && product(clusters, size) > 9;
    let q = modulus(over(small, n % 3, n));
    Shape {
        clusters,
        size,
        limit,
        rate: rate(clusters, size, limit),
        q,
        wide: q >= LEAST_WIDE,
    }
}

// Symbol k of row i, which is not the last: 1 and zeros, or powers of the generator's power.
fn entry(q: usize, generator: usize, i: usize, k: usize) -> usize {
    over(i == 0 && k != 0, 0, power(q, generator, product(i, k)))
}

fn fill_rows(s: Shape, generator: usize, t: &mut [Symbol]) {
    let m = wrapping_sub_usize(symbols(s), s.rate);
    for x in 0..m {
        let i = quotient(x, s.rate);
        put(t, x, entry(s.q, generator, i, residue(x, s.rate)));
    }
}

// Minus the sum of each column, over all rows but the last.
fn fill_last(s: Shape, t: &mut [Symbol]) {
    let many = s.rate;
    let last = wrapping_sub_usize(users(s), 1);
    for k in 0..many {
        let sum = residue(column_sum(t, last, many, k), s.q);
        put(
            t,
            mul_add(k, last, many),
            residue(wrapping_sub_usize(s.q, sum), s.q),
        );
    }
}

// The table of a shape that has users, and zeros; only zeros where it is not wanted.
pub fn table(s: Shape, generator: usize, wanted: bool) -> [Symbol; TABLE_AND_ONE] {
    let mut t = [0 as Symbol; TABLE_AND_ONE];
    if wanted {
        fill_rows(s, generator, &mut t);
        fill_last(s, &mut t);
    }
    t
}

// The maker's order: 1, 2, 3, 10, 4, 7; this is all but the last.
fn refusal(s: Shape, generator: usize, length: usize) -> usize {
    let size = over(length != symbols(s), 4, 0);
    let limit = over(wrapping_add_usize(s.limit, s.size) >= users(s), 10, size);
    counts_number(s, prime_number(s, over(generator >= s.q, 3, limit)))
}

// Whether the table leaks is told from the one made the other way.
fn judged(s: Shape, generator: usize, t: &mut [Symbol]) -> usize {
    let first = refusal(s, generator, t.len());
    let other = table(s, generator, first == 0);
    let n = clip(t.len(), TABLE_AND_ONE);
    let vetted = verdict_said(vet(plan_of(s), &other[..n]));
    let number = over(first > 0, first, vetted);
    let planned = make_table(
        s.clusters,
        s.size,
        s.limit,
        narrow(s.q),
        narrow(generator),
        t,
    );
    compared(planned_said(planned, s), number, holds(t, number, &other))
}

// The right length, but for one of eight.
pub fn made(number: usize) -> usize {
    let s = shape(number);
    let length = drawn_length(draw(seed(number), 16));
    let n = clip(length_of(symbols(s) % TABLE_AND_ONE, length), TABLE_AND_ONE);
    let mut t = [UNTOUCHED; TABLE_AND_ONE];
    judged(s, generator_of(s.q, number / SHAPES), &mut t[..n])
}
