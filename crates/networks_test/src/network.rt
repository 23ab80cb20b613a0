// The network by the papers' words: a user's relays are found by going down from its own, one after the other, and from 1 to K. Counted from 0.
use crate::expected::TOTALS;
use arithmetic::Symbol;
use networks::Ring;
use std::num::{wrapping_add_usize, wrapping_sub_usize};
use testing::{at, clip, mul_add, narrow, product, product_mod, residue, wide};

// The link of user k that leads to relay j; as many as there are links where none does.
pub fn link_to(ring: Ring, k: usize, j: usize) -> usize {
    let links = ring.links;
    let mut relay = k;
    for l in 0..links {
        if relay == j {
            return l;
        }
        if relay == 0 {
            relay = ring.size;
        }
        relay = wrapping_sub_usize(relay, 1);
    }
    links
}

pub fn plus(q: usize, a: usize, b: usize) -> usize {
    residue(wrapping_add_usize(a, b), q)
}

// Place i of the coefficients of link l of user k.
pub fn place(ring: Ring, k: usize, l: usize, i: usize) -> usize {
    mul_add(
        i,
        mul_add(l, k, ring.links),
        wrapping_add_usize(ring.parts, 1),
    )
}

pub fn key_of(ring: Ring, table: &[Symbol], source: &[Symbol], k: usize) -> usize {
    let rate = ring.rate;
    let q = wide(ring.q);
    let mut sum: usize = 0;
    for r in 0..rate {
        sum = plus(
            q,
            sum,
            product_mod(q, at(table, mul_add(r, k, rate)), at(source, r)),
        );
    }
    sum
}

// What user k sends on link l; its reading begins at `first`.
pub fn combined(
    ring: Ring,
    weights: &[Symbol],
    readings: &[Symbol],
    first: usize,
    k: usize,
    l: usize,
    key: usize,
) -> usize {
    let parts = clip(ring.parts, Ring::MAX_PARTS);
    let q = wide(ring.q);
    let mut sum = product_mod(q, at(weights, place(ring, k, l, parts)), key);
    for i in 0..parts {
        let w = at(weights, place(ring, k, l, i));
        sum = plus(
            q,
            sum,
            product_mod(q, w, at(readings, wrapping_add_usize(first, i))),
        );
    }
    residue(sum, q)
}

// The sum of relay j, from each user that speaks to it. As a view, what they send one after the other: a digit to the base q each.
pub fn heard(
    ring: Ring,
    table: &[Symbol],
    weights: &[Symbol],
    readings: &[Symbol],
    source: &[Symbol],
    j: usize,
    as_view: bool,
) -> usize {
    let size = ring.size;
    let q = wide(ring.q);
    let mut sum: usize = 0;
    let mut view: usize = 0;
    for k in 0..size {
        let l = link_to(ring, k, j);
        if l < ring.links {
            let first = product(k, ring.parts);
            let key = key_of(ring, table, source, k);
            let sent = combined(ring, weights, readings, first, k, l, key);
            sum = plus(q, sum, sent);
            view = mul_add(sent, view, q);
        }
    }
    if as_view { view } else { sum }
}

pub fn total_of(ring: Ring, readings: &[Symbol], s: usize) -> usize {
    let size = ring.size;
    let mut sum: usize = 0;
    for k in 0..size {
        sum = plus(wide(ring.q), sum, at(readings, mul_add(s, k, ring.parts)));
    }
    sum
}

// All totals; past the last there is something that nobody looks at.
pub fn totals_of(ring: Ring, readings: &[Symbol]) -> [Symbol; TOTALS] {
    let mut t = [0 as Symbol; TOTALS];
    for s in 0..TOTALS {
        t[s] = narrow(total_of(ring, readings, s));
    }
    t
}
