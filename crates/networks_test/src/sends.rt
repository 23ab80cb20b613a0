// Uploads and relay sums of networks of every size, every user with every relay, and some that are not there.
use crate::drawn::{FEW, WEIGHTS, coefficients, few, length, pick, spoiled, weights, whole};
use crate::expected::{answered, both_below, refused};
use crate::network::{combined, link_to};
use arithmetic::Symbol;
use networks::Ring;
use std::num::wrapping_sub_usize;
use testing::{clip, count_large, is_outside, narrow, over, residue, seed, state, wide};

// 8 where they are not both there, or not linked.
fn unlinked(ring: Ring, user: usize, relay: usize, l: usize) -> usize {
    let there = over(l < ring.links, 0, 8);
    let known = over(is_outside(user, ring.size), 8, there);
    over(is_outside(relay, ring.size), 8, known)
}

// An upload held to the combination.
fn upload_held(
    ring: Ring,
    weights: &[Symbol],
    reading: &[Symbol],
    key: usize,
    user: usize,
    relay: usize,
) -> usize {
    let q = wide(ring.q);
    let k = wrapping_sub_usize(user, 1);
    let l = link_to(ring, k, wrapping_sub_usize(relay, 1));
    let lengths = weights.len() == coefficients(ring) && reading.len() == ring.parts;
    let below = both_below(q, weights, reading) && key < q;
    let number = refused(ring, lengths, below, unlinked(ring, user, relay, l));
    let value = combined(ring, weights, reading, 0, k, l, key);
    answered(
        networks::upload(ring, weights, user, relay, reading, narrow(key)),
        number,
        value,
    )
}

fn sum_held(ring: Ring, uploads: &[Symbol]) -> usize {
    let q = wide(ring.q);
    let n = uploads.len();
    let number = refused(ring, n == ring.links, count_large(uploads, q) == 0, 0);
    let value = residue(testing::column_sum(uploads, n, 1, 0), q);
    answered(networks::relay_sum(ring, uploads), number, value)
}

pub fn uploaded(case: usize) -> usize {
    let x = seed(case);
    let first = whole(x);
    let ring = spoiled(first, x, true);
    let a = weights(first, ring, x, true);
    let w = few(first, ring, x, ring.parts, true);
    let m = clip(length(coefficients(ring), x, 16), WEIGHTS);
    let n = clip(length(ring.parts, x, 18), FEW);
    let q = wide(ring.q);
    let key = over(pick(x, 22, 16) == 0, q, residue(state(x, 23), q));
    upload_held(
        ring,
        &a[..m],
        &w[..n],
        key,
        pick(x, 24, 10),
        pick(x, 25, 10),
    )
}

pub fn summed(case: usize) -> usize {
    let x = seed(case);
    let first = whole(x);
    let ring = spoiled(first, x, true);
    let u = few(first, ring, x, ring.links, true);
    let n = clip(length(ring.links, x, 17), FEW);
    sum_held(ring, &u[..n])
}
