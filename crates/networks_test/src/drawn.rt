// Networks made of a number: tiny ones that all readings and source keys of can be gone through, ones of every size, and wrong ones.
use arithmetic::Symbol;
use networks::Ring;
use std::num::{wrapping_add_usize, wrapping_sub_usize};
use testing::{draw, mul_add, narrow, over, prime, product, quotient, residue, state, wide};

// One symbol more than any network has, so that a length can be wrong.
pub const TABLE: usize = 129;

pub const WEIGHTS: usize = 321;

// One more than there are uploads or sums.
pub const FEW: usize = 9;

// The largest number.
const MOST: usize = 18446744073709551615;

// Number k of those that the state x holds, below n.
pub fn pick(x: usize, k: usize, n: usize) -> usize {
    draw(state(x, k), n)
}

// From 1 to n.
fn up_to(x: usize, k: usize, n: usize) -> usize {
    pick(x, k, n) % 65536 + 1
}

// Two users with readings of one or two symbols, or three with readings of one; modulo 2 or 3.
pub fn tiny(x: usize) -> Ring {
    let size = wrapping_add_usize(up_to(x, 1, 2), 1);
    let q = wrapping_add_usize(up_to(x, 2, 2), 1);
    Ring {
        size,
        links: up_to(x, 3, size),
        parts: over(size == 2, up_to(x, 4, 2), 1),
        rate: up_to(x, 5, over(q == 2, 3, 2)),
        q: narrow(q),
    }
}

// Of every size, modulo primes of 32 bits too. Of two in three each user speaks to every relay.
pub fn whole(x: usize) -> Ring {
    let size = wrapping_add_usize(up_to(x, 1, 7), 1);
    Ring {
        size,
        links: over(pick(x, 2, 3) == 0, up_to(x, 3, size), size),
        parts: up_to(x, 4, 4),
        rate: up_to(x, 5, 16),
        q: narrow(prime(pick(x, 6, 11))),
    }
}

// One count that is wrong, or a q that is no prime; often neither, and never without faults.
pub fn spoiled(mut ring: Ring, x: usize, faulty: bool) -> Ring {
    match over(faulty, pick(x, 7, 24), 24) {
        0 => ring.size = 1,
        1 => ring.size = 9,
        2 => ring.size = MOST,
        3 => ring.rate = 0,
        4 => ring.rate = 17,
        5 => ring.links = 0,
        6 => ring.links = wrapping_add_usize(ring.size, 1),
        7 => ring.parts = 0,
        8 => ring.parts = 5,
        9 => ring.parts = MOST,
        10 => ring.q = 0,
        11 => ring.q = 1,
        12 => ring.q = 4,
        13 => ring.q = 9,
        _ => {}
    }
    ring
}

// A length that is one too long or too short; often it is right.
pub fn length(n: usize, x: usize, k: usize) -> usize {
    match pick(x, k, 24) {
        0 => wrapping_add_usize(n, 1),
        1 => wrapping_sub_usize(n, 1),
        _ => n,
    }
}

pub fn rows(ring: Ring) -> usize {
    product(ring.size, ring.rate)
}

pub fn coefficients(ring: Ring) -> usize {
    product(
        product(ring.size, ring.links),
        wrapping_add_usize(ring.parts, 1),
    )
}

// Whether the rows sum to 0, and, where each user speaks to every relay, what it sends to one is the same combination for every user: then totals can be had of
// some relays.
fn is_closed(x: usize) -> bool {
    pick(x, 10, 2) == 0
}

fn symbol(ring: Ring, x: usize, i: usize) -> usize {
    residue(state(x, i), wide(ring.q))
}

// Minus the sum of column r in the rows before the last.
fn closing(ring: Ring, x: usize, r: usize) -> usize {
    let last = wrapping_sub_usize(ring.size, 1);
    let q = wide(ring.q);
    let mut sum: usize = 0;
    for k in 0..last {
        sum = residue(
            wrapping_add_usize(sum, symbol(ring, x, mul_add(r, k, ring.rate))),
            q,
        );
    }
    residue(wrapping_sub_usize(q, sum), q)
}

fn in_table(ring: Ring, x: usize, i: usize) -> usize {
    let y = state(x, 8);
    let last = wrapping_sub_usize(ring.size, 1);
    if is_closed(x) && quotient(i, ring.rate) == last {
        closing(ring, y, residue(i, ring.rate))
    } else {
        symbol(ring, y, i)
    }
}

// Coefficient i: that of user k for link l, or, of a closed network, that of the relay there.
fn in_weights(ring: Ring, x: usize, i: usize) -> usize {
    let y = state(x, 9);
    let each = wrapping_add_usize(ring.parts, 1);
    let link = quotient(i, each);
    let k = quotient(link, ring.links);
    let l = residue(link, ring.links);
    let relay = residue(
        wrapping_sub_usize(wrapping_add_usize(k, ring.size), l),
        ring.size,
    );
    let alike = is_closed(x) && ring.links == ring.size;
    symbol(
        ring,
        y,
        over(alike, mul_add(residue(i, each), relay, each), i),
    )
}

// Of a faulty network sometimes one number is no symbol: its place; else one where nothing is.
fn fault(x: usize, k: usize, n: usize, faulty: bool) -> usize {
    let place = over(
        pick(x, k, 16) == 0,
        pick(x, wrapping_add_usize(k, 1), n),
        MOST,
    );
    over(faulty, place, MOST)
}

// A network is drawn by its ring as it was before any fault, and a number that is too large by the ring that is tried.
pub fn table(first: Ring, ring: Ring, x: usize, faulty: bool) -> [Symbol; TABLE] {
    let place = fault(x, 11, rows(ring), faulty);
    let mut t = [0 as Symbol; TABLE];
    for i in 0..TABLE {
        t[i] = narrow(over(i == place, wide(ring.q), in_table(first, x, i)));
    }
    t
}

pub fn weights(first: Ring, ring: Ring, x: usize, faulty: bool) -> [Symbol; WEIGHTS] {
    let place = fault(x, 13, coefficients(ring), faulty);
    let mut t = [0 as Symbol; WEIGHTS];
    for i in 0..WEIGHTS {
        t[i] = narrow(over(i == place, wide(ring.q), in_weights(first, x, i)));
    }
    t
}

// Few symbols below q, the first n of them perhaps with one that is too large.
pub fn few(first: Ring, ring: Ring, x: usize, n: usize, faulty: bool) -> [Symbol; FEW] {
    let place = fault(x, 20, n, faulty);
    let mut t = [0 as Symbol; FEW];
    for i in 0..FEW {
        t[i] = narrow(over(
            i == place,
            wide(ring.q),
            symbol(first, x, wrapping_add_usize(i, 60)),
        ));
    }
    t
}
