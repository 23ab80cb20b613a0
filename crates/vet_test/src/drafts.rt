// Plans drawn from a seed, and their records.
use crate::numbers::{OLD, WIDE, after, before, from_one, put_number, put_word};
use testing::{PRIMES, draw, prime, product, put_byte, quotient, residue, state};

#[derive(Clone, Copy, Debug, PartialEq, Eq)]
pub struct Draft {
    pub clusters: usize,
    pub size: usize,
    pub limit: usize,
    pub rate: usize,
    pub q: usize,
    seed: usize,
}

// Of the primes that testing knows, those of 16 bits; the rest are wide.
const NARROW_PRIMES: usize = 7;

// One of the first few primes, or, as often, a wide one.
fn modulus(seed: usize, few: usize) -> usize {
    if draw(state(seed, 8), 2) == 0 {
        prime(draw(state(seed, 6), few))
    } else {
        prime(NARROW_PRIMES + draw(state(seed, 6), PRIMES - NARROW_PRIMES) % PRIMES)
    }
}

fn least(a: usize, b: usize) -> usize {
    if a < b { a } else { b }
}

// At most 3 clusters of at most 3 users. The limit is most often far below the number of users, as else nearly all would leak.
fn tiny(seed: usize) -> Draft {
    let clusters = from_one(state(seed, 1), 3);
    let size = from_one(state(seed, 2), 3);
    let most = from_one(state(seed, 3), after(product(clusters, size), 1));
    Draft {
        clusters,
        size,
        limit: draw(state(seed, 4), most),
        rate: from_one(state(seed, 5), 8),
        q: modulus(seed, 4),
        seed,
    }
}

// Most often a low one, which keeps the walk short; any in one plan of 4, so that some first leaks are at coalitions with large numbers.
fn large_limit(seed: usize, users: usize) -> usize {
    if draw(state(seed, 7), 4) == 0 {
        draw(state(seed, 3), after(users, 1))
    } else {
        least(draw(state(seed, 3), 4), users)
    }
}

// Any counts within the bounds.
fn large(seed: usize) -> Draft {
    let clusters = from_one(state(seed, 1), 8);
    let size = from_one(state(seed, 2), least(8, quotient(16, clusters)));
    Draft {
        clusters,
        size,
        limit: large_limit(seed, product(clusters, size)),
        rate: from_one(state(seed, 5), 16),
        q: modulus(seed, NARROW_PRIMES),
        seed,
    }
}

pub fn drawn(seed: usize) -> Draft {
    if draw(state(seed, 0), 32) == 0 {
        large(seed)
    } else {
        tiny(seed)
    }
}

fn users(d: Draft) -> usize {
    product(d.clusters, d.size)
}

pub fn symbols(d: Draft) -> usize {
    product(users(d), d.rate)
}

pub fn width(d: Draft) -> usize {
    if d.q < 65536 { OLD } else { WIDE }
}

// Where the first symbol stands.
pub fn head(d: Draft) -> usize {
    after(4, width(d))
}

pub fn record_size(d: Draft) -> usize {
    after(product(symbols(d), width(d)), after(4, head(d)))
}

// Symbol n of all rows but the last.
fn free_symbol(d: Draft, n: usize) -> usize {
    residue(state(d.seed, 16 + n % 256), d.q)
}

// The sum of a column's symbols but the last row's.
fn sum_above(d: Draft, column: usize) -> usize {
    let last = before(users(d), 1);
    let mut sum: usize = 0;
    for j in 0..last {
        let n = after(product(j, d.rate), column);
        sum = residue(after(sum, free_symbol(d, n)), d.q);
    }
    sum
}

// The last row is minus the sum of the others.
pub fn symbol(d: Draft, n: usize) -> usize {
    if quotient(n, d.rate) == before(users(d), 1) {
        residue(before(d.q, sum_above(d, residue(n, d.rate))), d.q)
    } else {
        free_symbol(d, n)
    }
}

fn write_head(d: Draft, bytes: &mut [u8], first: usize) {
    put_byte(bytes, first, d.clusters);
    put_byte(bytes, after(first, 1), d.size);
    put_byte(bytes, after(first, 2), d.limit);
    put_byte(bytes, after(first, 3), d.rate);
    put_number(bytes, after(first, 4), width(d), d.q);
}

fn write_symbols(d: Draft, bytes: &mut [u8], from: usize) {
    let count = symbols(d);
    let mut i = from;
    for n in 0..count {
        put_number(bytes, i, width(d), symbol(d, n));
        i = after(i, width(d));
    }
}

// The plan's record, which ends before byte `last`.
pub fn write(d: Draft, bytes: &mut [u8], last: usize) {
    let first = before(last, record_size(d));
    write_head(d, bytes, first);
    write_symbols(d, bytes, after(first, head(d)));
    put_word(bytes, before(last, 4), record_size(d));
    put_byte(bytes, before(last, 2), 75);
    put_byte(
        bytes,
        before(last, 1),
        if width(d) == OLD { 80 } else { 81 },
    );
}
