// Counts and moduli, right ones drawn, and wrong ones.
use arithmetic::Symbol;
use plans::Plan;
use primes::is_prime;
use testing::{
    PRIMES, clip, draw, is_outside, narrow, over, prime, product, put, quotient, seed, step,
};

// The least q of a wide record.
pub const LEAST_WIDE: usize = 65536;

// The bytes of a record that has no symbols: of an old one, and of a wide one.
pub const LEAST_OLD_SIZE: usize = 10;

pub const LEAST_WIDE_SIZE: usize = 12;

// The symbols of the largest table, and places for one more, so that a table can be too long.
pub const TABLE: usize = 256;

pub const TABLE_AND_ONE: usize = 257;

// The counts of a plan and its q, all as numbers of one type. Its record is wide by its q, but where a test writes or reads it otherwise.
#[derive(Clone, Copy, Debug, PartialEq, Eq)]
pub struct Shape {
    pub clusters: usize,
    pub size: usize,
    pub limit: usize,
    pub rate: usize,
    pub q: usize,
    pub wide: bool,
}

pub fn users(s: Shape) -> usize {
    product(s.clusters, s.size)
}

pub fn symbols(s: Shape) -> usize {
    product(users(s), s.rate) % 65536
}

pub fn record_size(s: Shape) -> usize {
    let n = symbols(s) % 65536;
    over(s.wide, n * 4 + LEAST_WIDE_SIZE, n * 2 + LEAST_OLD_SIZE)
}

// Bounds: U and V from 1 to 8, U V at most 16, T from 0 to U V.
pub fn counts_number(s: Shape, otherwise: usize) -> usize {
    let limit = over(s.limit > users(s), 1, otherwise);
    let size = over(is_outside(s.size, 8), 1, over(users(s) > 16, 1, limit));
    over(is_outside(s.clusters, 8), 1, size)
}

// R from 1 to 16 too.
pub fn bounds_number(s: Shape, otherwise: usize) -> usize {
    over(is_outside(s.rate, 16), 1, counts_number(s, otherwise))
}

pub fn prime_number(s: Shape, otherwise: usize) -> usize {
    over(is_prime(narrow(s.q)), otherwise, 2)
}

pub fn plan_of(s: Shape) -> Plan {
    Plan {
        clusters: s.clusters,
        size: s.size,
        limit: s.limit,
        rate: s.rate,
        q: narrow(s.q),
    }
}

// Within all bounds, with a prime q.
pub fn drawn_shape(number: usize) -> Shape {
    let x = seed(seed(number));
    let y = step(x);
    let z = step(y);
    let clusters = draw(x, 8) % 8 + 1;
    let most = quotient(16, clusters);
    let size = draw(y, over(most > 8, 8, most)) % 8 + 1;
    let q = prime(draw(seed(z), PRIMES));
    Shape {
        clusters,
        size,
        limit: draw(z, product(clusters, size) + 1),
        rate: draw(step(z), 16) % 16 + 1,
        q,
        wide: q >= LEAST_WIDE,
    }
}

// U, V, T and R, two digits each. 99 stands for numbers that are far too large: the product of 2^32 and 2^32 would wrap to 0.
pub fn shape_of(digits: usize, q: usize) -> Shape {
    let clusters = digits / 1000000 % 100;
    let size = digits / 10000 % 100;
    let limit = digits / 100 % 100;
    Shape {
        clusters: over(clusters == 99, 4294967296, clusters),
        size: over(size == 99, 4294967296, size),
        limit: over(limit == 99, 18446744073709551615, limit),
        rate: digits % 100,
        q,
        wide: q >= LEAST_WIDE,
    }
}

// The first 4 are right.
static COUNTS: [usize; 16] = [
    2020103, 8021616, 1010001, 2080316, 20003, 9010003, 2000003, 1090003, 3060003, 8080001,
    2020503, 2020100, 2020117, 99990001, 17010001, 2029903,
];

fn counts(n: usize) -> usize {
    COUNTS[clip(n, 15)]
}

// The first 8 are primes, 4 of each width. Of the others one is the square of the largest prime of 16 bits.
static MODULUS: [usize; 16] = [
    2, 5, 257, 65521, 65537, 2147483647, 4294967279, 4294967291, 0, 1, 9, 65535, 65536, 4293001441,
    4294967293, 4294967295,
];

fn modulus(n: usize) -> usize {
    MODULUS[clip(n, 15)]
}

// 16 counts with 16 moduli.
pub const WRONG_SHAPES: usize = 256;

pub fn wrong_shape(number: usize) -> Shape {
    shape_of(counts(number % 16), modulus(number / 16 % 16))
}

// What a symbol becomes: q, the largest number, or one at the edge of 16 bits, which is right for a larger q.
#[derive(Clone, Copy, Debug, PartialEq, Eq)]
pub enum Damage {
    Modulus,
    Largest,
    LargestOld,
    LeastWide,
}

// How many numbers `drawn_damage` tells apart, of which the last spoils nothing.
pub const SPOILS: usize = 5;

pub fn drawn_damage(number: usize) -> Option<Damage> {
    match number {
        0 => Some(Damage::Modulus),
        1 => Some(Damage::Largest),
        2 => Some(Damage::LargestOld),
        3 => Some(Damage::LeastWide),
        _ => None,
    }
}

// One symbol becomes what is drawn, or it stays.
pub fn spoil(t: &mut [Symbol], place: usize, q: usize, damage: Option<Damage>) {
    match damage {
        Some(Damage::Modulus) => put(t, place, q),
        Some(Damage::Largest) => put(t, place, 4294967295),
        Some(Damage::LargestOld) => put(t, place, LEAST_WIDE - 1),
        Some(Damage::LeastWide) => put(t, place, LEAST_WIDE),
        None => {}
    }
}
