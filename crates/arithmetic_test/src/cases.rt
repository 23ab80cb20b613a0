// The inputs: all small ones, drawn ones about the largest moduli, many moduli, and every refusal.
use crate::notable::{NEAR, near_notable};
use crate::numbers::{LARGEST, OF_16_BITS, low32, sixteenth, step};
use arithmetic::Symbol;
use std::num::wrapping_sub_u32;

// What the functions are given: a modulus, three numbers that may be symbols, an exponent, and what a slice is drawn from.
#[derive(Clone, Copy, Debug, PartialEq, Eq)]
pub struct Case {
    pub q: Symbol,
    pub a: Symbol,
    pub b: Symbol,
    pub m: Symbol,
    pub exponent: u32,
    pub seed: u64,
}

#[derive(Clone, Copy, Debug, PartialEq, Eq)]
pub enum Group {
    BelowSixty,
    Drawn,
    Moduli,
    EveryRefusal,
}

// Small moduli are below 60, and small numbers below 61; of a third number every fifth is taken.
const SMALL_MODULI: u64 = 60;

const SMALL_NUMBERS: u64 = 61;

const FIFTH: u64 = 5;

const FIFTHS: u64 = 13;

// How many small inputs there are of one number beside q, of two and of three.
pub const SINGLES: u64 = SMALL_MODULI * SMALL_NUMBERS;

pub const PAIRS: u64 = SINGLES * SMALL_NUMBERS;

pub const TRIPLES: u64 = PAIRS * FIFTHS;

// Below what a short exponent is.
const SHORT: u64 = 1000;

// How many inputs of each operation are drawn.
pub const DRAWN: u64 = 6400;

// How many moduli the tests are given: each of 16 bits, those near the notable ones, and as many drawn ones.
pub const MODULI: u64 = OF_16_BITS + 2 * NEAR;

// How many refusals there are, and how many inputs: a thousand of each.
const REFUSALS: u64 = 23;

pub const CODES: u64 = 23000;

// Every q below 60 with every a to 60, then with every b to 60 too, then with every fifth m. So q and q + 1 are always among the numbers.
fn small_case(k: u64, seed: u64) -> Case {
    Case {
        q: low32(k % SMALL_MODULI),
        a: low32(k / SMALL_MODULI % SMALL_NUMBERS),
        b: low32(k / SINGLES % SMALL_NUMBERS),
        m: low32(k / PAIRS * FIFTH % SMALL_NUMBERS),
        exponent: low32(k / SINGLES % SMALL_NUMBERS),
        seed,
    }
}

// The largest primes of 32 and of 16 bits most often, and those next to 2^31 and 2^16; non-primes near them, three squares of odd numbers among them; and the
// smallest moduli.
static LISTED: [Symbol; 32] = [
    4294967291, 4294967291, 4294967291, 4294967291, 4294967279, 4294967279, 4294967279, 4294967231,
    4294967231, 2147483659, 2147483647, 65537, 65537, 65521, 65521, 65521, 65519, 65519,
    4294967295, 4294967294, 4294967293, 4294836225, 4292870399, 65536, 65535, 65533, 65025, 63001,
    257, 2, 1, 0,
];

fn modulus(k: u64) -> Symbol {
    LISTED[(k % 32) as usize]
}

pub fn below(q: Symbol, n: Symbol) -> Symbol {
    if q == 0 { n } else { n % q }
}

// Often a number at an edge, sometimes any number of 32 bits, else a number below q.
fn symbol(q: Symbol, x: u64) -> Symbol {
    match sixteenth(x) {
        0 => 0,
        1 => 1,
        2 => wrapping_sub_u32(q, 1),
        3 => q,
        4 => 65535,
        5 => 65536,
        6 => LARGEST,
        7 | 8 => low32(step(x)),
        _ => below(q, low32(step(x))),
    }
}

fn exponent(x: u64) -> u32 {
    match sixteenth(x) {
        0 => 0,
        1 => 1,
        2 | 3 => LARGEST,
        4 | 5 | 6 | 7 => low32(step(x) % SHORT),
        _ => low32(step(x)),
    }
}

// Past the numbers that a symbol draws.
fn two_steps(x: u64) -> u64 {
    step(step(x))
}

fn drawn_case(q: Symbol, seed: u64) -> Case {
    let x = step(seed);
    let y = two_steps(x);
    let z = two_steps(y);
    Case {
        q,
        a: symbol(q, x),
        b: symbol(q, y),
        m: symbol(q, z),
        exponent: exponent(two_steps(z)),
        seed,
    }
}

// Past the numbers that a case draws.
pub fn next_seed(x: u64) -> u64 {
    two_steps(two_steps(two_steps(two_steps(step(x)))))
}

// Every number of 16 bits, those near the notable ones, and drawn ones of 32 bits. The first states of near numbers are near each other, hence the steps.
fn every_modulus(k: u64) -> Symbol {
    if k < OF_16_BITS {
        low32(k)
    } else if k < OF_16_BITS + NEAR {
        near_notable(k - OF_16_BITS)
    } else {
        low32(two_steps(step(k)))
    }
}

// The numbers of all refusals in turn: 1 to 23.
fn catalogued(k: u64) -> Symbol {
    low32(k % REFUSALS + 1)
}

// For the catalogue q is the number of a refusal, and a and b are its details.
pub fn case_of(group: Group, k: u64, seed: u64) -> Case {
    match group {
        Group::BelowSixty => small_case(k, seed),
        Group::Drawn => drawn_case(modulus(k), seed),
        Group::Moduli => drawn_case(every_modulus(k), seed),
        Group::EveryRefusal => drawn_case(catalogued(k), seed),
    }
}
