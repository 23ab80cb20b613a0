// What every entry asks first, and what a comparison says.
use crate::drawn::{coefficients, length, rows};
use arithmetic::Symbol;
use networks::Ring;
use refusals::{Code, Refusal};
use testing::{count_large, is_outside, is_prime, over, wide};

// What a comparison says where the two differ; otherwise it says the number that was answered.
pub const DIFFER: usize = 24;

// How many places are lent for totals: one more than there can be.
pub const TOTALS: usize = 5;

// What is wrong in a kind of cases: nothing, or some by chance in what the library gets; or, by a mistake, what is expected of it.
#[derive(Clone, Copy, Debug, PartialEq, Eq)]
pub enum Kind {
    Sound,
    Faulty,
    Mistaken,
}

// How long the parts are that are lent.
#[derive(Clone, Copy, Debug, PartialEq, Eq)]
pub struct Lengths {
    pub table: usize,
    pub weights: usize,
    pub sums: usize,
    pub out: usize,
}

// Of a faulty call some length may be wrong.
pub fn lengths_of(ring: Ring, x: usize, faulty: bool) -> Lengths {
    if faulty {
        Lengths {
            table: length(rows(ring), x, 15),
            weights: length(coefficients(ring), x, 16),
            sums: length(ring.size, x, 17),
            out: length(ring.parts, x, 18),
        }
    } else {
        Lengths {
            table: rows(ring),
            weights: coefficients(ring),
            sums: ring.size,
            out: ring.parts,
        }
    }
}

// Whether the parts of these lengths, which are no longer than there is room, are right.
pub fn network_fits(ring: Ring, table: usize, weights: usize) -> bool {
    table == rows(ring) && weights == coefficients(ring)
}

pub fn rest_fits(ring: Ring, sums: usize, out: usize) -> bool {
    sums == ring.size && out == ring.parts
}

pub fn both_below(q: usize, a: &[Symbol], b: &[Symbol]) -> bool {
    count_large(a, q) == 0 && count_large(b, q) == 0
}

// What every entry is refused first, told from the last fault to the first.
pub fn refused(ring: Ring, lengths: bool, below: bool, otherwise: usize) -> usize {
    let symbols = over(below, otherwise, 3);
    let prime = over(is_prime(wide(ring.q)), symbols, 2);
    let long = over(lengths, prime, 4);
    let links = over(is_outside(ring.links, ring.size), 22, long);
    let parts = over(is_outside(ring.parts, 4), 22, links);
    let rate = over(is_outside(ring.rate, 16), 1, parts);
    let low = over(ring.size < 2, 1, rate);
    over(ring.size > 8, 1, low)
}

pub fn compared(answer: usize, expected: usize, same: bool) -> usize {
    over(same, over(answer == expected, answer, DIFFER), DIFFER)
}

// A number that no answer has where a detail is not 0.
pub fn plain(code: Code) -> usize {
    over(
        (code.first | code.second) == 0,
        code.number as usize,
        DIFFER,
    )
}

pub fn number_of(verdict: Result<(), Refusal>) -> usize {
    plain(refusals::code_of_result(&verdict))
}

// An answer held to a number, and where that is 0 to a value.
pub fn answered(answer: Result<Symbol, Refusal>, number: usize, value: usize) -> usize {
    match answer {
        Ok(found) => compared(0, number, wide(found) == value),
        Err(refusal) => compared(plain(refusal.code()), number, true),
    }
}
