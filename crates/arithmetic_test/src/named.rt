// Single cases, with their results written out.
use crate::catalogue::{pack, packed};
use crate::compare::is_prime;
use crate::operations::outcome;
use crate::tally::{Tally, counted, none};
use arithmetic::{Symbol, difference, inverse, power, product, sum};
use refusals::{Refusal, code_of_result, refuse_unless};

// What pack makes of 2 and of 3.
const NOT_PRIME: u64 = 12884901888;

const NOT_A_SYMBOL: u64 = 17179869184;

// The largest prime of 32 bits, and its last symbol.
const PRIME: Symbol = 4294967291;

const LAST: Symbol = 4294967290;

fn holds(tally: Tally, answer: Result<Symbol, Refusal>, expected: u64) -> Tally {
    counted(tally, outcome(answer) == expected)
}

// 65,521 is the largest prime of 16 bits; 65,535, 1 and 0 are none. A modulus that is no prime is refused before a number that is no symbol.
pub fn moduli() -> Tally {
    let mut t = holds(none(), sum(65521, 65520, 1), 0);
    t = holds(t, sum(65535, 0, 0), NOT_PRIME);
    t = holds(t, sum(1, 0, 0), NOT_PRIME);
    t = holds(t, sum(0, 0, 0), NOT_PRIME);
    t = holds(t, sum(9, 9, 9), NOT_PRIME);
    t = holds(t, sum(5, 5, 0), NOT_A_SYMBOL);
    holds(t, sum(5, 0, 5), NOT_A_SYMBOL)
}

// The power 0 of 0 is 1, and 0 has no inverse.
pub fn powers(tally: Tally) -> Tally {
    let mut t = holds(tally, power(5, 0, 0), 1);
    t = holds(t, power(2, 0, 4294967295), 0);
    t = holds(t, power(65521, 65520, 4294967295), 65520);
    t = holds(t, inverse(5, 3), 2);
    t = holds(t, inverse(5, 0), NOT_A_SYMBOL);
    holds(t, inverse(9, 0), NOT_PRIME)
}

pub fn acceptance(tally: Tally) -> Tally {
    counted(
        tally,
        packed(code_of_result(&refuse_unless(true, Refusal::NotPrime))) == pack(0, 0, 0),
    )
}

// 4,294,967,291 is the largest prime of 32 bits (document 02, Q-7); 4,294,967,295 and 4,294,967,293 are none.
pub fn wide_moduli(tally: Tally) -> Tally {
    let mut t = counted(tally, is_prime(PRIME));
    t = counted(t, !is_prime(4294967295));
    t = counted(t, !is_prime(4294967293));
    t = holds(t, sum(4294967295, 0, 0), NOT_PRIME);
    t = holds(t, sum(PRIME, PRIME, 0), NOT_A_SYMBOL);
    holds(t, sum(PRIME, 0, PRIME), NOT_A_SYMBOL)
}

// Modulo this prime the last symbol is minus 1, and 2^32 is 5.
pub fn wide_symbols(tally: Tally) -> Tally {
    let mut t = holds(tally, sum(PRIME, LAST, 1), 0);
    t = holds(t, sum(PRIME, LAST, LAST), 4294967289);
    t = holds(t, difference(PRIME, 0, 1), 4294967290);
    t = holds(t, product(PRIME, LAST, LAST), 1);
    t = holds(t, product(PRIME, LAST, 2), 4294967289);
    t = holds(t, product(PRIME, 65536, 65536), 5);
    t = holds(t, power(PRIME, 2, 32), 5);
    t = holds(t, power(PRIME, LAST, 4294967295), 4294967290);
    t = holds(t, inverse(PRIME, LAST), 4294967290);
    holds(t, inverse(PRIME, 2), 2147483646)
}
