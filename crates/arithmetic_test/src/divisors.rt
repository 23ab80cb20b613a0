// The second test of primes: a table with the number of divisors of each number of 16 bits, and trial division above. A prime has two divisors.
ghost use Rattle.std.specs.Prelude.{◌<◌, ◌≤◌};

use crate::numbers::OF_16_BITS;
use arithmetic::Symbol;
use std::num::wrapping_add_u8;

const LENGTH: usize = 65536;

const OF_A_PRIME: u8 = 2;

pub type Divisors = [u8; LENGTH];

// d divides each of its multiples. No number of 16 bits has 256 divisors, so that no count wraps.
fn count_multiples(divisors: &mut Divisors, d: usize)
    requires { (0 < d) × (d < 65536) }
{
    for multiple in (d..LENGTH).step_by(d) {
        divisors[multiple] = wrapping_add_u8(divisors[multiple], 1);
    }
}

// Of a table of zeros. The count of 0 stays 0.
pub fn count_all(divisors: &mut Divisors) {
    for d in 1..LENGTH {
        count_multiples(divisors, d);
    }
}

// The least divisor above 1 of a number of 32 bits: where none of 16 bits divides n it is n, since a product of two longer ones has more than 32 bits.
fn least_divisor(n: u64) -> u64
    requires { 2 ≤ n }
    ensures { 2 ≤ result }
{
    if n % 2 == 0 {
        return 2;
    }
    for d in (3..OF_16_BITS).step_by(2) {
        if n % d == 0 {
            return d;
        }
    }
    n
}

// By the table where it reaches; else the least divisor above 1 is the only other one.
pub fn has_two(divisors: &Divisors, q: Symbol) -> bool {
    let place = q as usize;
    if place < LENGTH {
        divisors[place] == OF_A_PRIME
    } else {
        least_divisor(q as u64) == q as u64
    }
}

// How many numbers up to n have no divisor in common with it: for each prime p that divides n, every p-th of those that are left is taken away, once, when p
// goes into n for the last time.
pub fn coprime(n: u64) -> u64 {
    let mut count = n;
    let mut left = n;
    // a while: each step divides what is left
    while 1 < left {
        let p = least_divisor(left);
        left = left / p;
        if left % p != 0 {
            count -= count / p;
        }
    }
    count
}
