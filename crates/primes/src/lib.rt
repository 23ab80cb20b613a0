// Whether a number of 32 bits is prime: a small one by a bit, others by divisors while they are cheap, then by one power of 2, and last by a list. Of the
// numbers with no divisor below 1,627 whose power says that they may be primes, the list has those that are none (the crate pseudoprimes).
#![tactic(auto)]

ghost use Rattle.std.specs.Prelude.{◌≡◌, ◌-◌, ◌*◌, ◌%◌, ◌^◌, ◌≤◌, ◌<◌};
ghost use Rattle.residues.specs.Primes.{is_prime};

mod divisors;
mod listed;

use listed::large_prime;

// Below this, a bit tells. Not much less would do: the first table of divisors goes up to 251, and each prime divides itself.
const SMALL: u32 = 256;

// The primes below 256, each a bit of a word, the lowest for the least number. The words stand in the code: a table would be written to the stack at each call.
const WORD_BITS: u32 = 64;

const FROM_0: u64 = 0x28208a20a08a28ac;

const FROM_64: u64 = 0x800228a202088288;

const FROM_128: u64 = 0x8028208820a00a08;

const FROM_192: u64 = 0x08028228800800a2;

// The highest 5 of 32 bits are an exponent below 32, whose power is a shift; the 27 after them are taken one by one.
const LATER_BITS: u32 = 27;

// The square of x, doubled where bit is 1, modulo n.
fn squared(n: u64, x: u64, bit: u32) -> u64
    requires { (x < n) × (n < 2 ^ 32) × (bit < 2) }
    ensures { result ≡ x * x * 2 ^ bit % n }
{
    let y = x * x % n;
    if bit == 0 {
        return y;
    }
    let room = n - y;
    if y >= room { y - room } else { y + y }
}

// 2 to the power q - 1, modulo q.
pub(crate) fn power_of_two(q: u32) -> u32
    requires { 2 ≤ q }
    ensures { result ≡ 2 ^ (q - 1) % q }
{
    let n = q as u64;
    let e = q - 1;
    let mut x = (1u64 << (e >> LATER_BITS)) % n;
    for s in (0..LATER_BITS).rev() {
        x = squared(n, x, (e >> s) % 2);
    }
    x as u32
}

fn small_prime(q: u32) -> bool
    requires { q < 256 }
    ensures { result ≡ is_prime q }
{
    let word = match q / WORD_BITS {
        0 => FROM_0,
        1 => FROM_64,
        2 => FROM_128,
        _ => FROM_192,
    };
    (word >> (q % WORD_BITS)) % 2 == 1
}

pub fn is_prime(q: u32) -> bool
    ensures { result ≡ is_prime q }
{
    if q < SMALL {
        small_prime(q)
    } else {
        q % 2 == 1 && large_prime(q)
    }
}
