// Numbers drawn from a seed, and arithmetic on usize, which also counts places in tables.
ghost use Rattle.std.specs.Prelude.{◌≡◌, ◌*◌, ◌≤◌};
ghost use Rattle.residues.specs.Primes.{is_prime};
ghost use Rattle.testing.specs.Numbers.{residue_of, quotient_of, low, low_product, mul_add_of, symbol_of, product_mod_of, power_of, prime_of};
ghost use Rattle.testing.specs.Numbers.{step_of, seed_of, draw_of, state_of, drawn_of, clip_of, over_of, outside_of};

use arithmetic::Symbol;

// One more than the largest number of 16 bits, and than the largest of 32.
const HALF: usize = 65536;

const WHOLE: usize = 4294967296;

// The place of the largest prime, from which on it is taken.
const LARGEST: usize = 10;

// Places from which to draw a prime: half of them have one of 16 bits.
pub const PRIMES: usize = 14;

// The next state, of 32 bits: the upper half is mixed into the lower one, and by the product the lower into the upper, so that no two runs of states keep
// a fixed difference.
pub fn step(x: usize) -> usize
    ensures { result ≡ step_of x }
{
    let n = x % WHOLE;
    ((n ^ (n / HALF)) % WHOLE * 73244475 + 1013904223) % WHOLE
}

// The state with which a case begins. The first states of near numbers are near each other, hence the steps.
pub fn seed(case: usize) -> usize
    ensures { result ≡ seed_of case }
{
    step(step(step(case)))
}

// A number below n, of a state's upper half; 0 where n is 0.
pub fn draw(x: usize, n: usize) -> usize
    ensures { result ≡ draw_of x n }
{
    residue(x / HALF, n)
}

// Number i of 32 bits of the run that a seed stands for. They are mixed and not counted on by a sum, so that no two have a fixed difference.
pub fn state(x: usize, i: usize) -> usize
    ensures { result ≡ state_of x i }
{
    seed(x % WHOLE + i % HALF * 65537)
}

// The same of 16 bits.
pub fn drawn(x: usize, i: usize) -> usize
    ensures { result ≡ drawn_of x i }
{
    state(x, i) / HALF % HALF
}

// What a leaves when divided by n; 0 where n is 0.
pub fn residue(a: usize, n: usize) -> usize
    ensures { result ≡ residue_of n a }
{
    if n == 0 { 0 } else { a % n }
}

// How often n is in a; 0 where n is 0.
pub fn quotient(a: usize, n: usize) -> usize
    ensures { result ≡ quotient_of n a }
{
    if n == 0 { 0 } else { a / n }
}

// The product of two numbers below 65,536, as counts are. By the remainders it fits for every input.
pub fn product(a: usize, b: usize) -> usize
    ensures exact { result ≡ low_product a b }
    ensures fits { result ≤ 65535 * 65535 }
{
    a % HALF * (b % HALF)
}

// a + m b, for an a below 2^40.
pub fn mul_add(a: usize, m: usize, b: usize) -> usize
    ensures { result ≡ mul_add_of a m b }
{
    a % 1099511627776 + product(m, b)
}

// The product modulo q of two symbols, which are taken to have 32 bits. The library takes one remainder of one product; here the upper half of b is multiplied
// and reduced first. Whatever q is, all fits: two numbers of 32 bits have a product of 64.
pub fn product_mod(q: usize, a: usize, b: usize) -> usize
    ensures exact { result ≡ product_mod_of q a b }
    ensures fits { result ≤ 4294967295 * 4294967295 }
{
    let m = a % WHOLE;
    let n = b % WHOLE;
    let upper = residue(m * (n / HALF), q);
    residue(upper * HALF + m * (n % HALF), q)
}

// a to the power n modulo q, by repeated multiplication.
pub fn power(q: usize, a: usize, n: usize) -> usize
    ensures { result ≡ power_of q a n }
{
    let mut p = residue(1, q);
    for k in 0..n {
        p = product_mod(q, p, a);
    }
    p
}

// Whether q is a prime: all numbers from 2 to the root are tried, of a q of 32 bits at most 65,534.
pub fn is_prime(q: usize) -> bool
    ensures { result ≡ is_prime q }
{
    let mut d: usize = 2;
    // a while: it ends at the root of q, which is not known before
    while q / d >= d {
        if q % d == 0 {
            return false;
        }
        d += 1;
    }
    q > 1
}

// Small primes below 4, then larger ones of 16 bits, and from 7 on such of 32.
pub fn prime(n: usize) -> usize
    ensures { result ≡ prime_of n }
{
    let primes: [usize; 11] = [
        2, 3, 5, 7, 257, 65519, 65521, 65537, 2147483647, 4294967279, 4294967291,
    ];
    primes[clip(n, LARGEST)]
}

// The smaller of the two.
pub fn clip(n: usize, most: usize) -> usize
    ensures exact { result ≡ clip_of n most }
    ensures fits { result ≤ most }
{
    if n > most { most } else { n }
}

// By this what is refused is told from the last fault to the first: a fault overrules what was found before.
pub fn over(fault: bool, number: usize, otherwise: usize) -> usize
    ensures { result ≡ over_of fault number otherwise }
{
    if fault { number } else { otherwise }
}

// Whether a is none of 1 to n.
pub fn is_outside(a: usize, n: usize) -> bool
    ensures { result ≡ outside_of a n }
{
    a < 1 || a > n
}

pub fn wide(a: Symbol) -> usize
    ensures { result ≡ a }
{
    a as usize
}

pub fn narrow(a: usize) -> Symbol
    ensures { result ≡ symbol_of a }
{
    (a % WHOLE) as Symbol
}

// The same for what has 16 bits: refusals, and who has reported.
pub fn wide16(a: u16) -> usize
    ensures { result ≡ a }
{
    a as usize
}

pub fn narrow16(a: usize) -> u16
    ensures { result ≡ low a }
{
    (a % HALF) as u16
}
