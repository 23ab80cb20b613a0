// What the test programs share: numbers drawn from a seed, slices read and written at any place, and a line of counts. Every function takes every input, so
// that a loop of a test program that calls it has nothing to show.
#![tactic(auto)]

mod counts;
mod numbers;
mod slices;

pub use counts::print_counts;
pub use numbers::{
    PRIMES, clip, draw, drawn, is_outside, is_prime, mul_add, narrow, narrow16, over, power, prime,
    product, product_mod, quotient, residue, seed, state, step, wide, wide16,
};
pub use slices::{
    at, byte_at, column_sum, count_large, fill, fill_bytes, put, put_byte, same, word_at,
};
