// Binary digits, and refusals as one number.
use std::num::wrapping_add_usize;

// The ones among the lowest n binary digits of g, one by one.
pub fn ones(g: usize, n: usize) -> usize {
    let mut left = g;
    let mut sum: usize = 0;
    for i in 0..n {
        sum = wrapping_add_usize(sum, left % 2);
        left = left / 2;
    }
    sum
}

// A refusal's number and its two details as one number.
pub fn pack(number: usize, first: usize, second: usize) -> usize {
    number % 64 * 4294967296 + first % 65536 * 65536 + second % 65536
}

// Its number again.
pub fn number_of(packed: usize) -> usize {
    packed / 4294967296
}

// Its first detail.
pub fn first_of(packed: usize) -> usize {
    packed / 65536 % 65536
}
