// The verdict another way: the checks before 7 one by one, each from the paper's words.
use crate::numbers::pack;
use crate::tables::{Shape, symbols, users};
use arithmetic::Symbol;
use testing::{column_sum, count_large, is_prime, residue};

fn is_one_to(n: usize, most: usize) -> bool {
    n != 0 && n <= most
}

// Bounds: U and V from 1 to 8, U V at most 16, T from 0 to U V, R from 1 to 16.
pub fn fits(s: Shape) -> bool {
    let counts = is_one_to(s.clusters, 8) && is_one_to(s.size, 8) && is_one_to(s.rate, 16);
    counts && users(s) <= 16 && s.limit <= users(s)
}

// The sum of column k over all rows, reduced once.
fn sum(s: Shape, t: &[Symbol], k: usize) -> usize {
    residue(column_sum(t, users(s), s.rate, k), s.q)
}

// The first column, from 1, whose sum is not 0; found from the last column back. 0 where there is none.
fn wrong_column(s: Shape, t: &[Symbol]) -> usize {
    let mut found: usize = 0;
    for k in (0..s.rate).rev() {
        if sum(s, t, k) != 0 {
            found = k + 1;
        }
    }
    found
}

// Checks 1, 4, 2, 3 and 6 packed; 0 where none refuses.
pub fn refusal(s: Shape, t: &[Symbol]) -> usize {
    if !fits(s) {
        return pack(1, 0, 0);
    }
    if t.len() != symbols(s) {
        return pack(4, 0, 0);
    }
    if !is_prime(s.q) {
        return pack(2, 0, 0);
    }
    if count_large(t, s.q) != 0 {
        return pack(3, 0, 0);
    }
    let k = wrong_column(s, t);
    if k == 0 { 0 } else { pack(6, k, 0) }
}
