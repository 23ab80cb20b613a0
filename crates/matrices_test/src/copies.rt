// Copies: to as many symbols, which then are the same, and to more or fewer, which stay as they are.
use crate::tables::fill;
use arithmetic::Symbol;
use matrices::copy;
use testing::{clip, count_large, same, seed};

pub const CASES: usize = 3000;

pub fn length(case: usize) -> usize {
    case % 200
}

// The first n symbols are left out of one of the two.
fn copy_without(case: usize, n: usize, t: &[Symbol], other: &mut [Symbol]) {
    if n > t.len() || n > other.len() {
        return;
    }
    if case % 2 == 0 {
        copy(&t[n..], other);
    } else {
        copy(t, &mut other[n..]);
    }
}

// Every third copy is to as many. The other table is nothing but zeros before.
pub fn agrees(case: usize, t: &mut [Symbol], other: &mut [Symbol]) -> bool {
    fill(4294967291, seed(case), t);
    let n = clip(case % 3, t.len());
    copy_without(case, n, t, other);
    if n == 0 {
        same(t, other)
    } else {
        count_large(other, 1) == 0
    }
}
