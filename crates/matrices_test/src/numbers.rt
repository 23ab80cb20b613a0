// Arithmetic modulo q another way: on usize, which also counts places in tables, with a remainder after each step.
use std::num::wrapping_sub_usize;
use testing::{product_mod, residue, seed};

// A state some steps on, past those that a draw of several numbers uses.
pub fn skip(x: usize) -> usize {
    seed(seed(x))
}

// a + m b modulo q, for numbers of 32 bits.
pub fn mul_add(q: usize, a: usize, m: usize, b: usize) -> usize {
    residue(a % 4294967296 + product_mod(q, m, b), q)
}

// a to the power n modulo q: by squares, from the exponent's lowest binary digit on.
pub fn power(q: usize, a: usize, n: usize) -> usize {
    let mut result: usize = 1;
    let mut square = a;
    let mut left = n;
    // a while: each step halves what is left
    while left > 0 {
        if left % 2 == 1 {
            result = mul_add(q, 0, result, square);
        }
        square = mul_add(q, 0, square, square);
        left = left / 2;
    }
    result
}

// Minus a modulo q, for an a below q.
pub fn opposite(q: usize, a: usize) -> usize {
    residue(wrapping_sub_usize(q, a), q)
}
