// The vet of tiny networks, held to literal counting.
use crate::counting::first_leak;
use crate::drawn::{spoiled, table, tiny, weights};
use crate::expected::{
    Kind, Lengths, both_below, compared, lengths_of, network_fits, number_of, refused,
};
use arithmetic::Symbol;
use networks::Ring;
use std::num::wrapping_add_usize;
use testing::{clip, over, seed, wide};

// The vet's answer held to the first observer that leaks; K + 1 for none.
fn held(ring: Ring, table: &[Symbol], weights: &[Symbol], early: usize, leak: usize) -> usize {
    let verdict = networks::vet(ring, table, weights);
    if early != 0 || leak > ring.size {
        compared(number_of(verdict), early, true)
    } else {
        let code = refusals::code_of_result(&verdict);
        let same = code.first == 0 && code.second as usize == leak;
        compared(code.number as usize, 7, same)
    }
}

// By a mistake another observer is expected.
fn judged(ring: Ring, l: Lengths, table: &[Symbol], weights: &[Symbol], mistaken: bool) -> usize {
    let n = clip(l.table, table.len());
    let m = clip(l.weights, weights.len());
    let t = &table[..n];
    let a = &weights[..m];
    let early = refused(
        ring,
        network_fits(ring, n, m),
        both_below(wide(ring.q), t, a),
        0,
    );
    if early != 0 {
        held(ring, t, a, early, 0)
    } else {
        let leak = first_leak(ring, t, a);
        let other = wrapping_add_usize(leak, 1);
        held(ring, t, a, 0, over(mistaken, other, leak))
    }
}

pub fn vetted(case: usize, kind: Kind) -> usize {
    let faulty = kind == Kind::Faulty;
    let x = seed(case);
    let first = tiny(x);
    let ring = spoiled(first, x, faulty);
    let t = table(first, ring, x, faulty);
    let a = weights(first, ring, x, faulty);
    let l = lengths_of(ring, x, faulty);
    judged(ring, l, &t, &a, kind == Kind::Mistaken)
}
