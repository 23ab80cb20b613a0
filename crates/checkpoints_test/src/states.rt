// States of a relay, good and broken, and what a comparison says. Every function takes every number, so that a loop that calls it has nothing to show.
use arithmetic::Symbol;
use plans::Plan;
use refusals::Refusal;
use rounds::{Held, RelayRound, Round};
use std::num::wrapping_add_usize;
use testing::{PRIMES, clip, draw, narrow, narrow16, over, power, prime, residue, seed, state};

// What a comparison says where the two differ; otherwise it says the number that was answered.
pub const DIFFER: usize = 15;

// Number k of those that the state x holds, below an n of at most 65,536; 0 where n is 0.
pub fn pick(x: usize, k: usize, n: usize) -> usize {
    draw(state(x, k), n)
}

// A number that no answer has where a detail is not 0.
pub fn number_of<T>(answer: &Result<T, Refusal>) -> usize {
    let code = refusals::code_of_result(answer);
    over(
        (code.first | code.second) == 0,
        code.number as usize,
        DIFFER,
    )
}

// U and V as two digits: the largest plans, the smallest, and some between.
static COUNTS: [usize; 7] = [82, 28, 44, 11, 18, 53, 22];

pub fn counts(n: usize) -> usize {
    COUNTS[clip(n, 6)]
}

// Numbers at the bounds and past them.
static EDGE: [usize; 8] = [0, 1, 9, 64, 65, 255, 256, 18446744073709551615];

fn edge(n: usize) -> usize {
    EDGE[clip(n, 7)]
}

// Sums below q, 0 past the length.
fn row(q: usize, length: usize, x: usize) -> [Symbol; Plan::MAX_LENGTH] {
    let mut sums = [0; Plan::MAX_LENGTH];
    for p in 0usize..64 {
        sums[p] = narrow(over(p < length, residue(state(x, p), q), 0));
    }
    sums
}

// A state that passes its checks, of some length.
pub fn sound(x: usize, length: usize) -> RelayRound {
    let both = counts(pick(x, 1, 8));
    let q = prime(pick(x, 2, PRIMES));
    let rolls = power(65536, 2, both % 10);
    let sums = row(q, length, x);
    let held = row(q, length, seed(x));
    RelayRound {
        cluster: wrapping_add_usize(residue(pick(x, 3, 8), both / 10), 1),
        round: Round {
            clusters: both / 10,
            size: both % 10,
            q: narrow(q),
            length,
            number: narrow(state(x, 4)),
            reported: narrow16(residue(state(x, 5), rolls)),
            sums,
        },
        ahead: Held {
            reported: narrow16(residue(state(x, 6), rolls)),
            sums: held,
        },
    }
}

// One to four positions, or all, or any number of them.
pub fn length(x: usize) -> usize {
    match pick(x, 7, 4) {
        0 => 64,
        1 => pick(x, 8, 64) % 64 + 1,
        _ => pick(x, 8, 4) % 4 + 1,
    }
}

// By chance one thing is not as it should be.
pub fn broken(good: RelayRound, x: usize) -> RelayRound {
    let n = pick(x, 12, 8);
    let p = pick(x, 13, 64) % 64;
    let mut bad = good;
    let mut round = good.round;
    let mut ahead = good.ahead;
    let q = round.q;
    let bit = narrow16(power(65536, 2, pick(x, 14, 16)));
    match pick(x, 11, 40) {
        0 => bad.cluster = edge(n),
        1 => round.clusters = edge(n),
        2 => round.size = edge(n),
        3 => round.length = edge(n),
        4 => round.q = narrow(edge(n)),
        5 => round.reported = round.reported | bit,
        6 => ahead.reported = ahead.reported | bit,
        7 => round.sums[p] = q,
        8 => ahead.sums[p] = q,
        9 => round.q = 3215031751,
        _ => {}
    }
    RelayRound {
        cluster: bad.cluster,
        round,
        ahead,
    }
}

// In how many places two rows differ.
fn other(a: &[Symbol; Plan::MAX_LENGTH], b: &[Symbol; Plan::MAX_LENGTH]) -> usize {
    let mut n: usize = 0;
    for p in 0usize..64 {
        n = wrapping_add_usize(n, over(a[p] == b[p], 0, 1));
    }
    n
}

// Whether two rounds are for the same, and whether the same have reported to them.
fn same_head(a: Round, b: Round) -> bool {
    let counts = a.clusters == b.clusters && a.size == b.size && a.q == b.q;
    counts && a.length == b.length && a.number == b.number && a.reported == b.reported
}

// Whether two rounds are the same in everything.
pub fn alike(a: RelayRound, b: RelayRound) -> bool {
    let r = a.round;
    let s = b.round;
    let h = a.ahead;
    let k = b.ahead;
    let first = r.sums;
    let second = s.sums;
    let third = h.sums;
    let fourth = k.sums;
    let heads = a.cluster == b.cluster && same_head(r, s) && h.reported == k.reported;
    heads && other(&first, &second) == 0 && other(&third, &fourth) == 0
}
