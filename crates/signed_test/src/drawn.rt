// Drawn inputs: the largest primes of 16 and of 32 bits, caps at the edge, and readings at both ends of their type.
use crate::calls::{Call, asked};
use crate::model::{Shape, UNSHOWN, UNTOUCHED, largest_cap};
use crate::numbers::{LAST, put_reading, reading};
use arithmetic::Symbol;
use plans::Plan;
use std::num::{wrapping_add_usize, wrapping_sub_usize};
use testing::{clip, draw, fill, narrow, over, put, residue, seed, state, step, wide};

// Number k of those that the state x holds, below an n of at most 65,536.
pub fn pick(x: usize, k: usize, n: usize) -> usize {
    draw(state(x, k), n)
}

// Below 16 primes, and from there on numbers that are none.
static MODULUS: [usize; 19] = [
    4294967291, 4294967291, 4294967291, 4294967279, 4294967279, 65537, 65537, 65537, 65537, 65521,
    65521, 65521, 65521, 257, 257, 257, 65535, 4294967295, 1,
];

fn modulus(n: usize) -> usize {
    MODULUS[clip(n, 18)]
}

// U and V as two digits; from 24 on outside their bounds.
static COUNTS: [usize; 28] = [
    11, 11, 11, 21, 21, 21, 12, 12, 12, 22, 22, 22, 44, 44, 44, 82, 82, 82, 28, 28, 28, 35, 35, 35,
    10, 91, 19, 36,
];

fn counts(n: usize) -> usize {
    COUNTS[clip(n, 27)]
}

// The largest that fits and one more most often, and any that fits.
fn cap(x: usize, largest: usize) -> usize {
    match pick(x, 4, 24) {
        0 | 1 | 2 | 3 | 4 | 5 | 6 | 7 => largest,
        8 => wrapping_add_usize(largest, 1),
        9 => 2147483648,
        10 => LAST,
        11 => 0,
        12 => 1,
        _ => wrapping_add_usize(residue(state(x, 5), largest), 1),
    }
}

// 1 and 64 most often.
pub fn length(x: usize) -> usize {
    match pick(x, 6, 24) {
        0 => 0,
        1 => 65,
        2 | 3 | 4 | 5 | 6 => 1,
        7 | 8 | 9 | 10 | 11 => 64,
        _ => pick(x, 7, 64) % 64 + 1,
    }
}

// The length itself, but seldom one too few, or one too many.
fn room(length: usize, n: usize) -> usize {
    match n {
        0 => wrapping_sub_usize(length, 1),
        1 => wrapping_add_usize(length, 1),
        _ => length,
    }
}

// What a plan has of a state, with how far to draw: up to 24 and 16 everything is within its bounds.
pub fn plan_of(x: usize, most_counts: usize, most_moduli: usize) -> Plan {
    let digits = counts(pick(x, 1, most_counts));
    Plan {
        clusters: digits / 10,
        size: digits % 10,
        limit: over(pick(x, 2, most_counts) == 24, 17, 1),
        rate: over(pick(x, 3, most_counts) == 24, 17, 16),
        q: narrow(modulus(pick(x, 8, most_moduli))),
    }
}

// A reading inside the cap m, often at its ends.
pub fn drawn_reading(m: usize, x: usize, p: usize) -> i32 {
    let twice = wrapping_add_usize(m, m);
    let y = state(x, p);
    match draw(y, 6) {
        0 => reading(twice),
        1 => reading(wrapping_sub_usize(twice, 1)),
        2 => reading(0),
        _ => reading(residue(step(y), wrapping_add_usize(twice, 1))),
    }
}

// The nearest to 0 of those outside the cap, and the ends of the type.
fn outside(m: usize, n: usize) -> i32 {
    let twice = wrapping_add_usize(m, m);
    match n {
        0 => reading(wrapping_add_usize(twice, 1)),
        1 => reading(wrapping_add_usize(twice, 2)),
        2 => reading(LAST - 1),
        _ => reading(LAST),
    }
}

pub fn fill_readings(t: &mut [i32], m: usize, x: usize) {
    for p in 0..t.len() {
        put_reading(t, p, drawn_reading(m, x, p));
    }
}

// Symbols, and seldom a number that is none: q, or the largest of 32 bits.
fn block(q: usize, x: usize, place: usize) -> [Symbol; 66] {
    let mut t = [0 as Symbol; 66];
    fill(&mut t, q, x);
    match pick(x, 9, 12) {
        0 => put(&mut t, place, q),
        1 => put(&mut t, place, LAST),
        _ => {}
    }
    t
}

// The blocks are lent in these lengths.
fn lent(
    call: Call,
    s: Shape,
    x: usize,
    readings: &[i32],
    symbols: &[Symbol],
    key: &[Symbol],
) -> usize {
    let n = room(s.length, pick(x, 13, 40));
    let a = clip(n, readings.len());
    let b = clip(n, symbols.len());
    let c = clip(room(s.length, pick(x, 14, 40)), key.len());
    let k = clip(room(s.length, pick(x, 15, 40)), 66);
    let mut out = [UNTOUCHED; 66];
    let mut shown = [UNSHOWN; 66];
    asked(
        call,
        s,
        &readings[..a],
        &symbols[..b],
        &key[..c],
        &mut out[..k],
        &mut shown[..k],
    )
}

pub fn answer(call: Call, case: usize) -> usize {
    let x = seed(case);
    let plan = plan_of(x, 28, 20);
    let q = wide(plan.q);
    let cap = cap(x, largest_cap(plan));
    let length = length(x);
    let s = Shape {
        plan,
        cap: narrow(cap),
        length,
    };
    let place = residue(state(x, 10), length);
    let mut readings = [0i32; 66];
    fill_readings(&mut readings, cap, x);
    let wrong = over(pick(x, 11, 6) == 0, place, LAST);
    put_reading(&mut readings, wrong, outside(cap, pick(x, 12, 4)));
    let symbols = block(q, step(x), place);
    let key = block(q, x, place);
    lent(call, s, x, &readings, &symbols, &key)
}
