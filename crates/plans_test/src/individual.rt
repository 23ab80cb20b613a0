// Individual keys: products by halves, and sums in 64 bits from the last symbol to the first, reduced once.
use crate::making::table;
use crate::numbers::{Length, UNTOUCHED, compared, drawn_length, length_of, verdict_said};
use crate::shapes::{Shape, TABLE_AND_ONE, drawn_damage, plan_of, shape_of, spoil, symbols, users};
use arithmetic::Symbol;
use keys::derive_keys;
use std::num::wrapping_add_usize;
use testing::{
    at, clip, count_large, draw, fill, is_outside, mul_add, over, product, product_mod, put,
    quotient, residue, seed, step, wide,
};
use vetting::vet;

// Room for a block of the largest length and one more, 65 positions, of 16 symbols or users each.
const ROOM: usize = 1100;

// With the maker's rate, but for the last, which is out of bounds. No coalition is large, so that the walk is short.
static COUNTS: [usize; 10] = [
    2010001, 2020103, 3020103, 2030205, 8020108, 2080109, 4040004, 8010507, 5030105, 9010008,
];

fn counts(n: usize) -> usize {
    COUNTS[clip(n, 9)]
}

// How many moduli there are, half of them of 32 bits.
const MODULI: usize = 10;

static MODULUS: [usize; 10] = [
    5, 257, 4099, 65519, 65521, 65537, 16777259, 2147483647, 4294967279, 4294967291,
];

fn modulus(n: usize) -> usize {
    MODULUS[clip(n, 9)]
}

// The key of user i at position p.
fn key(s: Shape, t: &[Symbol], source: &[Symbol], i: usize, p: usize) -> usize {
    let mut sum: usize = 0;
    for k in (0..s.rate).rev() {
        let symbol = at(t, mul_add(k, i, s.rate));
        let key = at(source, mul_add(k, p, s.rate));
        sum = wrapping_add_usize(sum, product_mod(s.q, symbol, key));
    }
    residue(sum, s.q)
}

// Place by place: users one after the other, `many` symbols each; where the call was refused, what was there before.
fn are_keys(
    s: Shape,
    t: &[Symbol],
    source: &[Symbol],
    keys: &[Symbol],
    many: usize,
    number: usize,
) -> bool {
    for x in 0..keys.len() {
        let want = key(s, t, source, quotient(x, many), residue(x, many));
        if at(keys, x) != over(number > 0, wide(UNTOUCHED), want) {
            return false;
        }
    }
    true
}

// The vet's refusals, then 9, 4 for either block, 3.
fn refusal(s: Shape, vetted: usize, many: usize, source: &[Symbol], keys: usize) -> usize {
    let large = over(count_large(source, s.q) > 0, 3, 0);
    let lengths = (source.len() ^ product(many, s.rate)) | (keys ^ product(users(s), many));
    let number = over(is_outside(many, 64), 9, over(lengths != 0, 4, large));
    over(vetted > 0, vetted, number)
}

// What the library says, and what it does to the keys.
fn judged(s: Shape, t: &[Symbol], many: usize, source: &[Symbol], keys: &mut [Symbol]) -> usize {
    let plan = plan_of(s);
    let vetted = verdict_said(vet(plan, t));
    let number = refusal(s, vetted, many, source, keys.len());
    let answer = verdict_said(derive_keys(plan, t, many, source, keys));
    compared(answer, number, are_keys(s, t, source, keys, many, number))
}

// The plan's limit is one more in one of 16.
fn drawn_shape(number: usize, x: usize) -> Shape {
    let more = over(draw(x, 16) == 0, 100, 0);
    shape_of(
        counts(number % 10) % 100000000 + more % 256,
        modulus(draw(step(x), MODULI)),
    )
}

// The table made the other way; in one of 16 a symbol becomes 0.
fn drawn_table(s: Shape, x: usize) -> [Symbol; TABLE_AND_ONE] {
    let mut t = table(s, 3, true);
    put(
        &mut t,
        over(draw(x, 16) == 0, draw(step(x), symbols(s)), TABLE_AND_ONE),
        0,
    );
    t
}

// In one source of eight a symbol becomes q, the largest number, or one at the edge of 16 bits.
fn drawn_source(q: usize, many: usize, x: usize) -> [Symbol; ROOM] {
    let mut source = [0 as Symbol; ROOM];
    fill(&mut source, q, x);
    let spoiled = drawn_damage(draw(seed(x), 32));
    spoil(&mut source, draw(step(x), many), q, spoiled);
    source
}

// One too long, one too short or right: both blocks by themselves.
pub fn dealt(s: Shape, many: usize, x: usize, source_length: Length, keys_length: Length) -> usize {
    let length = product(many, s.rate);
    let t = drawn_table(s, seed(x));
    let source = drawn_source(s.q, length, seed(step(x)));
    let n = clip(symbols(s), TABLE_AND_ONE);
    let m = clip(length_of(length, source_length), ROOM);
    let k = clip(length_of(product(many, users(s)), keys_length), ROOM);
    let mut keys = [UNTOUCHED; ROOM];
    judged(s, &t[..n], many, &source[..m], &mut keys[..k])
}

// L is in turn from 0 to 65. The blocks have the right length, but for one of eight.
pub fn derived(number: usize) -> usize {
    let x = seed(seed(number));
    let lengths = draw(seed(number), 256);
    dealt(
        drawn_shape(number, x),
        number / 10 % 66,
        x,
        drawn_length(lengths % 16),
        drawn_length(lengths / 16),
    )
}
