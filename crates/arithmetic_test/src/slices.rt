// all_below on slices of up to 16 symbols, with one number that is not below q at a place, or with none.
use crate::cases::{Case, below};
use crate::numbers::{LARGEST, low32, sixteenth, step};
use arithmetic::{Symbol, all_below};
use std::num::{wrapping_add_u64, wrapping_sub_u32};

const LENGTH: usize = 16;

// Of sixteen.
const FEW: u64 = 2;

const HALF: u64 = 8;

type Symbols = [Symbol; LENGTH];

#[derive(Clone, Copy, Debug, PartialEq, Eq)]
pub enum Place {
    Empty,
    Nowhere,
    First,
    Middle,
    Last,
}

// A number below q, in a few cases the last.
fn drawn(q: Symbol, x: u64) -> Symbol {
    if sixteenth(x) < FEW {
        wrapping_sub_u32(q, 1)
    } else {
        below(q, low32(step(x)))
    }
}

fn fill(symbols: &mut Symbols, q: Symbol, seed: u64) {
    let mut x = seed;
    for symbol in symbols {
        x = step(x);
        *symbol = drawn(q, x);
    }
}

// The second implementation: looks at all of the slice, and counts.
fn count_not_below(q: Symbol, symbols: &[Symbol]) -> u64 {
    let mut n: u64 = 0;
    for &symbol in symbols {
        if q <= symbol {
            n = wrapping_add_u64(n, 1);
        }
    }
    n
}

// What is expected by the way the slice was made is held to the count too.
fn slice_agrees(q: Symbol, symbols: &[Symbol], expected: bool) -> bool {
    let by_count = count_not_below(q, symbols) == 0;
    by_count == expected && all_below(q, symbols) == expected
}

fn front_agrees(q: Symbol, symbols: &[Symbol], n: usize, expected: bool) -> bool {
    n <= symbols.len() && slice_agrees(q, &symbols[..n], expected)
}

// An array lent as a slice.
fn array_agrees(q: Symbol, symbols: &Symbols, n: usize, expected: bool) -> bool {
    front_agrees(q, symbols, n, expected)
}

// The first n of 16 symbols; the one at the index is q, the least number that is not below q, or the largest number.
fn made_agrees(c: Case, n: usize, index: usize, expected: bool) -> bool {
    let mut symbols: Symbols = [0; LENGTH];
    fill(&mut symbols, c.q, c.seed);
    if index < LENGTH {
        symbols[index] = if sixteenth(step(c.seed)) < HALF {
            c.q
        } else {
            LARGEST
        };
    }
    array_agrees(c.q, &symbols, n, expected)
}

// Where q is 0 no number is below it.
pub fn place_agrees(place: Place, c: Case) -> bool {
    let last = sixteenth(c.seed) as usize % LENGTH;
    match place {
        Place::Empty => made_agrees(c, 0, LENGTH, true),
        Place::Nowhere => made_agrees(c, last + 1, LENGTH, c.q != 0),
        Place::First => made_agrees(c, last + 1, 0, false),
        Place::Middle => made_agrees(c, last + 1, last / 2, false),
        Place::Last => made_agrees(c, last + 1, last, false),
    }
}
