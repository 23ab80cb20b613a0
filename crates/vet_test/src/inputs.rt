// The inputs: the record of a drawn plan at the buffer's end with other bytes before it, left as it is or damaged at up to two places.
// An input is made of its number alone, so that each can be looked at by itself.
use crate::drafts::{Draft, drawn, head, record_size, symbols, width, write};
use crate::numbers::{after, before, from_one, put_number, put_word};
use testing::{byte_at, clip, draw, fill_bytes, product, put_byte, residue, state};

// The bytes of the buffer, and the place from which it is filled anew for each input; before that it is 0.
pub const BUFFER: usize = 65536;

const FILLED: usize = 64400;

// The part of the buffer that is the input, and that which was written as a record.
#[derive(Clone, Copy, Debug, PartialEq, Eq)]
pub struct Input {
    pub start: usize,
    pub end: usize,
    first: usize,
    last: usize,
}

// With numbers of another seed than those that the plan is made of.
fn fill(bytes: &mut [u8], seed: usize) {
    if FILLED <= bytes.len() {
        fill_bytes(&mut bytes[FILLED..], state(seed, 500));
    }
}

// Some bytes after the record in one input of 32.
fn bytes_after(seed: usize) -> usize {
    if draw(state(seed, 300), 32) == 0 {
        draw(state(seed, 301), 5)
    } else {
        0
    }
}

// The record, and up to 31 bytes before it.
fn placed(d: Draft, seed: usize) -> Input {
    let last = before(BUFFER, bytes_after(seed));
    let first = before(last, record_size(d));
    Input {
        start: before(first, draw(state(seed, 302), 32)),
        end: BUFFER,
        first,
        last,
    }
}

// Empty where it would end before its start.
fn between(start: usize, end: usize, i: Input) -> Input {
    Input {
        start,
        end: if end < start { start } else { end },
        first: i.first,
        last: i.last,
    }
}

// A distance near the record's, near the input's length, or at an edge.
fn distance(i: Input, x: usize) -> usize {
    let size = before(i.last, i.first);
    let length = before(i.end, i.start);
    match draw(x, 12) {
        0 => 0,
        1 => 9,
        2 => 10,
        3 => 11,
        4 => 12,
        5 => before(size, 1),
        6 => after(size, 1),
        7 => before(size, 2),
        8 => after(size, 2),
        9 => length,
        10 => after(length, 1),
        _ => 65535,
    }
}

// A count about the bounds.
static COUNT: [usize; 10] = [0, 1, 2, 3, 7, 8, 9, 16, 17, 255];

fn count(x: usize) -> usize {
    COUNT[clip(draw(x, 10), 9)]
}

// Primes and others, squares of primes among them, of both widths.
static MODULUS: [usize; 19] = [
    0, 1, 2, 4, 9, 11, 65025, 63001, 65520, 65521, 65535, 65536, 65537, 131071, 4293001441,
    4294967279, 4294967291, 4294967293, 4294967295,
];

// One of those, or seldom any below 300.
fn modulus(x: usize) -> usize {
    let n = draw(x, 20);
    if n < 19 {
        MODULUS[n]
    } else {
        draw(x / 16, 300)
    }
}

// A number about q, or any below it, which changes a column's sum.
fn number(q: usize, x: usize) -> usize {
    match draw(x, 8) {
        0 => q,
        1 => after(q, 1),
        2 => 65535,
        3 => 4294967295,
        _ => residue(x, q),
    }
}

fn change_byte(d: Draft, bytes: &mut [u8], i: Input, x: usize) {
    put_byte(
        bytes,
        after(i.first, draw(x, record_size(d))),
        state(x, 1) / 65536,
    );
}

// One higher or one lower.
fn shift_byte(d: Draft, bytes: &mut [u8], i: Input, x: usize) {
    let place = after(i.first, draw(x, record_size(d)));
    let n = byte_at(bytes, place);
    put_byte(
        bytes,
        place,
        after(n, if draw(state(x, 1), 2) == 0 { 1 } else { 255 }),
    );
}

fn change_distance(bytes: &mut [u8], i: Input, x: usize) {
    put_word(bytes, before(i.last, 4), distance(i, x));
}

fn change_mark(bytes: &mut [u8], i: Input, x: usize) {
    put_byte(bytes, before(i.last, from_one(x, 2)), state(x, 1) / 65536);
}

fn change_count(bytes: &mut [u8], i: Input, x: usize) {
    put_byte(bytes, after(i.first, draw(x, 4)), count(state(x, 1)));
}

// The other kind's mark over the same bytes.
fn turn_mark(bytes: &mut [u8], i: Input) {
    let place = before(i.last, 1);
    put_byte(
        bytes,
        place,
        if byte_at(bytes, place) == 80 { 81 } else { 80 },
    );
}

fn change_modulus(d: Draft, bytes: &mut [u8], i: Input, x: usize) {
    put_number(bytes, after(i.first, 4), width(d), modulus(x));
}

fn change_symbol(d: Draft, bytes: &mut [u8], i: Input, x: usize) {
    let n = draw(x, symbols(d));
    let place = after(after(i.first, head(d)), product(n, width(d)));
    put_number(bytes, place, width(d), number(d.q, state(x, 1)));
}

// What is changed of the record.
#[derive(Clone, Copy, Debug, PartialEq, Eq)]
enum Change {
    AnyByte,
    ByteByOne,
    Distance,
    Mark,
    Count,
    Modulus,
    OtherMark,
    Symbol,
}

static CHANGES: [Change; 8] = [
    Change::AnyByte,
    Change::ByteByOne,
    Change::Distance,
    Change::Mark,
    Change::Count,
    Change::Modulus,
    Change::OtherMark,
    Change::Symbol,
];

fn change_record(d: Draft, bytes: &mut [u8], i: Input, what: Change, x: usize) {
    match what {
        Change::AnyByte => change_byte(d, bytes, i, x),
        Change::ByteByOne => shift_byte(d, bytes, i, x),
        Change::Distance => change_distance(bytes, i, x),
        Change::Mark => change_mark(bytes, i, x),
        Change::Count => change_count(bytes, i, x),
        Change::Modulus => change_modulus(d, bytes, i, x),
        Change::OtherMark => turn_mark(bytes, i),
        Change::Symbol => change_symbol(d, bytes, i, x),
    }
}

// Other ends: the last two are one byte too long, and just not too long.
#[derive(Clone, Copy, Debug, PartialEq, Eq)]
enum Ends {
    CutInFront,
    CutBehind,
    TooLong,
    Longest,
}

static OTHER_ENDS: [Ends; 4] = [
    Ends::CutInFront,
    Ends::CutBehind,
    Ends::TooLong,
    Ends::Longest,
];

fn cut(i: Input, ends: Ends, x: usize) -> Input {
    match ends {
        Ends::CutInFront => between(after(i.first, from_one(x, 8)), i.end, i),
        Ends::CutBehind => between(i.start, before(i.end, from_one(x, 8)), i),
        Ends::TooLong => between(0, BUFFER, i),
        Ends::Longest => between(1, BUFFER, i),
    }
}

// At most 63 bytes that nobody wrote as a record, with a mark and a small distance.
fn unmake(bytes: &mut [u8], i: Input, x: usize) -> Input {
    fill(bytes, x);
    put_word(bytes, BUFFER - 4, draw(x, 64));
    put_word(
        bytes,
        BUFFER - 2,
        if draw(state(x, 2), 2) == 0 {
            20555
        } else {
            20811
        },
    );
    between(before(BUFFER, draw(state(x, 1), 64)), BUFFER, i)
}

// Nothing in 8 of 32 turns.
fn damage(d: Draft, bytes: &mut [u8], i: Input, seed: usize) -> Input {
    let n = draw(state(seed, 5), 32);
    let x = state(seed, 6);
    if n < 8 {
        i
    } else if n < 27 {
        change_record(d, bytes, i, CHANGES[n % 8], x);
        i
    } else if n < 28 {
        unmake(bytes, i, x)
    } else {
        cut(i, OTHER_ENDS[n % 4], x)
    }
}

// Every other input has no second damage.
pub fn make(case: usize, bytes: &mut [u8]) -> Input {
    let seed = state(case, case);
    let d = drawn(seed);
    let i = placed(d, seed);
    fill(bytes, seed);
    write(d, bytes, i.last);
    let once = damage(d, bytes, i, state(seed, 400));
    if case % 2 == 0 {
        once
    } else {
        damage(d, bytes, once, state(seed, 401))
    }
}
