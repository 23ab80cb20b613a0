// The reader on records with one byte changed, with bytes missing in front, in the back or added, with lent tables of all kinds of lengths, and on
// records that are written as the other kind or end with the other kind's mark.
use crate::format::{read_refusal, record_byte, shape_at, start, table_at};
use crate::numbers::{UNTOUCHED, compared, holds, planned_said};
use crate::shapes::{Shape, TABLE, TABLE_AND_ONE, drawn_shape, record_size, symbols};
use arithmetic::Symbol;
use records::read_record;
use std::num::{wrapping_add_usize, wrapping_sub_usize};
use testing::{byte_at, clip, count_large, draw, drawn, fill, over, put_byte, residue, seed, step};

// Drawn bytes before a record, and room for them, the largest record of 1,036 bytes, and some drawn bytes after it.
const BEFORE: usize = 64;

const ROOM: usize = 1120;

// A buffer is a part of the drawn bytes before, a record, and drawn bytes: where it starts, its length, the byte that is changed, and what is added
// to it. `lent` is the length of the lent table.
#[derive(Clone, Copy, Debug, PartialEq, Eq)]
pub struct Reading {
    pub number: usize,
    pub shape: Shape,
    pub skip: usize,
    pub length: usize,
    pub place: usize,
    pub change: usize,
    pub lent: usize,
}

// What a byte is changed by: 1 up, 1 down, its highest bit, or anything.
fn change(number: usize) -> usize {
    match number % 4 {
        0 => 1,
        1 => 255,
        2 => 128,
        _ => draw(seed(number), 256),
    }
}

// Each byte of 16 records in turn, 7 of them wide, the trailer first; the longest has 540. The last byte 1 up in an old record, or 1 down in a wide one, is
// the other kind's.
pub fn damaged(number: usize) -> Reading {
    let shape = drawn_shape(number / 4 % 16);
    let size = record_size(shape) % 65536;
    let skip = draw(seed(number), BEFORE + 1);
    let length = wrapping_sub_usize(size + BEFORE, skip);
    Reading {
        number,
        shape,
        skip,
        length,
        place: wrapping_sub_usize(length, residue(number / 64, size) % 65536 + 1),
        change: change(number),
        lent: TABLE,
    }
}

// Up to 99 bytes missing in front, the last 35 of them the record's; or, in one of seven, some missing in the back or up to 5 added there.
pub fn cut(number: usize) -> Reading {
    let shape = drawn_shape(number % 512);
    let size = record_size(shape) % 65536;
    let x = seed(number);
    let back = draw(x, 7) == 0;
    let skip = over(back, 0, draw(step(x), 100));
    let end = over(back, draw(seed(x), size + BEFORE + 6), size + BEFORE);
    Reading {
        number,
        shape,
        skip,
        length: over(end < skip, 0, wrapping_sub_usize(end, skip)),
        place: ROOM,
        change: 0,
        lent: TABLE,
    }
}

// How long the lent table is: right, or empty, one symbol too short, one too long, or with just as many as the record has.
#[derive(Clone, Copy, Debug, PartialEq, Eq)]
enum LentTable {
    Right,
    Empty,
    OneLess,
    OneMore,
    AsTheRecord,
}

fn drawn_lent_table(number: usize) -> LentTable {
    match number {
        0 => LentTable::Empty,
        1 => LentTable::OneLess,
        2 => LentTable::OneMore,
        3 => LentTable::AsTheRecord,
        _ => LentTable::Right,
    }
}

fn lent_length(table: LentTable, count: usize) -> usize {
    match table {
        LentTable::Right => TABLE,
        LentTable::Empty => 0,
        LentTable::OneLess => TABLE - 1,
        LentTable::OneMore => TABLE_AND_ONE,
        LentTable::AsTheRecord => count % TABLE,
    }
}

// The whole record with a lent table that may be of the wrong length; a symbol or count may be wrong too.
pub fn lent(number: usize) -> Reading {
    let shape = drawn_shape(number / 8 % 512);
    let size = record_size(shape);
    Reading {
        number,
        shape,
        skip: BEFORE,
        length: size,
        place: draw(seed(number), size),
        change: number % 2,
        lent: lent_length(drawn_lent_table(number % 8), symbols(shape)),
    }
}

// A shape written as the other kind: an old record has the lower halves of q and of the symbols.
fn other_kind(s: Shape) -> Shape {
    Shape {
        clusters: s.clusters,
        size: s.size,
        limit: s.limit,
        rate: s.rate,
        q: s.q,
        wide: !s.wide,
    }
}

// The own kind or the other, with its mark or the other's: bytes of an old record under the wide mark, and of a wide one under the old.
pub fn marked(number: usize) -> Reading {
    let own = drawn_shape(number / 4);
    let shape = if number % 2 == 0 {
        own
    } else {
        other_kind(own)
    };
    let size = record_size(shape);
    let to_other = over(shape.wide, 255, 1);
    Reading {
        number,
        shape,
        skip: BEFORE,
        length: size,
        place: wrapping_sub_usize(size, 1),
        change: over(number / 2 % 2 == 0, 0, to_other),
        lent: TABLE,
    }
}

// The record stands after the drawn bytes; after it there are drawn bytes again.
fn fill_buffer(s: Shape, t: &[Symbol], b: &mut [u8], skip: usize, x: usize) {
    let size = record_size(s);
    for i in 0..b.len() {
        let j = wrapping_add_usize(skip, i);
        let place = wrapping_sub_usize(j, BEFORE);
        put_byte(
            b,
            i,
            over(place < size, record_byte(s, t, place), drawn(x, j)),
        );
    }
}

fn buffer(c: Reading) -> [u8; ROOM] {
    let s = c.shape;
    let x = seed(c.number);
    let mut t = [0 as Symbol; TABLE];
    let mut b = [0u8; ROOM];
    fill(&mut t, s.q, x);
    fill_buffer(s, &t, &mut b, c.skip, x);
    let changed = wrapping_add_usize(byte_at(&b, c.place), c.change);
    put_byte(&mut b, c.place, changed);
    b
}

// What the library says of the buffer, and what it does to the lent table.
pub fn judged(b: &[u8], lent: &mut [Symbol]) -> usize {
    let first = start(b);
    let s = shape_at(b, first);
    let t = table_at(b, first, s);
    let number = read_refusal(s, count_large(&t, s.q), b.len(), first, lent.len());
    let answer = planned_said(read_record(b, lent), s);
    compared(answer, number, holds(lent, number, &t))
}

pub fn read(c: Reading) -> usize {
    let b = buffer(c);
    let n = clip(c.length, ROOM);
    let m = clip(c.lent, TABLE_AND_ONE);
    let mut lent = [UNTOUCHED; TABLE_AND_ONE];
    judged(&b[..n], &mut lent[..m])
}
