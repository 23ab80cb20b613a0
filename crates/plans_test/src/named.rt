// Plans: their constructor and checks, and the cases that documents 01 and 02 want run: the edges of q, L and U, and of wide records; and plans of the
// largest size.
use crate::individual::dealt;
use crate::making::table;
use crate::numbers::{
    Length, UNTOUCHED, compared, drawn_length, holds, length_of, planned_said, verdict_said,
};
use crate::reading::judged;
use crate::shapes::{
    SPOILS, Shape, TABLE, TABLE_AND_ONE, WRONG_SHAPES, bounds_number, drawn_damage, drawn_shape,
    plan_of, prime_number, shape_of, spoil, symbols, wrong_shape,
};
use arithmetic::Symbol;
use keys::make_table;
use plans::{Plan, check_plan, length_fits};
use testing::{clip, count_large, fill, is_outside, narrow, over};
use vetting::vet;

fn new_plan(s: Shape, expected: usize) -> usize {
    let planned = Plan::new(s.clusters, s.size, s.limit, s.rate, narrow(s.q));
    compared(planned_said(planned, s), expected, true)
}

// All wrong shapes, then drawn ones.
fn any_shape(number: usize) -> Shape {
    if number < WRONG_SHAPES {
        wrong_shape(number)
    } else {
        drawn_shape(number)
    }
}

pub fn constructed(number: usize) -> usize {
    let s = any_shape(number);
    new_plan(s, bounds_number(s, prime_number(s, 0)))
}

// Its bounds alone, and the bounds of a block.
fn bounds_agree(s: Shape, length: usize) -> bool {
    let fits = plan_of(s).in_bounds() == (bounds_number(s, 0) == 0);
    fits && length_fits(length) != is_outside(length, 64)
}

// A plan with a table: 1, 4, 2, 3.
fn table_checked(s: Shape, t: &[Symbol], length: usize) -> usize {
    let large = over(count_large(t, s.q) > 0, 3, 0);
    let number = over(t.len() != symbols(s), 4, prime_number(s, large));
    let verdict = check_plan(plan_of(s), t);
    compared(
        verdict_said(verdict),
        bounds_number(s, number),
        bounds_agree(s, length),
    )
}

// The table is right, too long, too short, or has a number that may be no symbol.
pub fn checked(number: usize) -> usize {
    let s = any_shape(number / 4 / SPOILS);
    let length = drawn_length(number % 4);
    let n = clip(length_of(symbols(s), length), TABLE_AND_ONE);
    let mut t = [0 as Symbol; TABLE_AND_ONE];
    fill(&mut t, s.q, number);
    spoil(&mut t, number % TABLE, s.q, drawn_damage(number % SPOILS));
    table_checked(s, &t[..n], number % 70)
}

// The small pool with blocks of the longest length, of one more, and of none; the blocks have the right length.
fn length_case(positions: usize, expected: usize) -> usize {
    let pool = shape_of(2020103, 5);
    compared(
        dealt(pool, positions, 1, Length::Right, Length::Right),
        expected,
        true,
    )
}

// The table's length is wrong too, but 1 comes first.
fn too_many_clusters() -> usize {
    let t = [0 as Symbol; 1];
    compared(
        verdict_said(vet(plan_of(shape_of(9020103, 5)), &t)),
        1,
        true,
    )
}

// 16 users and the largest limit that the maker takes: all coalitions of up to 7 are gone through.
fn largest(q: usize) -> usize {
    let s = shape_of(2080715, q);
    let other = table(s, 17, true);
    let mut t = [0 as Symbol; 240];
    let planned = make_table(2, 8, 7, narrow(q), 17, &mut t);
    compared(planned_said(planned, s), 0, holds(&t, 0, &other))
}

// What the reader answers to bytes that are written out. K is 4B, P 50 and Q 51.
fn read_bytes(bytes: &[u8], expected: usize) -> usize {
    let mut lent = [UNTOUCHED; TABLE];
    compared(judged(bytes, &mut lent), expected, true)
}

// "D under 12 is 5": 11 and 12 in a wide trailer, then 9, 10 and 11 in an old one, each back to a first byte that is there. With 10 and 12 there is no room
// for a symbol, and 11 is no old record's: 4. "A wide record with a smaller q is refused with 2": the largest q that is smaller, 65,521, and the least that
// is not, 65,537.
fn record_case(number: usize) -> usize {
    match number {
        0 => read_bytes(b"\x00\x01\x01\x00\x01\xfb\xff\xff\x0b\x00KQ", 5),
        1 => read_bytes(b"\x01\x01\x00\x01\xfb\xff\xff\xff\x0c\x00KQ", 4),
        2 => read_bytes(b"\x00\x01\x01\x00\x01\x05\x09\x00KP", 5),
        3 => read_bytes(b"\x01\x01\x00\x01\x05\x00\x0a\x00KP", 4),
        4 => read_bytes(b"\x01\x01\x00\x01\x05\x00\x00\x0b\x00KP", 4),
        5 => read_bytes(
            b"\x01\x01\x00\x01\xf1\xff\x00\x00\x01\x00\x00\x00\x10\x00KQ",
            2,
        ),
        _ => read_bytes(
            b"\x01\x01\x00\x01\x01\x00\x01\x00\x00\x00\x01\x00\x10\x00KQ",
            0,
        ),
    }
}

static MODULUS: [usize; 7] = [65521, 65535, 1, 65537, 4294967291, 4294967293, 4294967295];

static MODULUS_ANSWER: [usize; 7] = [0, 2, 2, 0, 0, 2, 2];

// Whether q is taken.
fn modulus_case(number: usize) -> usize {
    let n = clip(number, 6);
    new_plan(shape_of(2020103, MODULUS[n]), MODULUS_ANSWER[n])
}

pub const CASES: usize = 21;

pub fn tried(number: usize) -> usize {
    match number {
        0..=6 => modulus_case(number),
        7..=13 => record_case(number - 7),
        14 => length_case(64, 0),
        15 => length_case(65, 9),
        16 => length_case(0, 9),
        17 => new_plan(shape_of(9020103, 5), 1),
        18 => too_many_clusters(),
        19 => largest(65521),
        _ => largest(4294967291),
    }
}
