// The writer of records: right and wrong inputs in all combinations, then drawn plans. What is written is read back.
use crate::format::{record_byte, write_refusal};
use crate::numbers::{
    UNTOUCHED, compared, drawn_length, holds, length_of, planned_said, verdict_said,
};
use crate::shapes::{
    SPOILS, Shape, TABLE, TABLE_AND_ONE, WRONG_SHAPES, drawn_damage, drawn_shape, plan_of,
    record_size, spoil, symbols, wrong_shape,
};
use arithmetic::Symbol;
use records::{read_record, write_record};
use testing::{byte_at, clip, draw, fill, over, seed};

// What each byte of a buffer is before a call.
const UNWRITTEN: u8 = 238;

// Room for the largest record and one byte more.
const ROOM: usize = 1037;

// All wrong shapes with 3 lengths of the table and 3 of the buffer; and those with all kinds of symbols.
const WITH_LENGTHS: usize = WRONG_SHAPES * 9;

const WRONG: usize = WITH_LENGTHS * SPOILS;

// Whether the buffer is the record; where it is refused, what it was before.
fn holds_record(s: Shape, t: &[Symbol], b: &[u8], number: usize) -> bool {
    for i in 0..b.len() {
        if byte_at(b, i) != over(number > 0, UNWRITTEN as usize, record_byte(s, t, i) % 256) {
            return false;
        }
    }
    true
}

// The plan and the lent table, which is the table and zeros; where nothing was written, no record is there.
fn is_read_back(s: Shape, t: &[Symbol], b: &[u8], number: usize) -> bool {
    let mut lent = [UNTOUCHED; TABLE];
    let said = planned_said(read_record(b, &mut lent), s);
    said == over(number > 0, 5, 0) && holds(&lent, number, t)
}

fn judged(s: Shape, t: &[Symbol], b: &mut [u8]) -> usize {
    let number = write_refusal(s, t, b.len());
    let answer = verdict_said(write_record(plan_of(s), t, b));
    let same = holds_record(s, t, b, number) && is_read_back(s, t, b, number);
    compared(answer, number, same)
}

// First what is wrong, of which the last is right in all but the shape. The others are right.
pub fn written(number: usize) -> usize {
    let wrong = clip(number, WRONG - 1);
    let s = if number > wrong {
        drawn_shape(number)
    } else {
        wrong_shape(number)
    };
    let x = seed(number);
    let n = symbols(s);
    let mut t = [0 as Symbol; TABLE_AND_ONE];
    let mut b = [UNWRITTEN; ROOM];
    fill(&mut t, s.q, x);
    spoil(&mut t, draw(x, n), s.q, drawn_damage(wrong / WITH_LENGTHS));
    let table = drawn_length(wrong / WRONG_SHAPES % 3);
    let buffer = drawn_length(wrong / WRONG_SHAPES / 3 % 3);
    let k = clip(length_of(n, table), TABLE_AND_ONE);
    let m = clip(length_of(record_size(s), buffer), ROOM);
    judged(s, &t[..k], &mut b[..m])
}
