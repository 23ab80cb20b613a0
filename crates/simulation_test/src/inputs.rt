// The inputs: cap, number of rounds and the record of a drawn plan, left as it is or damaged. An input is made of its number alone, so that each can be looked
// at by itself; it is the first bytes of the buffer, and what is returned says how many.
use arithmetic::Symbol;
use keys::make_table;
use plans::Plan;
use records::write_record;
use std::num::{wrapping_add_usize, wrapping_sub_usize};
use testing::{
    PRIMES, clip, draw, fill_bytes, narrow, over, prime, product, put_byte, quotient, residue,
    state, wide,
};

const HEAD: usize = 8;

// One byte more than a program takes.
const TOO_LONG: usize = 65536;

const LARGEST: usize = 4294967295;

// A head and a record as they are written, the same damaged, or bytes that nobody wrote as a record.
#[derive(Clone, Copy, Debug, PartialEq, Eq)]
pub enum Kind {
    Whole,
    Damaged,
    Hostile,
}

fn after(place: usize, n: usize) -> usize {
    wrapping_add_usize(place, n)
}

fn put_word(bytes: &mut [u8], i: usize, n: usize) {
    put_byte(bytes, i, n);
    put_byte(bytes, after(i, 1), n / 256);
}

// Four bytes.
fn put_number(bytes: &mut [u8], i: usize, n: usize) {
    put_word(bytes, i, n);
    put_word(bytes, after(i, 2), n / 65536);
}

fn put_head(bytes: &mut [u8], cap: usize, rounds: usize) {
    put_number(bytes, 0, cap);
    put_number(bytes, 4, rounds);
}

// Any counts within the bounds with a low limit, and the maker's rate.
fn plan(x: usize) -> Plan {
    let clusters = after(draw(state(x, 1), 8), 1);
    let size = after(draw(state(x, 2), clip(quotient(16, clusters), 8)), 1);
    let limit = clip(draw(state(x, 3), 3), product(clusters, size));
    let few = wrapping_sub_usize(clip(after(clusters, limit), product(clusters, size)), 1);
    let many = after(size, limit);
    Plan {
        clusters,
        size,
        limit,
        rate: over(few > many, few, many),
        q: narrow(prime(draw(state(x, 4), PRIMES))),
    }
}

// The largest cap that the plan has room for, the one above it, or any.
fn cap(p: Plan, x: usize) -> usize {
    let room = quotient(
        wrapping_sub_usize(wide(p.q), 1),
        product(2, product(p.clusters, p.size)),
    );
    match draw(x, 8) {
        0 => 0,
        1 => room,
        2 => after(room, 1),
        3 => LARGEST,
        _ => after(residue(state(x, 1), room), 1),
    }
}

// Few rounds in most inputs.
fn rounds(x: usize) -> usize {
    match draw(x, 64) {
        0 => 0,
        1 => 10001,
        2 => LARGEST,
        3 => 300,
        _ => after(draw(state(x, 1), 6), 1),
    }
}

// The record from a place on, and the place after it; 0 where it has no room.
fn write(p: Plan, table: &[Symbol], bytes: &mut [u8], from: usize) -> usize {
    let width = over(wide(p.q) < 65536, 2, 4);
    let end = after(from, after(after(8, width), product(width, table.len())));
    if from <= end && end <= bytes.len() {
        let _ = write_record(p, table, &mut bytes[from..end]);
        end
    } else {
        0
    }
}

// The maker's table, or where it makes none a table of zeros.
fn write_made(p: Plan, x: usize, table: &mut [Symbol], bytes: &mut [u8], from: usize) -> usize {
    let generator = narrow(residue(state(x, 5), wide(p.q)));
    let _ = make_table(p.clusters, p.size, p.limit, p.q, generator, table);
    write(p, table, bytes, from)
}

fn write_plan(p: Plan, x: usize, bytes: &mut [u8], from: usize) -> usize {
    let n = product(product(p.clusters, p.size), p.rate);
    let mut table = [0 as Symbol; 256];
    if n > 256 {
        0
    } else {
        write_made(p, x, &mut table[..n], bytes, from)
    }
}

// Cut short, far too long, just not too long, or one byte changed, often one of the last.
fn damage(bytes: &mut [u8], end: usize, x: usize) -> usize {
    let n = draw(x, 32);
    if n < 3 {
        draw(state(x, 1), after(end, 1))
    } else if n < 4 {
        wrapping_sub_usize(TOO_LONG, draw(state(x, 1), 2))
    } else {
        let near = wrapping_sub_usize(end, after(draw(state(x, 2), 6), 1));
        put_byte(
            bytes,
            over(n < 12, near, draw(state(x, 2), end)),
            state(x, 3) / 256,
        );
        end
    }
}

fn fill_front(bytes: &mut [u8], end: usize, x: usize) {
    if end <= bytes.len() {
        fill_bytes(&mut bytes[..end], x);
    }
}

// The distance back, and one of the two marks.
fn put_trailer(bytes: &mut [u8], end: usize, distance: usize, wide: bool) {
    put_word(bytes, wrapping_sub_usize(end, 4), distance);
    put_word(
        bytes,
        wrapping_sub_usize(end, 2),
        over(wide, 0x514b, 0x504b),
    );
}

// Bytes that nobody wrote as a record, with few rounds, small counts, a mark and a distance that often fits the counts.
fn hostile(bytes: &mut [u8], x: usize) -> usize {
    let fits = after(12, product(2, draw(state(x, 1), 5)));
    let size = over(draw(state(x, 6), 4) == 0, draw(state(x, 1), 64), fits);
    let end = after(HEAD, size);
    fill_front(bytes, end, x);
    put_head(bytes, draw(state(x, 2), 4), after(draw(state(x, 3), 4), 1));
    put_number(
        bytes,
        HEAD,
        over(draw(state(x, 4), 2) == 0, 0x01000101, 0x01010102),
    );
    put_trailer(bytes, end, size, draw(state(x, 5), 2) == 0);
    end
}

// Up to three bytes stand between the head and the record.
fn whole(bytes: &mut [u8], x: usize) -> usize {
    let p = plan(x);
    put_head(bytes, cap(p, state(x, 6)), rounds(state(x, 7)));
    write_plan(p, x, bytes, after(HEAD, draw(state(x, 8), 4)))
}

pub fn make(kind: Kind, case: usize, bytes: &mut [u8]) -> usize {
    let x = state(case, case);
    match kind {
        Kind::Whole => whole(bytes, x),
        Kind::Damaged => {
            let end = whole(bytes, x);
            damage(bytes, end, state(x, 9))
        }
        Kind::Hostile => hostile(bytes, x),
    }
}
