// The second implementation, from bytes to the five numbers of a line. It keeps no list: every value is worked out anew from the state before its round, a
// relay's sum is one sum over uploads, whoever sends when, and the last sender is found from the last frame back. What the record's reader and the vet refuse
// is asked of the library; another test holds that to an implementation of its own.
use crate::lines::Told;
use std::num::{wrapping_add_usize, wrapping_sub_usize};
use testing::{
    byte_at, is_outside, over, product, product_mod, quotient, residue, wide16, word_at,
};

// The bytes of a symbol: in an old record, and in a wide one, which ends with the mark's byte.
const OLD: usize = 2;

const WIDE: usize = 4;

const WIDE_MARK: usize = 0x51;

// Cap and number of rounds.
const HEAD: usize = 8;

const WHOLE: usize = 4294967296;

const HALF: usize = 65536;

// What the bytes say, and the place of the first symbol.
#[derive(Clone, Copy, Debug, PartialEq, Eq)]
pub struct Pool {
    pub cap: usize,
    pub rounds: usize,
    pub users: usize,
    pub size: usize,
    pub rate: usize,
    pub q: usize,
    width: usize,
    table: usize,
}

fn after(place: usize, n: usize) -> usize {
    wrapping_add_usize(place, n)
}

fn number_at(bytes: &[u8], i: usize, width: usize) -> usize {
    let low = word_at(bytes, i);
    if width == WIDE {
        low % HALF + word_at(bytes, after(i, OLD)) % HALF * HALF
    } else {
        low
    }
}

pub fn read_pool(bytes: &[u8]) -> Pool {
    let n = bytes.len();
    let mark = byte_at(bytes, wrapping_sub_usize(n, 1));
    let width = over(mark == WIDE_MARK, WIDE, OLD);
    let start = wrapping_sub_usize(n, word_at(bytes, wrapping_sub_usize(n, 4)));
    let size = byte_at(bytes, after(start, 1));
    Pool {
        cap: number_at(bytes, 0, WIDE),
        rounds: number_at(bytes, 4, WIDE),
        users: product(byte_at(bytes, start), size),
        size,
        rate: byte_at(bytes, after(start, 3)),
        q: number_at(bytes, after(start, 4), width),
        width,
        table: after(start, after(4, width)),
    }
}

// Whether 16 is due, by the largest cap that there is room for.
fn is_bad_cap(p: Pool) -> bool {
    let room = quotient(wrapping_sub_usize(p.q, 1), product(2, p.users));
    is_outside(p.cap, room)
}

// 4, 4 and 18; then the record's 5, 1, 4, 2 and 3; 16; and the vet's 6 and 7. 0 where nothing is refused.
pub fn number(bytes: &[u8]) -> usize {
    let n = bytes.len();
    if is_outside(n, 65535) || n < HEAD {
        return 4;
    }
    if is_outside(number_at(bytes, 4, WIDE), 10000) {
        return 18;
    }
    let vetted = wide16(refusals::code_of_result(&reports::vet_record(&bytes[HEAD..])).number);
    if is_outside(vetted, 5) {
        over(is_bad_cap(read_pool(bytes)), 16, vetted)
    } else {
        vetted
    }
}

fn next(s: usize) -> usize {
    (s % WHOLE * 1103515245 + 12345) % WHOLE
}

// The state after so many values.
pub fn state_after(s: usize, many: usize) -> usize {
    let mut t = s;
    for k in 0..many {
        t = next(t);
    }
    t
}

// Value k, from 0, of those after a state.
fn value(s: usize, k: usize) -> usize {
    state_after(s, after(k, 1)) / HALF % 32768
}

pub fn draws(p: Pool) -> usize {
    after(p.rate, after(p.users, p.users))
}

fn reading(p: Pool, s: usize, i: usize) -> usize {
    residue(value(s, after(p.rate, i)), after(p.cap, 1))
}

// The key of a user: its row times the key symbols.
fn key(bytes: &[u8], p: Pool, s: usize, i: usize) -> usize {
    let mut sum: usize = 0;
    for j in 0..p.rate {
        let place = after(p.table, product(p.width, after(product(i, p.rate), j)));
        let symbol = number_at(bytes, place, p.width);
        sum = after(sum, product_mod(p.q, symbol, residue(value(s, j), p.q)));
    }
    residue(sum, p.q)
}

// The uploads of the first users, added up.
fn uploads(bytes: &[u8], p: Pool, s: usize, users: usize) -> usize {
    let mut sum: usize = 0;
    for i in 0..users {
        sum = after(sum, after(reading(p, s, i), key(bytes, p, s, i)));
    }
    residue(sum, p.q)
}

fn readings(p: Pool, s: usize) -> usize {
    let mut sum: usize = 0;
    for i in 0..p.users {
        sum = after(sum, reading(p, s, i));
    }
    sum
}

// The last sender's place among so many who are owing, from one up to all: where the frame before was that of a lower or the same place, it is one higher.
fn last(p: Pool, s: usize) -> usize {
    let drawn = after(p.rate, p.users);
    let mut place: usize = 0;
    for sent in 1..p.users {
        let owing = after(sent, 1);
        let k = value(s, after(drawn, wrapping_sub_usize(p.users, owing)));
        if place >= residue(k, owing) {
            place = after(place, 1);
        }
    }
    place
}

pub fn told(bytes: &[u8], p: Pool, number: usize, s: usize) -> Told {
    Told {
        number,
        last: last(p, s),
        first: uploads(bytes, p, s, p.size),
        sum: readings(p, s),
        total: uploads(bytes, p, s, p.users),
        q: p.q,
    }
}
