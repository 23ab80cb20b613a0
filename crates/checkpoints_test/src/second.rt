// The second implementation: a state's number from the last check to the first, each byte of a save by its place, and a save read from digits.
use arithmetic::Symbol;
use plans::Plan;
use rounds::{Held, RelayRound, Round};
use std::num::{wrapping_add_usize, wrapping_sub_usize};
use testing::{
    at, byte_at, clip, is_outside, is_prime, mul_add, narrow, narrow16, over, power, prime,
    product, wide, wide16, word_at,
};

// How many of a row's sums are too large: past the length every one but 0.
fn large(sums: &[Symbol; Plan::MAX_LENGTH], q: usize, length: usize) -> usize {
    let mut n: usize = 0;
    for p in 0usize..64 {
        let bound = over(p < length, q, 1);
        n = wrapping_add_usize(n, over(wide(sums[p]) >= bound, 1, 0));
    }
    n
}

// The primes that states are drawn with are told from a list, and any other number, as a damaged save has, by trying divisors.
fn is_good(q: usize) -> bool {
    for n in 0usize..11 {
        if prime(n) == q {
            return true;
        }
    }
    is_prime(q)
}

// 1, 2, 9, 8, 3.
pub fn state_number(state: RelayRound) -> usize {
    let r = state.round;
    let h = state.ahead;
    let first = r.sums;
    let second = h.sums;
    let q = wide(r.q);
    let rolls = power(65536, 2, clip(r.size, 15));
    let three = wrapping_add_usize(large(&first, q, r.length), large(&second, q, r.length)) > 0;
    let unknown = is_outside(state.cluster, r.clusters);
    let eight = wide16(r.reported) >= rolls || wide16(h.reported) >= rolls || unknown;
    let late = over(eight, 8, over(three, 3, 0));
    let two = over(!is_good(q), 2, over(is_outside(r.length, 64), 9, late));
    let one = is_outside(r.clusters, 8) || is_outside(r.size, 8);
    over(one || product(r.clusters, r.size) > 16, 1, two)
}

pub fn size(length: usize) -> usize {
    mul_add(20, 8, length)
}

fn digit(n: usize, k: usize) -> usize {
    match k {
        0 => n % 256,
        1 => n / 256 % 256,
        2 => n / 65536 % 256,
        _ => n / 16777216 % 256,
    }
}

// Byte k of the head.
fn head_byte(state: RelayRound, k: usize) -> usize {
    let r = state.round;
    let h = state.ahead;
    match k {
        0 => r.clusters,
        1 => r.size,
        2 => state.cluster,
        3 => r.length,
        4..=7 => digit(wide(r.q), k % 4),
        8..=11 => digit(wide(r.number), k % 4),
        12 | 13 => digit(wide16(r.reported), k % 2),
        _ => digit(wide16(h.reported), k % 2),
    }
}

// Byte k of a trailer: the bytes of the whole save, and the mark.
fn trailer_byte(size: usize, k: usize) -> usize {
    match k {
        0 => size % 256,
        1 => size / 256,
        2 => 75,
        _ => 82,
    }
}

// Byte k of a save.
pub fn save_byte(state: RelayRound, k: usize) -> usize {
    let r = state.round;
    let h = state.ahead;
    let sums = r.sums;
    let held = h.sums;
    if k < 16 {
        return head_byte(state, k);
    }
    let i = k / 4 - 4;
    if i < r.length {
        return digit(at(&sums, i), k % 4);
    }
    let j = wrapping_sub_usize(i, r.length);
    if j < r.length {
        digit(at(&held, j), k % 4)
    } else {
        trailer_byte(size(r.length), k % 4)
    }
}

// The end of the save before the one that ends at e, 0 where e has no trailer.
fn previous(b: &[u8], e: usize) -> usize {
    let d = word_at(b, wrapping_sub_usize(e, 4));
    let marked = word_at(b, wrapping_sub_usize(e, 2)) == 21067;
    over(
        e >= 20 && marked && d >= 20 && d <= e,
        wrapping_sub_usize(e, d),
        18446744073709551615,
    )
}

// Where the save of the used bytes ends that lies so many steps back, and 0 where it is lost. No buffer here has 64 saves.
pub fn end(b: &[u8], used: usize, steps: usize) -> usize {
    let mut e = used;
    for _ in 0..clip(steps, 64) {
        e = previous(b, e);
        e = over(e > used, 0, e);
    }
    over(previous(b, e) > used, 0, e)
}

// A number of four bytes.
fn number(b: &[u8], i: usize) -> usize {
    word_at(b, wrapping_add_usize(i, 2)) % 65536 * 65536 + word_at(b, i) % 65536
}

fn row(b: &[u8], i: usize, length: usize) -> [Symbol; Plan::MAX_LENGTH] {
    let mut sums = [0; Plan::MAX_LENGTH];
    for p in 0usize..64 {
        sums[p] = narrow(over(p < length, number(b, mul_add(i, 4, p)), 0));
    }
    sums
}

// The round of a save that begins at s.
pub fn read(b: &[u8], s: usize) -> RelayRound {
    let length = byte_at(b, wrapping_add_usize(s, 3));
    let sums = row(b, wrapping_add_usize(s, 16), length);
    let held = row(b, mul_add(wrapping_add_usize(s, 16), 4, length), length);
    RelayRound {
        cluster: byte_at(b, wrapping_add_usize(s, 2)),
        round: Round {
            clusters: byte_at(b, s),
            size: byte_at(b, wrapping_add_usize(s, 1)),
            q: narrow(number(b, wrapping_add_usize(s, 4))),
            length,
            number: narrow(number(b, wrapping_add_usize(s, 8))),
            reported: narrow16(word_at(b, wrapping_add_usize(s, 12))),
            sums,
        },
        ahead: Held {
            reported: narrow16(word_at(b, wrapping_add_usize(s, 14))),
            sums: held,
        },
    }
}

// 5, 1, 9, 4, 2, 8, 3.
pub fn read_number(b: &[u8], used: usize, steps: usize) -> usize {
    let e = end(b, used, steps);
    let d = word_at(b, wrapping_sub_usize(e, 4));
    let read = read(b, wrapping_sub_usize(e, d));
    let r = read.round;
    let first = state_number(read);
    let nine = is_outside(r.length, 64);
    let late = over(nine, 9, over(d != size(r.length), 4, first));
    over(e == 0, 5, over(first == 1, 1, late))
}
