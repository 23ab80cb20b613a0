// Which pair leaks first, by literal counting: for each set of readings, how many source keys show each view. No rank, and no elimination.
// Blocks have one position: where a pair leaks with longer blocks, it does so with these (proved: leak-is-small, and of joint views
// set-small-leak).
use crate::numbers::{ones, pack};
use crate::tables::{MANY_SETS, Shape, entry, sets, users};
use arithmetic::Symbol;
use std::num::{wrapping_add_u8, wrapping_add_usize, wrapping_sub_u8};
use testing::{mul_add, narrow16, power, product, quotient, residue};

// A coalition and an observer, 0 for the server; of a joint observer two relays, else the other is 0.
#[derive(Clone, Copy, Debug, PartialEq, Eq)]
struct Pair {
    coalition: usize,
    observer: usize,
    other: usize,
}

// A view as one number, a digit to the base q for each symbol; and the sum of the cluster that is being gone through.
#[derive(Clone, Copy, Debug, PartialEq, Eq)]
struct Part {
    number: usize,
    sum: usize,
}

// The key of user i: its row times the source symbols, which are the digits of n to the base q.
fn key_of(s: Shape, t: &[Symbol], i: usize, n: usize) -> usize {
    let rate = s.rate;
    let mut sum: usize = 0;
    let mut digits = n;
    for k in 0..rate {
        sum = mul_add(sum, entry(s, t, i, k), residue(digits, s.q));
        digits = quotient(digits, s.q);
    }
    residue(sum, s.q)
}

fn low8(a: usize) -> u8 {
    (a % 256) as u8
}

fn wide8(a: u8) -> usize {
    a as usize
}

// The keys of all users from every source key, source key by source key.
fn fill_keys(s: Shape, t: &[Symbol], keys: &mut [u8; 512]) {
    let n = users(s);
    for x in 0usize..512 {
        keys[x] = low8(key_of(s, t, residue(x, n), quotient(x, n)));
    }
}

fn key_at(keys: &[u8; 512], x: usize) -> usize {
    wide8(keys[x % 512])
}

fn append(q: usize, number: usize, symbol: usize) -> usize {
    mul_add(symbol, number, q)
}

// The server sees the sum of a cluster after its last user.
fn seen_by_server(s: Shape, i: usize, upload: usize, v: Part) -> Part {
    let sum = residue(v.sum % 65536 + upload % 65536, s.q);
    if residue(i % 65536 + 1, s.size) == 0 {
        Part {
            number: append(s.q, v.number, sum),
            sum: 0,
        }
    } else {
        Part {
            number: v.number,
            sum,
        }
    }
}

// A relay sees the uploads of its cluster, a joint observer those of both.
fn seen(s: Shape, p: Pair, i: usize, upload: usize, v: Part) -> Part {
    if p.observer == 0 {
        return seen_by_server(s, i, upload, v);
    }
    let relay = quotient(i, s.size) % 65536 + 1;
    if relay != p.observer && relay != p.other {
        v
    } else {
        Part {
            number: append(s.q, v.number, upload),
            sum: 0,
        }
    }
}

// A member of the coalition gives its key.
fn given(q: usize, member: bool, key: usize, v: Part) -> Part {
    if !member {
        v
    } else {
        Part {
            number: append(q, v.number, key),
            sum: v.sum,
        }
    }
}

// The view with readings w and source key n, both numbers with digits to the base q. A member's reading belongs to the view too, but it is
// the same in both sets of readings that are compared, and is left out.
fn view(s: Shape, keys: &[u8; 512], p: Pair, w: usize, n: usize) -> u16 {
    let many = users(s);
    let mut v = Part { number: 0, sum: 0 };
    let mut members = p.coalition;
    let mut readings = w;
    for i in 0..many {
        let key = key_at(keys, mul_add(i, n, many));
        let upload = residue(residue(readings, s.q) % 65536 + key % 65536, s.q);
        v = seen(s, p, i, upload, v);
        v = given(s.q, members % 2 == 1, key, v);
        members = members / 2;
        readings = quotient(readings, s.q);
    }
    narrow16(v.number)
}

fn increase(counts: &mut [u8; 65536], v: u16) {
    counts[v as usize] = wrapping_add_u8(counts[v as usize], 1);
}

fn decrease(counts: &mut [u8; 65536], v: u16) {
    counts[v as usize] = wrapping_sub_u8(counts[v as usize], 1);
}

// For every view: how many source keys show it with readings w, less how many show it with readings z. No count reaches 128.
fn count(s: Shape, keys: &[u8; 512], p: Pair, w: usize, z: usize, counts: &mut [u8; 65536]) {
    let all = power(65536, s.q, s.rate);
    for n in 0..all {
        increase(counts, view(s, keys, p, w, n));
        decrease(counts, view(s, keys, p, z, n));
    }
}

// Makes a count 0; whether it was.
fn clear(counts: &mut [u8; 65536], v: u16) -> bool {
    let zero = counts[v as usize] == 0;
    counts[v as usize] = 0;
    zero
}

// Makes the counts of all views of readings w 0; whether they were.
fn clear_all(s: Shape, keys: &[u8; 512], p: Pair, w: usize, counts: &mut [u8; 65536]) -> bool {
    let all = power(65536, s.q, s.rate);
    let mut zero = true;
    for n in 0..all {
        let was = clear(counts, view(s, keys, p, w, n));
        zero = zero && was;
    }
    zero
}

// Whether some view has unequal numbers.
fn differ(
    s: Shape,
    keys: &[u8; 512],
    p: Pair,
    w: usize,
    z: usize,
    counts: &mut [u8; 65536],
) -> bool {
    count(s, keys, p, w, z, counts);
    let first = clear_all(s, keys, p, w, counts);
    let second = clear_all(s, keys, p, z, counts);
    !(first && second)
}

// What is kept of readings, their place, and for those that are not kept their sum and the first one's place.
#[derive(Clone, Copy, Debug, PartialEq, Eq)]
struct Kept {
    readings: usize,
    place: usize,
    sum: usize,
    free: usize,
}

fn keep(q: usize, k: Kept, member: bool, digit: usize) -> Kept {
    let place = product(k.place, q);
    if member {
        Kept {
            readings: mul_add(k.readings, k.place, digit),
            place,
            sum: k.sum,
            free: k.free,
        }
    } else {
        Kept {
            readings: k.readings,
            place,
            sum: k.sum % 65536 + digit % 65536,
            free: if k.free == 0 { k.place } else { k.free },
        }
    }
}

// One set of readings for all that agree: members of the coalition keep theirs, all others have 0; for the server the first other has the sum
// of the others. Since all that agree are compared with the same one, every two of them are.
fn agreeing(s: Shape, p: Pair, w: usize) -> usize {
    let many = users(s);
    let mut k = Kept {
        readings: 0,
        place: 1,
        sum: 0,
        free: 0,
    };
    let mut members = p.coalition;
    let mut readings = w;
    for i in 0..many {
        k = keep(s.q, k, members % 2 == 1, residue(readings, s.q));
        members = members / 2;
        readings = quotient(readings, s.q);
    }
    if p.observer != 0 {
        k.readings
    } else {
        mul_add(k.readings, k.free, residue(k.sum, s.q))
    }
}

fn leaks(s: Shape, keys: &[u8; 512], p: Pair, counts: &mut [u8; 65536]) -> bool {
    let all = power(65536, s.q, users(s));
    for w in 0..all {
        if differ(s, keys, p, w, agreeing(s, p, w), counts) {
            return true;
        }
    }
    false
}

// The place of an observer in the order of the walk: relays 1 to U, then the server.
fn observer(s: Shape, n: usize) -> usize {
    residue(n % 65536 + 1, s.clusters % 65536 + 1)
}

// A number for each observer of the largest plan: so many for each coalition.
const OBSERVERS: usize = 9;

// Pair number x of the walk.
fn nth_pair(s: Shape, x: usize) -> Pair {
    Pair {
        coalition: x / OBSERVERS,
        observer: observer(s, x % OBSERVERS),
        other: 0,
    }
}

// Whether pair number x is one of the plan's.
fn is_pair(s: Shape, x: usize) -> bool {
    x % OBSERVERS <= s.clusters && ones(x / OBSERVERS, users(s)) <= s.limit
}

// Whether it is, and leaks.
fn leaks_at(s: Shape, keys: &[u8; 512], x: usize, counts: &mut [u8; 65536]) -> bool {
    is_pair(s, x) && leaks(s, keys, nth_pair(s, x), counts)
}

// The answer that names pair number x.
fn named(s: Shape, x: usize) -> usize {
    let p = nth_pair(s, x);
    pack(7, p.coalition, p.observer)
}

fn pair_numbers(s: Shape) -> usize {
    sets(s) % MANY_SETS * OBSERVERS
}

// The first pair that leaks, packed with the number 7; 0 where none does.
fn first_leak(s: Shape, keys: &[u8; 512], counts: &mut [u8; 65536]) -> usize {
    let all = pair_numbers(s);
    for x in 0..all {
        if leaks_at(s, keys, x, counts) {
            return named(s, x);
        }
    }
    0
}

// How many pairs the plan has up to the one that an answer names, with it; all of them where it names none.
pub fn place_of(s: Shape, answer: usize) -> usize {
    let all = pair_numbers(s);
    let mut place: usize = 0;
    for x in 0..all {
        if is_pair(s, x) {
            place = wrapping_add_usize(place, 1);
            if named(s, x) == answer {
                return place;
            }
        }
    }
    place
}

// The first pair that leaks, from a key table and counts that are all 0, as they are left.
pub fn leak_of(s: Shape, t: &[Symbol], counts: &mut [u8; 65536]) -> usize {
    let mut keys = [0u8; 512];
    fill_keys(s, t, &mut keys);
    first_leak(s, &keys, counts)
}

// Whether a coalition of at most T users leaks to the joint observer of two relays.
fn leaks_jointly(s: Shape, keys: &[u8; 512], p: Pair, counts: &mut [u8; 65536]) -> bool {
    ones(p.coalition, users(s)) <= s.limit && leaks(s, keys, p, counts)
}

// The first coalition that does, packed with the number 19; 0 where none does.
fn first_joint(
    s: Shape,
    keys: &[u8; 512],
    observer: usize,
    other: usize,
    counts: &mut [u8; 65536],
) -> usize {
    let all = sets(s);
    for coalition in 0..all {
        let p = Pair {
            coalition,
            observer,
            other,
        };
        if leaks_jointly(s, keys, p, counts) {
            return pack(19, coalition, 0);
        }
    }
    0
}

// The same from a key table.
pub fn joint_leak_of(
    s: Shape,
    t: &[Symbol],
    observer: usize,
    other: usize,
    counts: &mut [u8; 65536],
) -> usize {
    let mut keys = [0u8; 512];
    fill_keys(s, t, &mut keys);
    first_joint(s, &keys, observer, other, counts)
}
