// Signed numbers in 64 bits. Every function takes every number, so that what calls it has nothing to show.
ghost use Rattle.std.specs.Prelude.{◌^◌, ◌≤◌, unsigned_abs};

use arithmetic::Symbol;
use testing::clip;

// Further from 0 than any number that is met here.
const FAR: i64 = 2305843009213693952;

// The place of the last signed number of 32 bits, the least of all.
pub const LAST: usize = 4294967295;

fn near(a: i64) -> i64
    ensures { unsigned_abs result ≤ 2 ^ 61 }
{
    if FAR < a {
        FAR
    } else if a < -FAR {
        -FAR
    } else {
        a
    }
}

pub fn plus(a: i64, b: i64) -> i64 {
    near(a) + near(b)
}

pub fn minus(a: i64, b: i64) -> i64 {
    near(a) - near(b)
}

// With the sign of n; 0 where q is 0.
fn remainder(q: Symbol, n: i64) -> i64 {
    if q == 0 { 0 } else { n % (q as i64) }
}

// The number of 0 to q - 1 that leaves the same.
pub fn least(q: Symbol, n: i64) -> i64 {
    let r = remainder(q, n);
    if r < 0 { plus(r, q as i64) } else { r }
}

// The number of -(q - 1) / 2 to (q - 1) / 2 that leaves the same, of an odd q.
pub fn nearest(q: Symbol, n: i64) -> i64 {
    let r = remainder(q, n);
    let half = (q / 2) as i64;
    if half < r {
        minus(r, q as i64)
    } else if r < minus(0, half) {
        plus(r, q as i64)
    } else {
        r
    }
}

pub fn of_reading(w: i32) -> i64 {
    w as i64
}

// Number n of 0, -1, 1, -2, 2 and so on to the least number of 32 bits: 2 w for a w of at least 0, and 2 m - 1 for -m.
pub fn reading(n: usize) -> i32 {
    let half = (clip(n, LAST) / 2) as i32;
    if clip(n, LAST) % 2 == 0 {
        half
    } else {
        -1 ^ half
    }
}

// 0 past the end; a write there changes nothing.
pub fn reading_at(t: &[i32], i: usize) -> i64 {
    if i < t.len() { of_reading(t[i]) } else { 0 }
}

pub fn put_reading(t: &mut [i32], i: usize, w: i32) {
    if i < t.len() {
        t[i] = w;
    }
}

fn of_symbol(a: Symbol) -> i64 {
    a as i64
}

pub fn symbol_at(t: &[Symbol], i: usize) -> i64 {
    if i < t.len() { of_symbol(t[i]) } else { 0 }
}
