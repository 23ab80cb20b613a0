// Runs of symbols and of bytes. 0 past the end, so that no caller has to show that a place is inside; a write there changes nothing.
ghost use Rattle.std.specs.Prelude.{◌≡◌, ◌%◌};
ghost use Rattle.testing.specs.Numbers.{symbol_of};
ghost use Rattle.testing.specs.Slices.{at, word_at, replaced, filled, filled_bytes, same_front, large_of, column_of};

use crate::numbers::{drawn, mul_add, narrow, residue, state, wide};
use arithmetic::Symbol;

fn wide8(a: u8) -> usize
    ensures { result ≡ a }
{
    a as usize
}

pub fn at(t: &[Symbol], i: usize) -> usize
    ensures { result ≡ at t.now i }
{
    if i < t.len() { wide(t[i]) } else { 0 }
}

pub fn put(t: &mut [Symbol], i: usize, a: usize)
    ensures { t.new ≡ replaced t.old i (symbol_of a) }
{
    if i < t.len() {
        t[i] = narrow(a);
    }
}

pub fn byte_at(b: &[u8], i: usize) -> usize
    ensures { result ≡ at b.now i }
{
    if i < b.len() { wide8(b[i]) } else { 0 }
}

pub fn put_byte(b: &mut [u8], i: usize, a: usize)
    ensures { b.new ≡ replaced b.old i (a % 256) }
{
    if i < b.len() {
        b[i] = (a % 256) as u8;
    }
}

// Two bytes as a number, low first. No place is after the last one that a number can say.
pub fn word_at(b: &[u8], i: usize) -> usize
    ensures { result ≡ word_at b.now i }
{
    if i < b.len() {
        byte_at(b, i) + byte_at(b, i + 1) * 256
    } else {
        0
    }
}

// Numbers drawn from a seed, below q.
pub fn fill(t: &mut [Symbol], q: usize, x: usize)
    ensures { t.new ≡ filled q x t.old }
{
    for i in 0..t.len() {
        put(t, i, residue(state(x, i), q));
    }
}

// Bytes drawn from a seed.
pub fn fill_bytes(b: &mut [u8], x: usize)
    ensures { b.new ≡ filled_bytes x b.old }
{
    for i in 0..b.len() {
        put_byte(b, i, drawn(x, i));
    }
}

// Whether the second run, with zeros past it, begins as the first one.
pub fn same(s: &[Symbol], t: &[Symbol]) -> bool
    ensures { result ≡ same_front s.now t.now }
{
    for i in 0..s.len() {
        if at(s, i) != at(t, i) {
            return false;
        }
    }
    true
}

// How many numbers are not below q.
pub fn count_large(t: &[Symbol], q: usize) -> usize
    ensures { result ≡ large_of q t.now }
{
    let mut n: usize = 0;
    for i in 0..t.len() {
        if at(t, i) >= q {
            n += 1;
        }
    }
    n
}

// The sum of column k of a table, not reduced: of at most 65,535 rows, so that it fits.
pub fn column_sum(t: &[Symbol], rows: usize, cols: usize, k: usize) -> usize
    ensures { result ≡ column_of t.now (rows % 65536) cols k }
{
    let n = rows % 65536;
    let mut sum: usize = 0;
    for i in 0..n {
        sum += at(t, mul_add(k, i, cols));
    }
    sum
}
