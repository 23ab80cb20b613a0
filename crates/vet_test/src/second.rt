// The second implementation, from bytes to verdict: its own trailer, counts, primes, symbols and columns, in the order of document 01.
// Only whether a plan leaks is asked of the library; another test holds that to a count.
ghost use Rattle.std.specs.Prelude.{◌≤◌};

use crate::numbers::{OLD, WIDE, after, before, joined, number_at};
use arithmetic::Symbol;
use plans::Plan;
use refusals::Code;
use testing::{byte_at, is_prime, narrow, narrow16, product, put, residue, word_at};

// What the record says, and the place of its first symbol.
#[derive(Clone, Copy, Debug, PartialEq, Eq)]
struct Head {
    clusters: usize,
    size: usize,
    limit: usize,
    rate: usize,
    q: usize,
    width: usize,
    table: usize,
}

fn plain(number: u16) -> Code {
    Code {
        number,
        first: 0,
        second: 0,
    }
}

// The bytes of a symbol that the mark says, and 0 where it is no mark: the marks are 504B and 514B, high byte first.
fn width(mark: usize) -> usize {
    match mark {
        0x504b => OLD,
        0x514b => WIDE,
        _ => 0,
    }
}

// Whether the input ends as a wide record does.
pub fn is_wide(bytes: &[u8]) -> bool {
    width(word_at(bytes, before(bytes.len(), 2))) == WIDE
}

// The distance in the trailer, and 0 where the trailer is wrong. Its four bytes are one number of 32 bits, of which the mark is the upper half.
fn distance(bytes: &[u8]) -> usize {
    let n = bytes.len();
    if n < 4 {
        return 0;
    }
    let trailer = joined(word_at(bytes, n - 4), word_at(bytes, n - 2));
    let w = width(trailer / 65536);
    if w == 0 {
        return 0;
    }
    let d = trailer % 65536;
    if n < d || d < after(8, w) { 0 } else { d }
}

fn read_head(bytes: &[u8], start: usize) -> Head {
    let width = if is_wide(bytes) { WIDE } else { OLD };
    Head {
        clusters: byte_at(bytes, start),
        size: byte_at(bytes, after(start, 1)),
        limit: byte_at(bytes, after(start, 2)),
        rate: byte_at(bytes, after(start, 3)),
        q: number_at(bytes, after(start, 4), width),
        width,
        table: after(start, after(4, width)),
    }
}

fn users(h: Head) -> usize {
    product(h.clusters, h.size)
}

fn symbols(h: Head) -> usize {
    product(users(h), h.rate)
}

fn outside(low: usize, n: usize, high: usize) -> usize
    ensures { result ≤ 1 }
{
    if n < low || n > high { 1 } else { 0 }
}

// How many bounds are broken.
fn broken(h: Head) -> usize {
    let counts = outside(1, h.clusters, 8) + outside(1, h.size, 8);
    let pool = outside(1, users(h), 16) + outside(0, h.limit, users(h));
    counts + pool + outside(1, h.rate, 16)
}

fn symbol(bytes: &[u8], h: Head, n: usize) -> usize {
    number_at(bytes, after(h.table, product(n, h.width)), h.width)
}

// How many symbols are q or more.
fn not_below(bytes: &[u8], h: Head) -> usize {
    let count = symbols(h);
    let mut found: usize = 0;
    for n in 0..count {
        if symbol(bytes, h, n) >= h.q {
            found = after(found, 1);
        }
    }
    found
}

// The sum of the symbols of column k as whole numbers, which stays far below 2^64.
fn column(bytes: &[u8], h: Head, k: usize) -> usize {
    let users = users(h);
    let mut sum: usize = 0;
    for j in 0..users {
        let n = after(product(j, h.rate), k);
        sum = after(sum, symbol(bytes, h, n));
    }
    sum
}

// The first column, from 1, whose sum is not a multiple of q; found from the last column back, and 0 where there is none.
fn first_column(bytes: &[u8], h: Head) -> usize {
    let mut first: usize = 0;
    for k in (0..h.rate).rev() {
        if residue(column(bytes, h, k), h.q) != 0 {
            first = after(k, 1);
        }
    }
    first
}

fn copy(bytes: &[u8], h: Head, table: &mut [Symbol]) {
    for n in 0..table.len() {
        put(table, n, symbol(bytes, h, n));
    }
}

fn plan(h: Head) -> Plan {
    Plan {
        clusters: h.clusters,
        size: h.size,
        limit: h.limit,
        rate: h.rate,
        q: narrow(h.q),
    }
}

// Other numbers than 0 and 7 are impossible here. 99 is no number of a refusal, so that such an answer shows.
fn leak_only(code: Code) -> Code {
    if code.number == 0 || code.number == 7 {
        code
    } else {
        plain(99)
    }
}

fn vet_table(bytes: &[u8], h: Head, table: &mut [Symbol]) -> Code {
    copy(bytes, h, table);
    leak_only(refusals::code_of_result(&vetting::vet(plan(h), table)))
}

fn leak(bytes: &[u8], h: Head) -> Code {
    let n = symbols(h);
    let mut table = [0 as Symbol; 256];
    if n > 256 {
        plain(99)
    } else {
        vet_table(bytes, h, &mut table[..n])
    }
}

// 3, 6 and 7.
fn verdict_on_table(bytes: &[u8], h: Head) -> Code {
    if not_below(bytes, h) != 0 {
        return plain(3);
    }
    let column = first_column(bytes, h);
    if column != 0 {
        Code {
            number: 6,
            first: narrow16(column),
            second: 0,
        }
    } else {
        leak(bytes, h)
    }
}

// The length of the input, then 5, 1, 4, 2 and the table.
pub fn verdict(bytes: &[u8]) -> Code {
    if bytes.len() > 65535 {
        return plain(4);
    }
    let d = distance(bytes);
    if d == 0 {
        return plain(5);
    }
    let h = read_head(bytes, before(bytes.len(), d));
    if broken(h) != 0 {
        return plain(1);
    }
    if d != after(product(symbols(h), h.width), after(8, h.width)) {
        return plain(4);
    }
    if !is_prime(h.q) || (h.width == WIDE && h.q / 65536 == 0) {
        plain(2)
    } else {
        verdict_on_table(bytes, h)
    }
}
