// The rows of an observer's view, number by number, and their rank.
ghost use Rattle.std.specs.Prelude.{◌≡◌, ◌+◌, ◌-◌, ◌*◌, ◌≤◌, ◌<◌, length};
ghost use Rattle.cyclic.specs.Network.{weight};
ghost use Rattle.cyclic.specs.Decoding.{columns, on_reading, on_source};
ghost use Rattle.cyclic.specs.NetworkLeaks.{leaks};
ghost use Rattle.networks.specs.Rings.{network_of};
ghost use Rattle.networks.specs.Machine.{rows_seen, totals_seen, Counted, Ready};
ghost use Rattle.networks.specs.Grids.{upload_entry, relay_entry, total_entry, entry_of, grid_of, grid_rank};

use crate::Ring;
use arithmetic::{Symbol, mul_add_mod, mul_mod};
use matrices::reduce_rows;

// A coefficient of link l of user k.
pub(crate) fn weight_at(
    ring: Ring,
    table: &[Symbol],
    weights: &[Symbol],
    k: usize,
    l: usize,
    s: usize,
) -> Symbol
    requires { Ready ring table.now weights.now × (k < ring.size) × (l < ring.links) × (s ≤ ring.parts) }
    ensures { result ≡ weight (network_of ring table.now weights.now) k l s }
{
    weights[(k * ring.links + l) * (ring.parts + 1) + s]
}

// The coefficient of a relay's sum for source symbol s.
fn source_at(ring: Ring, table: &[Symbol], weights: &[Symbol], j: usize, s: usize) -> Symbol
    requires { Ready ring table.now weights.now × (j < ring.size) × (s < ring.rate) }
    ensures { result ≡ on_source (network_of ring table.now weights.now) j s }
{
    let mut sum: Symbol = 0;
    for l in 0..ring.links {
        let k = (j + l) % ring.size;
        let w = weight_at(ring, table, weights, k, l, ring.parts);
        sum = mul_add_mod(ring.q, sum, w, table[k * ring.rate + s]);
    }
    sum
}

// The coefficient of a relay's sum for symbol s of user k.
fn reading_at(
    ring: Ring,
    table: &[Symbol],
    weights: &[Symbol],
    j: usize,
    k: usize,
    s: usize,
) -> Symbol
    requires { Ready ring table.now weights.now × (j < ring.size) × (k < ring.size) × (s < ring.parts) }
    ensures { result ≡ on_reading (network_of ring table.now weights.now) j k s }
{
    let l = (k + (ring.size - j)) % ring.size;
    if l < ring.links {
        weight_at(ring, table, weights, k, l, s)
    } else {
        0
    }
}

// Column c of the row of link l of user k.
fn upload_at(
    ring: Ring,
    table: &[Symbol],
    weights: &[Symbol],
    k: usize,
    l: usize,
    c: usize,
) -> Symbol
    requires { Ready ring table.now weights.now × (k < ring.size) × (l < ring.links) × (c < ring.size * ring.parts + ring.rate) }
    ensures { result ≡ upload_entry (network_of ring table.now weights.now) k l c }
{
    let m = ring.size * ring.parts;
    if c >= m {
        let w = weight_at(ring, table, weights, k, l, ring.parts);
        mul_mod(ring.q, w, table[k * ring.rate + (c - m)])
    } else if c / ring.parts == k {
        weight_at(ring, table, weights, k, l, c % ring.parts)
    } else {
        0
    }
}

// Column c of the row of a relay's sum.
fn relay_at(ring: Ring, table: &[Symbol], weights: &[Symbol], j: usize, c: usize) -> Symbol
    requires { Ready ring table.now weights.now × (j < ring.size) × (c < ring.size * ring.parts + ring.rate) }
    ensures { result ≡ relay_entry (network_of ring table.now weights.now) j c }
{
    let m = ring.size * ring.parts;
    if c < m {
        reading_at(ring, table, weights, j, c / ring.parts, c % ring.parts)
    } else {
        source_at(ring, table, weights, j, c - m)
    }
}

// Column c of the row of total symbol s.
fn total_at(ring: Ring, table: &[Symbol], weights: &[Symbol], s: usize, c: usize) -> Symbol
    requires { Ready ring table.now weights.now }
    ensures { result ≡ total_entry (network_of ring table.now weights.now) s c }
{
    if c < ring.size * ring.parts && c % ring.parts == s {
        1
    } else {
        0
    }
}

// How many rows observer w has, and how many of them are totals.
pub(crate) fn rows_seen(ring: Ring, w: usize) -> usize
    requires { Counted ring }
    ensures { result ≡ rows_seen ring w }
{
    if w == 0 {
        ring.parts + ring.size
    } else {
        ring.links
    }
}

pub(crate) fn totals_seen(ring: Ring, w: usize) -> usize
    ensures { result ≡ totals_seen ring w }
{
    if w == 0 { ring.parts } else { 0 }
}

// Column c of row i of observer w.
fn entry_at(
    ring: Ring,
    table: &[Symbol],
    weights: &[Symbol],
    w: usize,
    i: usize,
    c: usize,
) -> Symbol
    requires { Ready ring table.now weights.now × (w ≤ ring.size) × (i < rows_seen ring w) × (c < ring.size * ring.parts + ring.rate) }
    ensures { result ≡ entry_of (network_of ring table.now weights.now) w i c }
{
    if w > 0 {
        upload_at(ring, table, weights, (w - 1 + i) % ring.size, i, c)
    } else if i < ring.parts {
        total_at(ring, table, weights, i, c)
    } else {
        relay_at(ring, table, weights, i - ring.parts, c)
    }
}

// Writes the rows of observer w from number `first` on, and in them the columns from `from` on.
pub(crate) fn fill_grid(
    ring: Ring,
    table: &[Symbol],
    weights: &[Symbol],
    w: usize,
    first: usize,
    from: usize,
    out: &mut [Symbol],
)
    requires { Ready ring table.now weights.now × (w ≤ ring.size) × (first ≤ rows_seen ring w) × (from < ring.size * ring.parts + ring.rate)
        × (length out.old ≡ (rows_seen ring w - first) * (ring.size * ring.parts + ring.rate - from)) }
    ensures { out.new ≡ grid_of (network_of ring table.now weights.now) w first from (length out.old) }
{
    let width = ring.size * ring.parts + ring.rate - from;
    for t in 0..out.len() {
        out[t] = entry_at(ring, table, weights, w, first + t / width, from + t % width);
    }
}

// The rank of those rows, which are written to t and eliminated there.
fn rank_in(
    ring: Ring,
    table: &[Symbol],
    weights: &[Symbol],
    w: usize,
    first: usize,
    from: usize,
    t: &mut [Symbol],
) -> usize
    requires { Ready ring table.now weights.now × (w ≤ ring.size) × (first ≤ rows_seen ring w) × (from < ring.size * ring.parts + ring.rate)
        × (length t.old ≡ (rows_seen ring w - first) * (ring.size * ring.parts + ring.rate - from)) }
    ensures { result ≡ grid_rank ring table.now weights.now w first from }
{
    let rows = rows_seen(ring, w) - first;
    let width = ring.size * ring.parts + ring.rate - from;
    fill_grid(ring, table, weights, w, first, from, t);
    reduce_rows(ring.q, rows, width, t)
}

fn grid_rank(
    ring: Ring,
    table: &[Symbol],
    weights: &[Symbol],
    w: usize,
    first: usize,
    from: usize,
) -> usize
    requires { Ready ring table.now weights.now × (w ≤ ring.size) × (first ≤ rows_seen ring w) × (from < ring.size * ring.parts + ring.rate) }
    ensures { result ≡ grid_rank ring table.now weights.now w first from }
{
    let m = (rows_seen(ring, w) - first) * (ring.size * ring.parts + ring.rate - from);
    let mut t = [0 as Symbol; Ring::MAX_NUMBERS];
    rank_in(ring, table, weights, w, first, from, &mut t[..m])
}

// Whether observer w leaks: the rank of its rows is not that of their source parts, and one more for each total.
pub(crate) fn leaks_to(ring: Ring, table: &[Symbol], weights: &[Symbol], w: usize) -> bool
    requires { Ready ring table.now weights.now × (w ≤ ring.size) }
    ensures { result ≡ leaks (network_of ring table.now weights.now) w }
{
    let totals = totals_seen(ring, w);
    let whole = grid_rank(ring, table, weights, w, 0, 0);
    let source = grid_rank(ring, table, weights, w, totals, ring.size * ring.parts);
    whole != totals + source
}
