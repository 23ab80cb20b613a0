// What the server makes of the sums that have arrived.
ghost use Rattle.std.specs.Prelude.{◌≡◌, cond, not, ◌++◌, ◌+◌, ◌-◌, ◌*◌, ◌≤◌, ◌<◌, ltb, T, length, replicate};
ghost use Rattle.refusals.specs.Codes.{first_of, code_of_result};
ghost use Rattle.lists.specs.Bits.{has_bit};
ghost use Rattle.residues.specs.Field.{opposite_of, product_of, inverse_of};
ghost use Rattle.lists.specs.Search.{all_to};
ghost use Rattle.lists.specs.Lists.{at, zeros, tab};
ghost use Rattle.matrices.specs.Tables.{row_of, pivot_of, eliminated};
ghost use Rattle.cyclic.specs.Decoding.{decodable, decoded};
ghost use Rattle.networks.specs.Rings.{network_of, arrived_below, lent_fits, lent_below, symbol_checks, arrival_checks, decode_checks, decoded_after};
ghost use Rattle.networks.specs.Machine.{Counted};
ghost use Rattle.networks.specs.Machine.{Ready};
ghost use Rattle.matrices.specs.Sweeps.{carried};
ghost use Rattle.matrices.specs.Sweeps.{swept_table, swept_values};

use crate::Ring;
use crate::bounds::{check_counts, check_symbols};
use crate::grids::fill_grid;
use crate::verdict::{both_below, lengths_fit};
use arithmetic::{Symbol, all_below, inverse_mod, mul_mod, opposite_mod};
use matrices::{carry, eliminate};
use refusals::{Refusal, refuse_unless};

// Whether the relay's bit is set.
fn has_arrived(reported: u16, j: usize) -> bool
    requires { j < 16 }
    ensures { result ≡ has_bit reported j }
{
    (reported >> j as u32) & 1 == 1
}

// Clears every row by row i, where that is not 0, and carries values and units along.
fn sweep(
    q: Symbol,
    rows: usize,
    cols: usize,
    i: usize,
    table: &mut [Symbol],
    values: &mut [Symbol],
    units: &mut [Symbol],
)
    ensures table { table.new ≡ eliminated q rows cols i table.old }
    ensures values { values.new ≡ carried q rows cols i table.old values.old }
    ensures units { units.new ≡ carried q rows cols i table.old units.old }
{
    carry(q, rows, cols, i, table, values);
    carry(q, rows, cols, i, table, units);
    eliminate(q, rows, cols, i, table);
}

// By the row of each relay that has arrived, in rising order.
fn sweep_all(
    q: Symbol,
    rows: usize,
    cols: usize,
    first: usize,
    count: usize,
    reported: u16,
    table: &mut [Symbol],
    values: &mut [Symbol],
    units: &mut [Symbol],
)
    requires { (rows ≤ 48) × (cols ≤ 48) × (rows * cols ≡ length table.old) × (first + count ≤ rows) × (count ≤ 8) }
    ensures table { table.new ≡ swept_table q rows cols first (has_bit reported) table.old count }
    ensures values { values.new ≡ swept_values q rows cols first (has_bit reported) table.old values.old count }
    ensures units { units.new ≡ swept_values q rows cols first (has_bit reported) table.old units.old count }
{
    for j in 0..count {
        if has_arrived(reported, j) {
            sweep(q, rows, cols, first + j, table, values, units);
        }
    }
}

// Whether the first n rows are 0.
fn all_cleared(n: usize, cols: usize, table: &[Symbol]) -> bool
    requires { (n ≤ 48) × (cols ≤ 48) × (n * cols ≤ length table.now) }
    ensures { result ≡ all_to n (λ s. not (ltb (pivot_of (row_of cols table.now s)) cols)) }
{
    for s in 0..n {
        let start = s * cols;
        if !all_below(1, &table[start..start + cols]) {
            return false;
        }
    }
    true
}

// Each total is minus the value that its row has left, divided by its unit.
fn write_totals(q: Symbol, values: &[Symbol], units: &[Symbol], out: &mut [Symbol])
    requires { (length out.old ≤ length values.now) × (length out.old ≤ length units.now) }
    ensures { out.new ≡ tab (length out.old)
        (λ s. product_of q (opposite_of q (at values.now s)) (inverse_of q (at units.now s))) }
{
    for s in 0..out.len() {
        out[s] = mul_mod(q, opposite_mod(q, values[s]), inverse_mod(q, units[s]));
    }
}

// What stands beside the rows: values, 0 for each of n totals, and the sums; and units, 1 for each total and 0 for each relay. Carried along, a unit becomes
// what the row of its total is multiplied by.
fn write_start(n: usize, sums: &[Symbol], values: &mut [Symbol], units: &mut [Symbol])
    requires { (length values.old ≡ n + length sums.now) × (length units.old ≡ length values.old) }
    ensures values { values.new ≡ zeros n ++ sums.now }
    ensures units { units.new ≡ replicate n 1 ++ zeros (length units.old - n) }
{
    values[..n].fill(0);
    values[n..].copy_from_slice(sums);
    units[..n].fill(1);
    units[n..].fill(0);
}

// Decodes in a table t, values and units that are lent; where some total is no combination nothing is written to out.
fn decode_in(
    ring: Ring,
    table: &[Symbol],
    weights: &[Symbol],
    reported: u16,
    sums: &[Symbol],
    t: &mut [Symbol],
    values: &mut [Symbol],
    units: &mut [Symbol],
    out: &mut [Symbol],
) -> bool
    requires { Ready ring table.now weights.now × (length sums.now ≡ ring.size) × T (arrived_below ring.q ring.size reported sums.now)
        × (length t.old ≡ (ring.parts + ring.size) * (ring.size * ring.parts + ring.rate)) × (length values.old ≡ ring.parts + ring.size)
        × (length units.old ≡ ring.parts + ring.size) × (length out.old ≡ ring.parts) }
    ensures answer { result ≡ decodable (network_of ring table.now weights.now) reported }
    ensures out { out.new ≡ cond (decodable (network_of ring table.now weights.now) reported)
        (tab ring.parts (decoded (network_of ring table.now weights.now) reported sums.now)) out.old }
{
    let rows = ring.parts + ring.size;
    let cols = ring.size * ring.parts + ring.rate;
    fill_grid(ring, table, weights, 0, 0, 0, t);
    write_start(ring.parts, sums, values, units);
    sweep_all(
        ring.q, rows, cols, ring.parts, ring.size, reported, t, values, units,
    );
    if !all_cleared(ring.parts, cols, t) {
        return false;
    }
    write_totals(ring.q, values, units, out);
    true
}

fn decode_here(
    ring: Ring,
    table: &[Symbol],
    weights: &[Symbol],
    reported: u16,
    sums: &[Symbol],
    out: &mut [Symbol],
) -> bool
    requires { Ready ring table.now weights.now × (length sums.now ≡ ring.size) × T (arrived_below ring.q ring.size reported sums.now)
        × (length out.old ≡ ring.parts) }
    ensures answer { result ≡ decodable (network_of ring table.now weights.now) reported }
    ensures out { out.new ≡ cond (decodable (network_of ring table.now weights.now) reported)
        (tab ring.parts (decoded (network_of ring table.now weights.now) reported sums.now)) out.old }
{
    let rows = ring.parts + ring.size;
    let m = rows * (ring.size * ring.parts + ring.rate);
    let mut t = [0 as Symbol; Ring::MAX_NUMBERS];
    let mut values = [0 as Symbol; Ring::MAX_ROWS];
    let mut units = [0 as Symbol; Ring::MAX_ROWS];
    decode_in(
        ring,
        table,
        weights,
        reported,
        sums,
        &mut t[..m],
        &mut values[..rows],
        &mut units[..rows],
        out,
    )
}

// Whether each sum that has arrived is a symbol.
fn arrived_below(q: Symbol, count: usize, reported: u16, sums: &[Symbol]) -> bool
    requires { (count ≤ 8) × (length sums.now ≡ count) }
    ensures { result ≡ arrived_below q count reported sums.now }
{
    for j in 0..count {
        if has_arrived(reported, j) && sums[j] >= q {
            return false;
        }
    }
    true
}

fn decode_lengths(
    ring: Ring,
    table: &[Symbol],
    weights: &[Symbol],
    sums: &[Symbol],
    out: &[Symbol],
) -> bool
    requires { Counted ring }
    ensures { result ≡ lent_fits ring table.now weights.now sums.now out.now }
{
    lengths_fit(ring, table, weights) && sums.len() == ring.size && out.len() == ring.parts
}

fn decode_below(
    ring: Ring,
    table: &[Symbol],
    weights: &[Symbol],
    reported: u16,
    sums: &[Symbol],
) -> bool
    requires { Counted ring × (length sums.now ≡ ring.size) }
    ensures { result ≡ lent_below ring table.now weights.now reported sums.now }
{
    both_below(ring.q, table, weights) && arrived_below(ring.q, ring.size, reported, sums)
}

// Checks 4, 2 and 3. Sums are looked at only where there are K of them.
fn check_lent(
    ring: Ring,
    table: &[Symbol],
    weights: &[Symbol],
    reported: u16,
    sums: &[Symbol],
    out: &[Symbol],
) -> Result<(), Refusal>
    requires { Counted ring }
    ensures { code_of_result result ≡ first_of (symbol_checks ring.q
        (lent_fits ring table.now weights.now sums.now out.now)
        (lent_below ring table.now weights.now reported sums.now)) }
{
    if !decode_lengths(ring, table, weights, sums, out) {
        return Err(Refusal::WrongLength);
    }
    check_symbols(
        ring.q,
        true,
        decode_below(ring, table, weights, reported, sums),
    )
}

// Every check before 23.
fn check_arrivals(
    ring: Ring,
    table: &[Symbol],
    weights: &[Symbol],
    reported: u16,
    sums: &[Symbol],
    out: &[Symbol],
) -> Result<(), Refusal>
    ensures { code_of_result result
        ≡ first_of (arrival_checks ring table.now weights.now reported sums.now out.now) }
{
    check_counts(ring)?;
    check_lent(ring, table, weights, reported, sums, out)?;
    refuse_unless(reported >> ring.size as u32 == 0, Refusal::UnknownNumber)
}

// The n totals, from the sums of the relays that have arrived.
pub fn decode(
    ring: Ring,
    table: &[Symbol],
    weights: &[Symbol],
    reported: u16,
    sums: &[Symbol],
    out: &mut [Symbol],
) -> Result<(), Refusal>
    ensures code { code_of_result result
        ≡ first_of (decode_checks ring table.now weights.now reported sums.now out.old) }
    ensures out { out.new ≡ decoded_after ring table.now weights.now reported sums.now out.old }
{
    check_arrivals(ring, table, weights, reported, sums, out)?;
    refuse_unless(
        decode_here(ring, table, weights, reported, sums, out),
        Refusal::NotDecodable,
    )
}
