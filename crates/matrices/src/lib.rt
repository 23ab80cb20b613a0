// Elimination and rank modulo a prime, on tables: matrices row after row in one slice, of at most 48 rows and columns.
#![tactic(auto)]

ghost use Rattle.std.specs.Prelude.{◌≡◌, ◌*◌, ◌≤◌, ◌<◌, cond, eqb, length};
ghost use Rattle.refusals.specs.Codes.{first_of, code_of_result, outcome, outcome_of};
ghost use Rattle.matrices.specs.Tables.{row_of, rows_of, shaped, pivot_of, crossed, cleared, each_row};
ghost use Rattle.matrices.specs.Tables.{has_pivot, cleared_by, eliminated_from, eliminated, reduced_from, pivots_from};
ghost use Rattle.matrices.specs.Sweeps.{carried_by, carried};
ghost use Rattle.matrices.specs.Rank.{rank_of};
ghost use Rattle.matrices.specs.Entries.{rank_checks};

use arithmetic::Symbol;
use primes::is_prime;
use refusals::{Refusal, refuse_unless};

// The most rows and columns of a table.
pub const MOST: usize = 48;

// Whether the table has at most MOST rows and columns, and as many numbers as that makes.
fn is_shaped(rows: usize, cols: usize, table: &[Symbol]) -> bool
    ensures { result ≡ shaped rows cols table.now }
{
    rows <= MOST && cols <= MOST && rows * cols == table.len()
}

// The first column in which a row is not 0; the row's length where there is none.
fn pivot(row: &[Symbol]) -> usize
    ensures { result ≡ pivot_of row.now }
{
    for k in 0..row.len() {
        if row[k] != 0 {
            return k;
        }
    }
    row.len()
}

// Makes y times a row less x times s of the row.
fn cross(q: Symbol, y: Symbol, x: Symbol, row: &mut [Symbol], s: &[Symbol])
    requires { length row.old ≡ length s.now }
    ensures { row.new ≡ crossed q y x row.old s.now }
{
    for k in 0..row.len() {
        row[k] = arithmetic::cross_mod(q, y, row[k], x, s[k]);
    }
}

// Makes column p of a row 0 by s. A row that is 0 there is left alone.
fn clear(q: Symbol, p: usize, row: &mut [Symbol], s: &[Symbol])
    requires { (length row.old ≡ length s.now) × (p < length row.old) }
    ensures { row.new ≡ cleared q p s.now row.old }
{
    let x = row[p];
    if x != 0 {
        cross(q, s[p], x, row, s);
    }
}

fn clear_rows(q: Symbol, rows: usize, cols: usize, p: usize, table: &mut [Symbol], s: &[Symbol])
    requires { (rows * cols ≡ length table.old) × (p < cols) × (length s.now ≡ cols) }
    ensures { table.new ≡ each_row (cleared q p s.now) rows cols table.old }
{
    for j in 0..rows {
        let b = j * cols;
        clear(q, p, &mut table[b..b + cols], s);
    }
}

// Clears the rows from number `from` on by row i, which is not 0 in column p. The row is copied first, since it may be among them.
fn clear_from(
    q: Symbol,
    rows: usize,
    cols: usize,
    from: usize,
    i: usize,
    p: usize,
    table: &mut [Symbol],
)
    requires { (rows * cols ≡ length table.old) × (cols ≤ 48) × (from ≤ rows) × (i < rows) × (p < cols) × (p ≡ pivot_of (row_of cols table.old i)) }
    ensures { table.new ≡ cleared_by q rows cols from (row_of cols table.old i) table.old }
{
    let b = i * cols;
    let mut s = [0 as Symbol; MOST];
    s[..cols].copy_from_slice(&table[b..b + cols]);
    let rest = &mut table[from * cols..];
    clear_rows(q, rows - from, cols, p, rest, &s[..cols]);
}

// Clears the rows from number `from` on by row i, where that is not 0; whether it is not.
fn eliminate_from(
    q: Symbol,
    rows: usize,
    cols: usize,
    from: usize,
    i: usize,
    table: &mut [Symbol],
) -> bool
    requires { (rows ≤ 48) × (cols ≤ 48) × (rows * cols ≡ length table.old) × (from ≤ rows) × (i < rows) }
    ensures { (result ≡ has_pivot rows cols i table.old) × (table.new ≡ eliminated_from q rows cols from i table.old) }
{
    let b = i * cols;
    let p = pivot(&table[b..b + cols]);
    if p < cols && from < rows {
        clear_from(q, rows, cols, from, i, p, table);
    }
    p < cols
}

// Clears every row by row i in the first column in which that is not 0; whether there is such a column.
pub fn eliminate(q: Symbol, rows: usize, cols: usize, i: usize, table: &mut [Symbol]) -> bool
    ensures { (result ≡ has_pivot rows cols i table.old) × (table.new ≡ eliminated q rows cols i table.old) }
{
    if is_shaped(rows, cols, table) && i < rows {
        eliminate_from(q, rows, cols, 0, i, table)
    } else {
        false
    }
}

fn carry_by(q: Symbol, cols: usize, i: usize, p: usize, table: &[Symbol], values: &mut [Symbol])
    requires { (length values.old ≤ 48) × (cols ≤ 48) × (length values.old * cols ≡ length table.now) × (i < length values.old) × (p < cols) }
    ensures { values.new ≡ carried_by q cols i p table.now values.old }
{
    let y = table[i * cols + p];
    let v = values[i];
    for r in 0..values.len() {
        let x = table[r * cols + p];
        if x != 0 {
            values[r] = arithmetic::cross_mod(q, y, values[r], x, v);
        }
    }
}

// Does to the values beside the rows, one each, what elimination by row i does to the rows. It reads the table as it is before that.
pub fn carry(q: Symbol, rows: usize, cols: usize, i: usize, table: &[Symbol], values: &mut [Symbol])
    ensures { values.new ≡ carried q rows cols i table.now values.old }
{
    if is_shaped(rows, cols, table) && values.len() == rows && i < rows {
        let b = i * cols;
        let p = pivot(&table[b..b + cols]);
        if p < cols {
            carry_by(q, cols, i, p, table, values);
        }
    }
}

// Clears, by each row in turn, the rows after it; how many rows were not 0 when their turn came.
pub fn reduce_rows(q: Symbol, rows: usize, cols: usize, table: &mut [Symbol]) -> usize
    ensures { (result ≡ pivots_from q rows cols rows 0 table.old) × (table.new ≡ reduced_from q rows cols rows 0 table.old) }
{
    if is_shaped(rows, cols, table) {
        count_pivots(q, rows, cols, table)
    } else {
        0
    }
}

fn count_pivots(q: Symbol, rows: usize, cols: usize, table: &mut [Symbol]) -> usize
    requires { (rows ≤ 48) × (cols ≤ 48) × (rows * cols ≡ length table.old) }
    ensures { (result ≡ pivots_from q rows cols rows 0 table.old) × (table.new ≡ reduced_from q rows cols rows 0 table.old) }
{
    let mut n: usize = 0;
    for i in 0..rows {
        if eliminate_from(q, rows, cols, i + 1, i, table) {
            n += 1;
        }
    }
    n
}

// Copies symbols to as many; to another number nothing is copied.
pub fn copy(from: &[Symbol], to: &mut [Symbol])
    ensures { to.new ≡ cond (eqb (length from.now) (length to.old)) from.now to.old }
{
    if from.len() == to.len() {
        to.copy_from_slice(from);
    }
}

// The number of pivots of a copy.
fn count_in_copy(q: Symbol, rows: usize, cols: usize, table: &[Symbol]) -> usize
    requires { (rows ≤ 48) × (cols ≤ 48) × (rows * cols ≡ length table.now) }
    ensures { result ≡ pivots_from q rows cols rows 0 table.now }
{
    let m = rows * cols;
    let mut t = [0 as Symbol; MOST * MOST];
    t[..m].copy_from_slice(table);
    count_pivots(q, rows, cols, &mut t[..m])
}

fn check_rank(q: Symbol, rows: usize, cols: usize, table: &[Symbol]) -> Result<(), Refusal>
    ensures { code_of_result result ≡ first_of (rank_checks q rows cols table.now) }
{
    refuse_unless(rows <= MOST && cols <= MOST, Refusal::OutOfBounds)?;
    refuse_unless(rows * cols == table.len(), Refusal::WrongLength)?;
    refuse_unless(is_prime(q), Refusal::NotPrime)?;
    refuse_unless(arithmetic::all_below(q, table), Refusal::NotASymbol)
}

// The number of rows that are not in the span of the rows before them.
pub fn rank(q: Symbol, rows: usize, cols: usize, table: &[Symbol]) -> Result<usize, Refusal>
    ensures { outcome_of result ≡ outcome (rank_checks q rows cols table.now) (rank_of q cols (rows_of rows cols table.now)) }
{
    check_rank(q, rows, cols, table)?;
    Ok(count_in_copy(q, rows, cols, table))
}
