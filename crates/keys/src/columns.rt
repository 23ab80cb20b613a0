// A source key turned: its symbols stand position by position, and turned product by product, so that those of one product stand side by side.
ghost use Rattle.std.specs.Prelude.{◌≡◌, ◌+◌, ◌*◌, ◌<◌, length};
ghost use Rattle.lists.specs.Lists.{at, tab, join_to};

use arithmetic::Symbol;

// The symbols of product k.
fn fill_column(rate: usize, k: usize, source: &[Symbol], column: &mut [Symbol])
    requires { (k < rate) × (length source.now ≡ length column.old * rate) }
    ensures { column.new ≡ tab (length column.old) (λ p. at source.now (p * rate + k)) }
{
    for p in 0..column.len() {
        column[p] = source[p * rate + k];
    }
}

// Column after column.
pub(crate) fn turn(rate: usize, positions: usize, source: &[Symbol], turned: &mut [Symbol])
    requires { (length source.now ≡ positions * rate) × (length turned.old ≡ rate * positions) }
    ensures { turned.new ≡ join_to rate (λ k. tab positions (λ p. at source.now (p * rate + k))) }
{
    for k in 0..rate {
        let from = k * positions;
        fill_column(rate, k, source, &mut turned[from..from + positions]);
    }
}
