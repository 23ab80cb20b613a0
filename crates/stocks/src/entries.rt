// Entries of a stock: what a pool holds, and lists of eight.
ghost use Rattle.std.specs.Prelude.{◌≡◌, ◌+◌, ◌-◌};
ghost use Rattle.lists.specs.Lists.{at, zeros, tab};
ghost use Rattle.stocks.specs.Stocks.{max_pools};

use crate::Stock;

// What a pool has not yet drawn of its reserve.
pub(crate) fn owed_of(reserve: usize, drawn: usize) -> usize
    ensures { result ≡ reserve - drawn }
{
    reserve.saturating_sub(drawn)
}

// What a pool has drawn and what it is still sure of, together.
pub(crate) fn held_of(reserve: usize, drawn: usize) -> usize
    ensures { result ≡ drawn + (reserve - drawn) }
{
    reserve.max(drawn)
}

pub(crate) fn no_symbols() -> [usize; Stock::MAX_POOLS]
    ensures { result ≡ zeros max_pools }
{
    [0; Stock::MAX_POOLS]
}

fn entry(lent: &[usize], i: usize) -> usize
    ensures { result ≡ at lent.now i }
{
    if i < lent.len() { lent[i] } else { 0 }
}

// A lent list as an array, with 0 past its end.
pub(crate) fn padded(lent: &[usize]) -> [usize; Stock::MAX_POOLS]
    ensures { result ≡ tab max_pools (at lent.now) }
{
    let mut made = no_symbols();
    for i in 0..Stock::MAX_POOLS {
        made[i] = entry(lent, i);
    }
    made
}
