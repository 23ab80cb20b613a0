// Whether some draws leave a stock, and what its pools have drawn and are owed.
ghost use Rattle.std.specs.Prelude.{◌≡◌, ◌^◌, ◌<◌, ◌≤◌};
ghost use Rattle.lists.specs.Search.{all_to};
ghost use Rattle.stocks.specs.Stocks.{max_pools, entry_fits, held_fits, fits, position, owed_to_others};

use crate::Stock;
use crate::entries::{held_of, owed_of};

impl Stock {
    pub const MAX_POOLS: usize = 8;

    // The entry at an index: a pool's reserve and what it has drawn stay in its limit; past the pools all is 0.
    fn entry_fits(self, i: usize) -> bool
        requires { i < max_pools }
        ensures { result ≡ entry_fits self i }
    {
        let limit = self.limits[i];
        self.reserves[i] <= limit && self.drawn[i] <= limit && (i < self.pools || limit == 0)
    }

    fn entries_fit(self) -> bool
        ensures { result ≡ all_to max_pools (entry_fits self) }
    {
        for i in 0..Stock::MAX_POOLS {
            if !self.entry_fits(i) {
                return false;
            }
        }
        true
    }

    // Whether what the pools hold is no more than a stream of so many symbols has. Any numbers may stand in the stock, so each is compared with what
    // those before it leave, and nothing is added up.
    fn fits_on(self, size: usize) -> bool
        requires { self.pools ≤ max_pools }
        ensures { result ≡ held_fits size self }
    {
        let mut left = size;
        for i in 0..self.pools {
            let mine = held_of(self.reserves[i], self.drawn[i]);
            if left < mine {
                return false;
            }
            left -= mine;
        }
        true
    }

    // Whether some draws on a stream of so many symbols leave this stock.
    pub(crate) fn is_sound(self, size: usize) -> bool
        requires { self.pools ≤ max_pools }
        ensures { result ≡ fits size self }
    {
        self.entries_fit() && self.fits_on(size)
    }

    // What all pools have drawn.
    pub(crate) fn position(self) -> usize
        requires { (self.pools ≤ max_pools) × (position self < 2 ^ 64) }
        ensures { result ≡ position self }
    {
        let mut sum = 0;
        for i in 0..self.pools {
            sum += self.drawn[i];
        }
        sum
    }

    // What the other pools have not yet drawn of their reserves.
    pub(crate) fn owed_to_others(self, pool: usize) -> usize
        requires { (self.pools ≤ max_pools) × (owed_to_others self pool < 2 ^ 64) }
        ensures { result ≡ owed_to_others self pool }
    {
        let mut sum = 0;
        for i in 0..self.pools {
            if i + 1 != pool {
                sum += owed_of(self.reserves[i], self.drawn[i]);
            }
        }
        sum
    }
}
