// Stocks: opened, and drawn from.
ghost use Rattle.std.specs.Prelude.{◌≡◌, [], length};
ghost use Rattle.std.specs.Result.{result_unwrap_or};
ghost use Rattle.refusals.specs.Codes.{first_of, code_of_result};
ghost use Rattle.stocks.specs.Stocks.{max_pools, opened, open_code, open_stock, draw_of, with_drawn, stock_code, stock_after, out_after};
ghost use Rattle.stocks.specs.Machine.{state_checks, ask_checks, Sound, Countable};

use crate::Stock;
use crate::entries::{no_symbols, padded};
use arithmetic::Symbol;
use plans::{length_fits, one_of};
use refusals::{Refusal, Step, refuse_unless};
use streams::draw_at;

impl Stock {
    // A stock of which nothing is drawn.
    fn fresh(pools: usize, reserves: &[usize], limits: &[usize]) -> Stock
        ensures { result ≡ opened pools reserves.now limits.now }
    {
        Stock {
            pools,
            reserves: padded(reserves),
            limits: padded(limits),
            drawn: no_symbols(),
        }
    }

    // One reserve and one limit for each pool: 1, 4, 21. A stock of which nothing is drawn is sound just where its reserves fit.
    fn check_opening(
        pools: usize,
        reserves: &[usize],
        limits: &[usize],
        stream: &[Symbol],
    ) -> Result<(), Refusal>
        ensures { code_of_result result ≡ open_code pools reserves.now limits.now stream.now }
    {
        refuse_unless(one_of(Stock::MAX_POOLS, pools), Refusal::OutOfBounds)?;
        refuse_unless(
            reserves.len() == pools && limits.len() == pools,
            Refusal::WrongLength,
        )?;
        let stock = Stock::fresh(pools, reserves, limits);
        refuse_unless(stock.is_sound(stream.len()), Refusal::BadStock)
    }

    // A stock for one to eight pools on this stream. The promise also fixes the bound that stands by name.
    pub fn open(
        pools: usize,
        reserves: &[usize],
        limits: &[usize],
        stream: &[Symbol],
    ) -> Result<Stock, Refusal>
        ensures code { code_of_result result ≡ open_code pools reserves.now limits.now stream.now }
        ensures stock { result_unwrap_or result (opened 0 [] []) ≡ open_stock pools reserves.now limits.now stream.now }
        ensures most { Stock.MAX_POOLS ≡ max_pools }
    {
        Stock::check_opening(pools, reserves, limits, stream)?;
        Ok(Stock::fresh(pools, reserves, limits))
    }

    // A stock that is handed in: 1, 21.
    fn check_state(self, size: usize) -> Result<(), Refusal>
        ensures { code_of_result result ≡ first_of (state_checks size self) }
    {
        refuse_unless(one_of(Stock::MAX_POOLS, self.pools), Refusal::OutOfBounds)?;
        refuse_unless(self.is_sound(size), Refusal::BadStock)
    }

    // What is asked of a sound stock: 8, 9, 4, 20, 13.
    fn check_asked(
        self,
        size: usize,
        pool: usize,
        length: usize,
        room: usize,
    ) -> Result<(), Refusal>
        requires { Sound size self }
        ensures { code_of_result result ≡ first_of (ask_checks size self pool length room) }
    {
        refuse_unless(one_of(self.pools, pool), Refusal::UnknownNumber)?;
        refuse_unless(length_fits(length), Refusal::BadBlockLength)?;
        refuse_unless(room == length, Refusal::WrongLength)?;
        let i = pool - 1;
        refuse_unless(self.limits[i] - self.drawn[i] >= length, Refusal::PastLimit)?;
        let left = size - self.position();
        refuse_unless(
            left >= length && left - length >= self.owed_to_others(pool),
            Refusal::StreamTooShort,
        )
    }

    fn check_draw(
        self,
        stream: &[Symbol],
        pool: usize,
        length: usize,
        out: &[Symbol],
    ) -> Result<(), Refusal>
        ensures { code_of_result result ≡ stock_code stream.now self (draw_of pool length out.now) }
    {
        self.check_state(stream.len())?;
        self.check_asked(stream.len(), pool, length, out.len())
    }

    // The pool's symbols counted.
    fn moved(mut self, pool: usize, length: usize) -> Stock
        requires { Countable self pool length }
        ensures { result ≡ with_drawn self pool length }
    {
        let i = pool - 1;
        self.drawn[i] += length;
        self
    }

    // The next L symbols of the stream, for a pool. A refused draw writes nothing and hands back the stock that it got.
    pub fn draw(
        mut self,
        stream: &[Symbol],
        pool: usize,
        length: usize,
        out: &mut [Symbol],
    ) -> Step<Stock>
        ensures { (code_of_result result.answer ≡ stock_code stream.now self (draw_of pool length out.old))
            × (result.state ≡ stock_after stream.now self (draw_of pool length out.old))
            × (out.new ≡ out_after stream.now self (draw_of pool length out.old)) }
    {
        match self.check_draw(stream, pool, length, out) {
            Ok(()) => {
                // It is not refused: what was checked leaves at least so many symbols.
                draw_at(stream, self.position(), length, out);
                Step::made(self.moved(pool, length))
            }
            Err(refusal) => Step::refused(refusal, self),
        }
    }
}
