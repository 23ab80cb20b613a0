// One key stock for several pools. A stock is handed over in parts: how many pools it has, and for each its reserve, its limit and what it has drawn.
ghost use Rattle.std.specs.Prelude.{◌≡◌};
ghost use Rattle.refusals.specs.Codes.{if_accepted};
ghost use Rattle.stocks.specs.Stocks.{open_code, opened, draw_of, stock_code, stock_after, out_after};
ghost use Rattle.boundary.specs.Packed.{packed};
ghost use Rattle.key_exports.specs.States.{stock_of};

use arithmetic::Symbol;
use boundary::{pack, pack_verdict};
use stocks::Stock;

// A stock of which nothing is drawn, from one reserve and one limit for each pool, where nothing is refused.
#[unsafe(no_mangle)]
pub extern "C" fn kortyghai_stock_open(
    pools: usize,
    shares: &[usize],
    most: &[usize],
    stream: &[Symbol],
    reserves: &mut [usize; Stock::MAX_POOLS],
    limits: &mut [usize; Stock::MAX_POOLS],
    drawn: &mut [usize; Stock::MAX_POOLS],
) -> u64
    ensures code { result ≡ packed (open_code pools shares.now most.now stream.now) }
    ensures reserves { reserves.new ≡ if_accepted (open_code pools shares.now most.now stream.now)
        (opened pools shares.now most.now).reserves reserves.old }
    ensures limits { limits.new ≡ if_accepted (open_code pools shares.now most.now stream.now)
        (opened pools shares.now most.now).limits limits.old }
    ensures drawn { drawn.new ≡ if_accepted (open_code pools shares.now most.now stream.now)
        (opened pools shares.now most.now).drawn drawn.old }
{
    match Stock::open(pools, shares, most, stream) {
        Ok(stock) => {
            reserves.copy_from_slice(&stock.reserves);
            limits.copy_from_slice(&stock.limits);
            drawn.copy_from_slice(&stock.drawn);
            0
        }
        Err(refusal) => pack(refusal.code()),
    }
}

// The next symbols of the stream, for a pool.
#[unsafe(no_mangle)]
pub extern "C" fn kortyghai_stock_draw(
    pools: usize,
    reserves: &[usize; Stock::MAX_POOLS],
    limits: &[usize; Stock::MAX_POOLS],
    drawn: &mut [usize; Stock::MAX_POOLS],
    stream: &[Symbol],
    pool: usize,
    length: usize,
    out: &mut [Symbol],
) -> u64
    ensures code { result ≡ packed (stock_code stream.now
        (stock_of pools reserves.now limits.now drawn.old) (draw_of pool length out.old)) }
    ensures drawn { drawn.new ≡ (stock_after stream.now
        (stock_of pools reserves.now limits.now drawn.old) (draw_of pool length out.old)).drawn }
    ensures out { out.new ≡ out_after stream.now
        (stock_of pools reserves.now limits.now drawn.old) (draw_of pool length out.old) }
{
    let (kept, ends, before) = (*reserves, *limits, *drawn);
    let stock = Stock {
        pools,
        reserves: kept,
        limits: ends,
        drawn: before,
    };
    let step = stock.draw(stream, pool, length, out);
    drawn.copy_from_slice(&step.state.drawn);
    pack_verdict(step.answer)
}
