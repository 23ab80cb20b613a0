// The entries of key_exports, under their names, for one archive of all of them.
ghost use Rattle.std.specs.Prelude.{◌≡◌};
ghost use Rattle.keys.specs.Keys.{key_code, keys_after};
ghost use Rattle.streams.specs.Streams.{draw_code, position_after, buffer_after};
ghost use Rattle.boundary.specs.Packed.{packed};
ghost use Rattle.boundary.specs.Counts.{plan_of};
ghost use Rattle.refusals.specs.Codes.{if_accepted};
ghost use Rattle.stocks.specs.Stocks.{open_code, opened, draw_of, stock_code, stock_after, out_after};
ghost use Rattle.key_exports.specs.States.{stock_of};

use arithmetic::Symbol;
use boundary::PLAN_NUMBERS;
use stocks::Stock;

// Each user's keys for `length` positions, where nothing is refused.
#[unsafe(no_mangle)]
pub extern "C" fn kortyghai_derive_keys(
    plan: &[Symbol; PLAN_NUMBERS],
    table: &[Symbol],
    length: usize,
    source: &[Symbol],
    keys: &mut [Symbol],
) -> u64
    ensures code { result
        ≡ packed (key_code (plan_of plan.now) table.now length source.now keys.old) }
    ensures keys { keys.new
        ≡ keys_after (plan_of plan.now) table.now length source.now keys.old }
{
    key_exports::kortyghai_derive_keys(plan, table, length, source, keys)
}

// The next symbols of a key stream, and the position moved past them, where nothing is refused.
#[unsafe(no_mangle)]
pub extern "C" fn kortyghai_draw(
    stream: &[Symbol],
    position: &mut usize,
    length: usize,
    out: &mut [Symbol],
) -> u64
    ensures code { result ≡ packed (draw_code stream.now position.old length out.old) }
    ensures position { position.new ≡ position_after stream.now position.old length out.old }
    ensures out { out.new ≡ buffer_after stream.now position.old length out.old }
{
    key_exports::kortyghai_draw(stream, position, length, out)
}

// A stock of which nothing is drawn, from one reserve and one limit for each pool, where nothing is refused.
#[unsafe(no_mangle)]
pub extern "C" fn kortyghai_stock_open(
    pools: usize,
    shares: &[usize],
    most: &[usize],
    stream: &[Symbol],
    reserves: &mut [usize; Stock::MAX_POOLS],
    limits: &mut [usize; Stock::MAX_POOLS],
    drawn: &mut [usize; Stock::MAX_POOLS],
) -> u64
    ensures code { result ≡ packed (open_code pools shares.now most.now stream.now) }
    ensures reserves { reserves.new ≡ if_accepted (open_code pools shares.now most.now stream.now)
        (opened pools shares.now most.now).reserves reserves.old }
    ensures limits { limits.new ≡ if_accepted (open_code pools shares.now most.now stream.now)
        (opened pools shares.now most.now).limits limits.old }
    ensures drawn { drawn.new ≡ if_accepted (open_code pools shares.now most.now stream.now)
        (opened pools shares.now most.now).drawn drawn.old }
{
    key_exports::kortyghai_stock_open(pools, shares, most, stream, reserves, limits, drawn)
}

// The next symbols of the stream, for a pool.
#[unsafe(no_mangle)]
pub extern "C" fn kortyghai_stock_draw(
    pools: usize,
    reserves: &[usize; Stock::MAX_POOLS],
    limits: &[usize; Stock::MAX_POOLS],
    drawn: &mut [usize; Stock::MAX_POOLS],
    stream: &[Symbol],
    pool: usize,
    length: usize,
    out: &mut [Symbol],
) -> u64
    ensures code { result ≡ packed (stock_code stream.now
        (stock_of pools reserves.now limits.now drawn.old) (draw_of pool length out.old)) }
    ensures drawn { drawn.new ≡ (stock_after stream.now
        (stock_of pools reserves.now limits.now drawn.old) (draw_of pool length out.old)).drawn }
    ensures out { out.new ≡ out_after stream.now
        (stock_of pools reserves.now limits.now drawn.old) (draw_of pool length out.old) }
{
    key_exports::kortyghai_stock_draw(pools, reserves, limits, drawn, stream, pool, length, out)
}
