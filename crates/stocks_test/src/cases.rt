// Cases, each made of its number alone.
use crate::calls::{DIFFER, asked, handed, opening};
use crate::log;
use crate::log::{Ask, Log, MOST, SYMBOLS, drawn_by_all, noted, number, opened, plus};
use std::num::{wrapping_add_usize, wrapping_sub_usize};
use stocks::Stock;
use testing::{clip, draw, over, seed, state};

// Twice this is 0 in 64 bits.
const HALF: usize = 9223372036854775808;

// How many draws a run has.
const DRAWS: usize = 40;

// Every small stock: two pools, entries below 4, streams of at most 5 symbols, asked by either pool for one or two symbols.
pub const SMALL: usize = 98304;

// Number k of those that the state x holds, below n; 0 where n is 0.
fn pick(x: usize, k: usize, n: usize) -> usize {
    draw(state(x, k), n)
}

// A stock that draws leave on a stream that is long enough: each pool has a limit below 12, and a reserve and symbols drawn that are in it. Huge
// reserves are such that two of them make 0 in 64 bits.
fn good(x: usize, huge: bool) -> Stock {
    let pools = pick(x, 1, Stock::MAX_POOLS) % Stock::MAX_POOLS + 1;
    let mut reserves = [0usize; Stock::MAX_POOLS];
    let mut limits = [0usize; Stock::MAX_POOLS];
    let mut drawn = [0usize; Stock::MAX_POOLS];
    for i in 0..clip(pools, Stock::MAX_POOLS) {
        let limit = pick(x, i + 10, 12);
        limits[i] = over(huge, MOST, limit);
        reserves[i] = over(huge, HALF, pick(x, i + 20, limit));
        drawn[i] = pick(x, i + 30, wrapping_add_usize(limit, 1));
    }
    Stock {
        pools,
        reserves,
        limits,
        drawn,
    }
}

// What its pools hold, each the larger of its reserve and what it has drawn: how long the stream must be.
fn held(stock: Stock) -> usize {
    let mut sum: usize = 0;
    for i in 0..Stock::MAX_POOLS {
        let reserve = stock.reserves[i];
        let drawn = stock.drawn[i];
        sum = plus(sum, over(reserve < drawn, drawn, reserve));
    }
    sum
}

// One number in it is another, at one of the pools or past them; the log tells whether draws still leave it.
fn spoiled(mut stock: Stock, x: usize) -> Stock {
    let i = pick(x, 2, Stock::MAX_POOLS) % Stock::MAX_POOLS;
    let drawn = stock.drawn[i];
    let other = match pick(x, 4, 8) {
        0 => MOST,
        1 => 1,
        2 => wrapping_sub_usize(drawn, 1),
        3 => plus(drawn, 1),
        4 => 0,
        5 => 9,
        _ => plus(stock.limits[i], 1),
    };
    match pick(x, 3, 8) {
        0 => stock.reserves[i] = other,
        1 => stock.limits[i] = other,
        2 | 3 => stock.drawn[i] = other,
        4 => stock.pools = other,
        _ => {}
    }
    stock
}

// The number itself, but seldom one too few, or one too many.
fn near(n: usize, k: usize) -> usize {
    match k {
        0 => wrapping_sub_usize(n, 1),
        1 => wrapping_add_usize(n, 1),
        _ => n,
    }
}

// Seldom no such pool, no such length or a wrong buffer; mostly few symbols.
fn ask(x: usize, pools: usize) -> Ask {
    let length = match pick(x, 5, 16) {
        0 => 0,
        1 => 65,
        2 => 64,
        3 => MOST,
        4 => pick(x, 6, 64),
        _ => pick(x, 6, 6) % 6 + 1,
    };
    let room = near(length, pick(x, 7, 16));
    let pool = match pick(x, 8, 24) {
        0 => 0,
        1 => wrapping_add_usize(pools, 1),
        2 => MOST,
        _ => wrapping_add_usize(pick(x, 9, pools), 1),
    };
    Ask { pool, length, room }
}

// How long the stream is: just long enough, one too short, or longer.
fn size(x: usize, stock: Stock) -> usize {
    let all = held(stock);
    let some = match pick(x, 40, 8) {
        0 => wrapping_sub_usize(all, 1),
        1 | 2 => all,
        _ => plus(all, pick(x, 41, 12)),
    };
    clip(some, SYMBOLS)
}

pub fn drawn_stock(case: usize) -> usize {
    let x = seed(case);
    let whole = good(x, pick(x, 45, 16) == 0);
    let stock = spoiled(whole, x);
    handed(stock, ask(x, stock.pools), x, size(x, whole))
}

pub fn small_stock(case: usize) -> usize {
    let reserves: [usize; Stock::MAX_POOLS] = [case % 4, case / 4 % 4, 0, 0, 0, 0, 0, 0];
    let limits: [usize; Stock::MAX_POOLS] = [case / 16 % 4, case / 64 % 4, 0, 0, 0, 0, 0, 0];
    let drawn: [usize; Stock::MAX_POOLS] = [case / 256 % 4, case / 1024 % 4, 0, 0, 0, 0, 0, 0];
    let stock = Stock {
        pools: 2,
        reserves,
        limits,
        drawn,
    };
    let length = case / 4096 % 2 + 1;
    let ask = Ask {
        pool: case / 8192 % 2 + 1,
        length,
        room: length,
    };
    handed(stock, ask, case, case / 16384 % 6)
}

// Lists one too short or too long, reserves past their limits or the stream, and no such number of pools.
pub fn drawn_opening(case: usize) -> usize {
    let x = seed(case);
    let whole = good(x, pick(x, 45, 16) == 0);
    let stock = spoiled(whole, x);
    let a = clip(near(stock.pools, pick(x, 42, 20)), Stock::MAX_POOLS);
    let b = clip(near(stock.pools, pick(x, 43, 20)), Stock::MAX_POOLS);
    opening(stock, a, b, size(x, whole))
}

// A log after one draw more, and what the comparison says.
#[derive(Clone, Copy, Debug, PartialEq, Eq)]
struct Turn {
    log: Log,
    found: usize,
}

fn taken(log: Log, ask: Ask, x: usize, too_far: usize) -> Turn {
    let expected = number(log, ask);
    let after = if expected == 0 { noted(log, ask) } else { log };
    let from = wrapping_add_usize(drawn_by_all(log), too_far);
    let found = asked(
        log::stock(log),
        ask,
        x,
        log.size,
        from,
        expected,
        log::stock(after),
    );
    Turn { log: after, found }
}

// A run of draws from an opening. It says the number of the last draw where all draws agree. Symbols are expected from so many places too far on the stream.
pub fn run(case: usize, too_far: usize) -> usize {
    let x = seed(case);
    let whole = good(x, false);
    let n = clip(plus(held(whole), pick(x, 44, 12)), SYMBOLS);
    let mut log = opened(whole, n);
    let mut number: usize = 0;
    for i in 0..DRAWS {
        let next = taken(log, ask(state(x, plus(i, 50)), log.pools), x, too_far);
        log = next.log;
        number = over(number == DIFFER, DIFFER, next.found);
    }
    number
}
