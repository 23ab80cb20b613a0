// The second implementation: an opening and the list of the draws that were answered since. What a pool has drawn, the position and what others are owed
// are added up from the list each time. Every function takes every number, so that what calls it has nothing to show.
use std::num::{wrapping_add_usize, wrapping_sub_usize};
use stocks::Stock;
use testing::{clip, is_outside, over};

// No stream is longer, and no draw is empty, so that no list of answered draws is longer either.
pub const SYMBOLS: usize = 96;

// The largest number.
pub const MOST: usize = 18446744073709551615;

const LONGEST_BLOCK: usize = 64;

#[derive(Clone, Copy, Debug, PartialEq, Eq)]
pub struct Log {
    pub pools: usize,
    pub reserves: [usize; Stock::MAX_POOLS],
    pub limits: [usize; Stock::MAX_POOLS],
    // How many symbols the stream has.
    pub size: usize,
    // How many draws were answered, by which pool each, and how many symbols it got.
    pub many: usize,
    pub by: [usize; SYMBOLS],
    pub lengths: [usize; SYMBOLS],
}

// A draw: its pool, how many symbols it asks for, and how many the buffer holds.
#[derive(Clone, Copy, Debug, PartialEq, Eq)]
pub struct Ask {
    pub pool: usize,
    pub length: usize,
    pub room: usize,
}

// The sum, or the largest number where it is larger.
pub fn plus(a: usize, b: usize) -> usize {
    let sum = wrapping_add_usize(a, b);
    over(sum < a, MOST, sum)
}

pub fn drawn_by_all(log: Log) -> usize {
    let mut sum: usize = 0;
    for i in 0..clip(log.many, SYMBOLS) {
        sum = plus(sum, log.lengths[i]);
    }
    sum
}

pub fn drawn_by(log: Log, pool: usize) -> usize {
    let mut sum: usize = 0;
    for i in 0..clip(log.many, SYMBOLS) {
        if log.by[i] == pool {
            sum = plus(sum, log.lengths[i]);
        }
    }
    sum
}

fn owed_to_others(log: Log, pool: usize) -> usize {
    let mut sum: usize = 0;
    for i in 0..clip(log.pools, Stock::MAX_POOLS) {
        let other = wrapping_add_usize(i, 1);
        let drawn = drawn_by(log, other);
        let reserve = log.reserves[i];
        if other != pool && drawn < reserve {
            sum = plus(sum, wrapping_sub_usize(reserve, drawn));
        }
    }
    sum
}

// 8, 9, 4, 20, 13, from the last to the first.
pub fn number(log: Log, ask: Ask) -> usize {
    let limit = log.limits[wrapping_sub_usize(ask.pool, 1) % Stock::MAX_POOLS];
    let wanted = plus(drawn_by_all(log), ask.length);
    let short = over(
        plus(wanted, owed_to_others(log, ask.pool)) > log.size,
        13,
        0,
    );
    let past = over(plus(drawn_by(log, ask.pool), ask.length) > limit, 20, short);
    let sized = over(ask.room != ask.length, 4, past);
    let long = over(is_outside(ask.length, LONGEST_BLOCK), 9, sized);
    over(is_outside(ask.pool, log.pools), 8, long)
}

pub fn noted(mut log: Log, ask: Ask) -> Log {
    let i = log.many;
    if i < SYMBOLS {
        log.by[i] = ask.pool;
        log.lengths[i] = ask.length;
        log.many = wrapping_add_usize(i, 1);
    }
    log
}

// Whether each reserve is in its limit, and all together are on the stream.
pub fn opens(log: Log) -> bool {
    let mut sum: usize = 0;
    for i in 0..clip(log.pools, Stock::MAX_POOLS) {
        if log.limits[i] < log.reserves[i] {
            return false;
        }
        sum = plus(sum, log.reserves[i]);
    }
    sum <= log.size
}

// A log without draws; past the pools all is 0.
pub fn opened(stock: Stock, size: usize) -> Log {
    let by = [0usize; SYMBOLS];
    let lengths = [0usize; SYMBOLS];
    let mut reserves = [0usize; Stock::MAX_POOLS];
    let mut limits = [0usize; Stock::MAX_POOLS];
    for i in 0..clip(stock.pools, Stock::MAX_POOLS) {
        reserves[i] = stock.reserves[i];
        limits[i] = stock.limits[i];
    }
    Log {
        pools: stock.pools,
        reserves,
        limits,
        size,
        many: 0,
        by,
        lengths,
    }
}

pub fn stock(log: Log) -> Stock {
    let mut drawn = [0usize; Stock::MAX_POOLS];
    for i in 0..Stock::MAX_POOLS {
        drawn[i] = drawn_by(log, wrapping_add_usize(i, 1));
    }
    let reserves = log.reserves;
    let limits = log.limits;
    Stock {
        pools: log.pools,
        reserves,
        limits,
        drawn,
    }
}

pub fn same(a: Stock, b: Stock) -> bool {
    for i in 0..Stock::MAX_POOLS {
        if a.reserves[i] != b.reserves[i]
            || a.limits[i] != b.limits[i]
            || a.drawn[i] != b.drawn[i]
        {
            return false;
        }
    }
    a.pools == b.pools
}

// A pool draws symbol after symbol; refused draws stand for nothing.
fn drawn_singly(log: Log, pool: usize, many: usize) -> Log {
    let mut after = log;
    for k in 0..clip(many, SYMBOLS) {
        let ask = Ask {
            pool,
            length: 1,
            room: 1,
        };
        if number(after, ask) == 0 {
            after = noted(after, ask);
        }
    }
    after
}

// The log in which each pool in turn draws, symbol after symbol, what it has drawn of this stock: where any draws leave the stock, these do.
pub fn reached(stock: Stock, size: usize) -> Log {
    let mut log = opened(stock, size);
    for i in 0..Stock::MAX_POOLS {
        log = drawn_singly(log, wrapping_add_usize(i, 1), stock.drawn[i]);
    }
    log
}
