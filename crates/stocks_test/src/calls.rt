// Calls of the library, held to what the log says.
use crate::log;
use crate::log::{Ask, SYMBOLS, drawn_by_all, noted, number, opened, opens, reached, same};
use arithmetic::Symbol;
use refusals::Refusal;
use std::num::wrapping_add_usize;
use stocks::Stock;
use testing::{clip, fill, is_outside, over};

// What a comparison says where the two differ; otherwise it says the number that was answered.
pub const DIFFER: usize = 22;

// The modulus of the symbols on the stream; the largest buffer, and what it holds before a call: no symbol is so large.
const Q: usize = 4294967291;

const ROOM: usize = 66;

const UNTOUCHED: Symbol = 4294967295;

// A number that no answer has where a detail is not 0: stocks give none.
fn number_of<T>(answer: &Result<T, Refusal>) -> usize {
    let code = refusals::code_of_result(answer);
    over(
        (code.first | code.second) == 0,
        code.number as usize,
        DIFFER,
    )
}

// Whether the buffer holds the stream's symbols from a place on, and past them, or where the call was refused, what it held before.
fn holds(out: &[Symbol; ROOM], stream: &[Symbol; SYMBOLS], from: usize, many: usize) -> bool {
    for k in 0..ROOM {
        let want = if k < many {
            stream[wrapping_add_usize(from, k) % SYMBOLS]
        } else {
            UNTOUCHED
        };
        if out[k] != want {
            return false;
        }
    }
    true
}

// One draw on the stream that a seed stands for, of so many symbols: the answer, the stock handed back and the buffer.
pub fn asked(
    before: Stock,
    ask: Ask,
    x: usize,
    size: usize,
    from: usize,
    expected: usize,
    after: Stock,
) -> usize {
    let mut stream = [0 as Symbol; SYMBOLS];
    fill(&mut stream, Q, x);
    let mut out = [UNTOUCHED; ROOM];
    let n = clip(ask.room, ROOM);
    let s = clip(size, SYMBOLS);
    let step = before.draw(&stream[..s], ask.pool, ask.length, &mut out[..n]);
    let written = over(expected == 0, ask.length, 0);
    let right = same(step.state, after) && holds(&out, &stream, from, written);
    over(
        right && number_of(&step.answer) == expected,
        expected,
        DIFFER,
    )
}

// A draw on a stock that is handed in: 1, 21 where no draws leave it, and then what the draw itself is refused with.
pub fn handed(stock: Stock, ask: Ask, x: usize, size: usize) -> usize {
    let log = reached(stock, size);
    let left = opens(log) && same(log::stock(log), stock);
    let judged = over(left, number(log, ask), 21);
    let expected = over(is_outside(stock.pools, Stock::MAX_POOLS), 1, judged);
    let after = if expected == 0 {
        log::stock(noted(log, ask))
    } else {
        stock
    };
    asked(stock, ask, x, size, drawn_by_all(log), expected, after)
}

// An opening with lists of these lengths: the answer, and the stock handed back where it is not refused.
fn opened_as(
    wanted: Stock,
    many_reserves: usize,
    many_limits: usize,
    size: usize,
    expected: usize,
    after: Stock,
) -> usize {
    let reserves = wanted.reserves;
    let limits = wanted.limits;
    let stream = [0 as Symbol; SYMBOLS];
    let a = clip(many_reserves, Stock::MAX_POOLS);
    let b = clip(many_limits, Stock::MAX_POOLS);
    let s = clip(size, SYMBOLS);
    let answer = Stock::open(wanted.pools, &reserves[..a], &limits[..b], &stream[..s]);
    let right = match answer {
        Ok(stock) => same(stock, after),
        Err(_) => true,
    };
    over(right && number_of(&answer) == expected, expected, DIFFER)
}

// 1, 4, 21.
pub fn opening(wanted: Stock, many_reserves: usize, many_limits: usize, size: usize) -> usize {
    let pools = wanted.pools;
    let log = opened(wanted, size);
    let sized = many_reserves == pools && many_limits == pools;
    let judged = over(sized, over(opens(log), 0, 21), 4);
    let expected = over(is_outside(pools, Stock::MAX_POOLS), 1, judged);
    opened_as(
        wanted,
        many_reserves,
        many_limits,
        size,
        expected,
        log::stock(log),
    )
}
