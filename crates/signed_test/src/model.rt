// The second implementation: what is to be refused, and what a buffer holds after a call.
use crate::numbers::{least, minus, nearest, of_reading, plus, reading_at, symbol_at};
use arithmetic::Symbol;
use plans::Plan;
use refusals::Refusal;
use std::num::{wrapping_add_usize, wrapping_sub_usize};
use testing::{is_outside, is_prime, over, product, quotient, wide, wide16};

// What a call is given beside its blocks.
#[derive(Clone, Copy, Debug, PartialEq, Eq)]
pub struct Shape {
    pub plan: Plan,
    pub cap: u32,
    pub length: usize,
}

// What a comparison says where the two differ; otherwise it says the number that was answered.
pub const DIFFER: usize = 17;

// What buffers hold before a call: no symbol is so large, and nothing is shown that is so far below 0.
pub const UNTOUCHED: Symbol = 4294967295;

pub const UNSHOWN: i32 = -2147483648;

// The largest m for which 2 m of each user together are below q.
pub fn largest_cap(plan: Plan) -> usize {
    let users = product(plan.clusters, plan.size);
    quotient(
        wrapping_sub_usize(wide(plan.q), 1),
        wrapping_add_usize(users, users),
    )
}

fn out_of_bounds(plan: Plan) -> bool {
    let users = product(plan.clusters, plan.size);
    let sides = is_outside(plan.clusters, 8) || is_outside(plan.size, 8);
    sides || users > 16 || plan.limit > users || is_outside(plan.rate, 16)
}

// The large primes that are drawn are known to be primes; all other numbers are tried.
fn is_known(q: Symbol) -> bool {
    match q {
        65521 | 65537 | 4294967279 | 4294967291 => true,
        _ => is_prime(wide(q)),
    }
}

// Every call: 1, 2, 16, 9, 4, and then what the call has.
pub fn refusal(s: Shape, sized: bool, otherwise: usize) -> usize {
    let plan = s.plan;
    let blocks = over(sized, otherwise, 4);
    let length = over(is_outside(s.length, 64), 9, blocks);
    let cap = over(is_outside(wide(s.cap), largest_cap(plan)), 16, length);
    over(out_of_bounds(plan), 1, over(is_known(plan.q), cap, 2))
}

// How many readings are further from 0 than the cap.
pub fn count_outside(readings: &[i32], cap: u32) -> usize {
    let most = cap as i64;
    let mut n = 0;
    for p in 0..readings.len() {
        let w = reading_at(readings, p);
        if w < minus(0, most) || most < w {
            n = wrapping_add_usize(n, 1);
        }
    }
    n
}

// Whether the buffer holds the readings with the key added; where the call was refused, what it held before.
pub fn holds_sent(
    q: Symbol,
    number: usize,
    readings: &[i32],
    key: &[Symbol],
    out: &[Symbol],
) -> bool {
    for p in 0..out.len() {
        let sum = plus(reading_at(readings, p), symbol_at(key, p));
        let want = if number > 0 {
            UNTOUCHED as i64
        } else {
            least(q, sum)
        };
        if symbol_at(out, p) != want {
            return false;
        }
    }
    true
}

// The same of symbols that are shown, with the key taken off.
pub fn holds_shown(
    q: Symbol,
    number: usize,
    symbols: &[Symbol],
    key: &[Symbol],
    out: &[i32],
) -> bool {
    for p in 0..out.len() {
        let rest = minus(symbol_at(symbols, p), symbol_at(key, p));
        let want = if number > 0 {
            of_reading(UNSHOWN)
        } else {
            nearest(q, rest)
        };
        if reading_at(out, p) != want {
            return false;
        }
    }
    true
}

pub fn same_readings(s: &[i32], t: &[i32]) -> bool {
    for p in 0..s.len() {
        if reading_at(s, p) != reading_at(t, p) {
            return false;
        }
    }
    true
}

// No refusal of these calls has a detail.
pub fn compared(answer: Result<(), Refusal>, number: usize, same: bool) -> usize {
    let code = refusals::code_of_result(&answer);
    let details = wide16(code.first | code.second);
    let agree = same && details == 0 && wide16(code.number) == number;
    over(agree, number, DIFFER)
}
